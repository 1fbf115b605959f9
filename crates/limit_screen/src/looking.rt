//! A look at all limits: which is passed by the most, or which are reached where none is passed.

ghost use Rattle.std.specs.Prelude.{◌≡◌, ◌+◌, length, map, Contains, IfErr, IfOk, IfSome, IsTrue};
ghost use Rattle.fraction_theory.specs.Fraction.{whole};
ghost use Rattle.fraction_theory.specs.Order.{◌≤ℚ◌};
ghost use Rattle.market_model.specs.LimitRows.{Carried, flow_by, rows};
ghost use Rattle.market_model.specs.Overrun.{overrun as overrun_of};
ghost use Rattle.market_model.specs.Stops.{StopsBy};
ghost use Rattle.limit_rows.specs.Refusals.{IsAnyFlowRefusal};
ghost use Rattle.limit_screen.specs.Bounds.{AreWholeParts, IsToldMost};
ghost use Rattle.limit_screen.specs.Flows.{carried_at};
ghost use Rattle.limit_screen.specs.Reaching.{IsRowLook};

use crate::bounds::{is_within, near_flow};
use crate::parts::WholeParts;
use crate::screening::{RowOverrun, Standing, row_standing, worse};
use crate::taking::TakenRows;
use exact_fraction::Exact;
use limit_rows::{limit_at, rows};
use market_model::{Market, Row, Stop};
use std::alloc::Global;

/// What a look at all limits comes to.
#[derive(Drop)]
pub enum RowLook {
    /// The row that is beyond what it may be and whose flow passes its limit by the most, and the first of those in the market's order.
    Worst(Row),
    /// All rows keep what they may be. Those whose flows are at their limits or beyond, in the market's order.
    Kept(Vec<Row>),
}

/// By how much a row may pass its limit, in 10^-9 MW, and be of no matter to a look: by no more than the worst row so far, and where there is none
/// by less than nothing, since a row at its limit is told.
fn told_most<N: Exact>(worst: Option<RowOverrun<N>>) -> i64
    ensures { IsToldMost worst result }
{
    match worst {
        Some(broken) => broken.least,
        None => -1,
    }
}

/// Whether whole parts of what is carried tell that a row passes its limit by no more than this, in 10^-9 MW.
fn is_told_within(market: &Market, parts: &WholeParts, row: Row, most: i64) -> bool
    requires { Contains (rows market.now) row }
    ensures { (c : Carried) → AreWholeParts market.now c parts.now → IsTrue result → overrun_of market.now row (flow_by market.now c row) ≤ℚ whole most }
{
    let _lines = market.lines();
    match near_flow(market, parts, row) {
        Some(flow) => is_within(flow, limit_at(market, row), most),
        None => false,
    }
}

/// Where some rows are taken, the row that is beyond what it may be and whose flow passes its limit by the most; where all rows keep what they may
/// be, a row its limit and one that is taken that and its excess, the rows at their limits or beyond. The flows are those of buses and then of
/// lines, and then the outputs of lost units, as `flows` puts them, and the parts are those that `whole_parts` gives of them: by these most rows
/// that are far from their limits are told.
pub fn look_at_rows<N: Exact>(
    alloc: Global,
    market: &Market,
    flows: &[N],
    parts: &WholeParts,
    taken: &[Row],
) -> Result<RowLook, Stop<N>>
    requires flows { length flows.now ≡ length market.now.buses + length market.now.lines + length market.now.unit_outages }
    requires parts { AreWholeParts market.now (carried_at market.now (map N.value flows.now)) parts.now }
    ensures look { IfOk result (IsRowLook market.now taken.now (carried_at market.now (map N.value flows.now))) }
    ensures stops { IfErr result (StopsBy N.value (IsAnyFlowRefusal market.now (carried_at market.now (map N.value flows.now)) N.bound)) }
{
    let _lines = market.lines();
    let mut worst = None;
    let mut reached = Vec::new(alloc);
    for row in rows(market) {
        if is_told_within(market, parts, row, told_most(worst)) {
            continue;
        }
        match row_standing(market, flows, TakenRows::Rows(taken), row)? {
            Standing::Below => {}
            Standing::Reached => match reached.push(row) {
                Ok(()) => {}
                Err(_) => return Err(Stop::Memory),
            },
            Standing::Beyond(overrun) => worst = worse(worst, row, overrun),
        }
    }
    match worst {
        Some(broken) => Ok(RowLook::Worst(broken.row)),
        None => Ok(RowLook::Kept(reached)),
    }
}
