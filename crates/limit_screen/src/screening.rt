//! Which limit flows pass by the most.

ghost use Rattle.std.specs.Prelude.{◌≡◌, ◌+◌, ◌≤ℤ◌, ℤ, pos, List, [], ◌∷◌, ◌++◌, length, map, Contains, IfOk, IfErr, MatchBool, MatchOption};
ghost use Rattle.fraction_theory.specs.Fraction.{Fraction, ◌-ℚ◌, whole};
ghost use Rattle.fraction_theory.specs.Order.{◌<ℚ◌, ◌≤ℚ◌};
ghost use Rattle.fraction_theory.specs.Signs.{abs_ℚ};
ghost use Rattle.market_model.specs.Valued.{passed_at};
ghost use Rattle.market_model.specs.Dispatch.{zero};
ghost use Rattle.market_model.specs.Overrun.{IsBeyond, Keeps, overrun as overrun_of};
ghost use Rattle.market_model.specs.declared.limits.Row.{Row};
ghost use Rattle.market_model.specs.declared.participants.Parts.{Parts};
ghost use Rattle.market_model.specs.LimitRows.{flow_by, rows};
ghost use Rattle.market_model.specs.SumTables.{IsFlowRefusal};
ghost use Rattle.limit_rows.specs.Refusals.{IsAnyFlowRefusal};
ghost use Rattle.limit_screen.specs.Flows.{carried_at};
ghost use Rattle.limit_screen.specs.Screening.{AllKeep, IsStanding, IsWorstBy, IsWorstNamed, IsWorstOf, StandsTo, rows_named, taken_rows};

use crate::flowing::carried_flows;
use crate::taking::{TakenRows, is_taken};
use exact_fraction::{Exact, Passed, exact_difference, size};
use limit_rows::{limit_at, most_excess_at, name_at, row_flow, rows};
use market_model::{Market, Row, RowId, datum};
use std::cmp::Ordering;

/// A row whose limit is passed.
#[derive(Clone, Copy, Debug)]
pub(crate) struct RowOverrun<N> {
    pub row: Row,
    /// By how much, in 10^-9 MW.
    pub overrun: N,
    /// A whole number of 10^-9 MW that is not above that.
    pub least: i64,
}

/// How a flow stands to the most that it may be.
#[derive(Clone, Copy, Debug)]
pub(crate) enum Standing<N> {
    /// It is below its limit.
    Below,
    /// It is at its limit, or beyond it where it may be.
    Reached,
    /// It is beyond what it may be, and passes its limit by so much, in 10^-9 MW.
    Beyond(N),
}

/// How a flow stands to a limit that it may not pass. By how much it passes that is never too large: its parts are no greater than those of the
/// flow.
fn against_limit<N: Exact>(flow: N, limit: N) -> Result<Standing<N>, Passed<N>>
    requires { (mw : ℤ) × (pos 0 ≤ℤ mw) × (N.value limit ≡ whole mw) }
    ensures stands { IfOk result (StandsTo N.value (abs_ℚ (N.value flow)) (N.value limit)) }
    ensures fits { IfErr result (λ passed. ⊥) }
{
    let size = size(flow);
    match size.order(limit) {
        Ordering::Less => Ok(Standing::Below),
        Ordering::Equal => Ok(Standing::Reached),
        Ordering::Greater => Ok(Standing::Beyond(exact_difference(size, limit)?)),
    }
}

/// By how much a flow passes a limit; nothing where it doesn't. That is never too large: its parts are no greater than those of the flow.
pub fn beyond<N: Exact>(flow: N, limit: N) -> Result<Option<N>, Passed<N>>
    requires { (mw : ℤ) × (pos 0 ≤ℤ mw) × (N.value limit ≡ whole mw) }
    ensures overrun { IfOk result (λ past. MatchOption past ((abs_ℚ (N.value flow) -ℚ N.value limit) ≤ℚ zero) (λ e. (zero <ℚ N.value e) × (N.value e ≡ abs_ℚ (N.value flow) -ℚ N.value limit))) }
    ensures fits { IfErr result (λ passed. ⊥) }
{
    match against_limit(flow, limit)? {
        Standing::Beyond(overrun) => Ok(Some(overrun)),
        Standing::Below | Standing::Reached => Ok(None),
    }
}

/// Whether a row keeps what it may be all the same, where its flow passes its limit by so much: it is taken, and this is no more than its
/// excess.
fn keeps_excess<N: Exact>(market: &Market, taken: TakenRows<'_>, row: Row, overrun: N) -> bool
    requires row { Contains (rows market.now) row }
    requires passed { zero <ℚ N.value overrun }
    ensures { let g = taken_rows market.now taken.entry in (f : Fraction) → N.value overrun ≡ overrun_of market.now row f → MatchBool result (Keeps market.now g row f) (IsBeyond market.now g row f) }
{
    let _lines = market.lines();
    match overrun.order(datum(most_excess_at(market, row))) {
        Ordering::Greater => false,
        Ordering::Less | Ordering::Equal => is_taken(market, taken, row),
    }
}

/// The whole part of an overrun, and 0 where 64 bits do not hold that.
fn least_of<N: Exact>(overrun: N) -> i64
    requires { zero <ℚ N.value overrun }
    ensures { whole result ≤ℚ N.value overrun }
{
    overrun.floor().unwrap_or(0)
}

/// How a row stands where some rows are taken: its flow may be its limit, and where it is one of them that and its excess.
pub(crate) fn row_standing<N: Exact>(
    market: &Market,
    flows: &[N],
    taken: TakenRows<'_>,
    row: Row,
) -> Result<Standing<N>, Passed<N>>
    requires flows { length flows.now ≡ length market.now.buses + length market.now.lines + length market.now.unit_outages }
    requires row { Contains (rows market.now) row }
    ensures standing { IfOk result (IsStanding N.value market.now (taken_rows market.now taken.entry) row (flow_by market.now (carried_at market.now (map N.value flows.now)) row)) }
    ensures stops { IfErr result (λ passed. IsFlowRefusal market.now (carried_at market.now (map N.value flows.now)) row N.bound (passed_at N.value passed)) }
{
    let _lines = market.lines();
    let flow = row_flow(market, carried_flows(market, flows), row)?;
    match against_limit(flow, datum(limit_at(market, row)))? {
        Standing::Below => Ok(Standing::Below),
        Standing::Reached => Ok(Standing::Reached),
        Standing::Beyond(overrun) => {
            if keeps_excess(market, taken, row, overrun) {
                Ok(Standing::Reached)
            } else {
                Ok(Standing::Beyond(overrun))
            }
        }
    }
}

/// The worse of two rows, and the first where they are as bad.
pub(crate) fn worse<N: Exact>(
    worst: Option<RowOverrun<N>>,
    row: Row,
    overrun: N,
) -> Option<RowOverrun<N>>
    requires { zero <ℚ N.value overrun }
    ensures { (m : Parts) (g : List Row) (f : Row → Fraction) (rs : List Row) → IsWorstOf N.value m g f rs worst → IsBeyond m g row (f row) → N.value overrun ≡ overrun_of m row (f row)
        → IsWorstOf N.value m g f (rs ++ row ∷ []) result }
{
    let found = RowOverrun {
        row,
        overrun,
        least: least_of(overrun),
    };
    match worst {
        Some(broken) => match overrun.order(broken.overrun) {
            Ordering::Greater => Some(found),
            Ordering::Less | Ordering::Equal => Some(broken),
        },
        None => Some(found),
    }
}

/// The worst with one row more.
fn with_row<N: Exact>(
    market: &Market,
    flows: &[N],
    taken: TakenRows<'_>,
    row: Row,
    worst: Option<RowOverrun<N>>,
) -> Result<Option<RowOverrun<N>>, Passed<N>>
    requires flows { length flows.now ≡ length market.now.buses + length market.now.lines + length market.now.unit_outages }
    requires row { Contains (rows market.now) row }
    ensures worst { let g = taken_rows market.now taken.entry in (rs : List Row) → IsWorstOf N.value market.now g (flow_by market.now (carried_at market.now (map N.value flows.now))) rs worst
        → IfOk result (IsWorstOf N.value market.now g (flow_by market.now (carried_at market.now (map N.value flows.now))) (rs ++ row ∷ [])) }
    ensures stops { IfErr result (λ passed. IsFlowRefusal market.now (carried_at market.now (map N.value flows.now)) row N.bound (passed_at N.value passed)) }
{
    let _lines = market.lines();
    match row_standing(market, flows, taken, row)? {
        Standing::Beyond(overrun) => Ok(worse(worst, row, overrun)),
        Standing::Below | Standing::Reached => Ok(worst),
    }
}

/// The worst of all rows.
fn worst_taken<N: Exact>(
    market: &Market,
    flows: &[N],
    taken: TakenRows<'_>,
) -> Result<Option<Row>, Passed<N>>
    requires { length flows.now ≡ length market.now.buses + length market.now.lines + length market.now.unit_outages }
    ensures worst { let g = taken_rows market.now taken.entry in IfOk result (λ worst. MatchOption worst (AllKeep market.now g (carried_at market.now (map N.value flows.now)))
        (IsWorstBy market.now g (carried_at market.now (map N.value flows.now)))) }
    ensures stops { IfErr result (λ passed. IsAnyFlowRefusal market.now (carried_at market.now (map N.value flows.now)) N.bound (passed_at N.value passed)) }
{
    let mut worst = None;
    for row in rows(market) {
        worst = with_row(market, flows, taken, row, worst)?;
    }
    match worst {
        Some(broken) => Ok(Some(broken.row)),
        None => Ok(None),
    }
}

/// Where some rows are taken, the row that is beyond what it may be and whose flow passes its limit by the most, and the first of those in
/// the market's order; none where all rows keep what they may be: a row its limit, and one that is taken that and its excess. The flows
/// are those of buses and then of lines, and then the outputs of lost units, as `flows` puts them.
pub fn worst_row<N: Exact>(
    market: &Market,
    flows: &[N],
    taken: &[Row],
) -> Result<Option<Row>, Passed<N>>
    requires { length flows.now ≡ length market.now.buses + length market.now.lines + length market.now.unit_outages }
    ensures worst { IfOk result (λ worst. MatchOption worst (AllKeep market.now taken.now (carried_at market.now (map N.value flows.now))) (IsWorstBy market.now taken.now (carried_at market.now (map N.value flows.now)))) }
    ensures stops { IfErr result (λ passed. IsAnyFlowRefusal market.now (carried_at market.now (map N.value flows.now)) N.bound (passed_at N.value passed)) }
{
    worst_taken(market, flows, TakenRows::Rows(taken))
}

/// The same by names. A name that no row of the market has takes none.
pub fn worst<N: Exact>(
    market: &Market,
    flows: &[N],
    taken: &[RowId],
) -> Result<Option<RowId>, Passed<N>>
    requires flows { length flows.now ≡ length market.now.buses + length market.now.lines + length market.now.unit_outages }
    ensures worst { let g = rows_named market.now taken.now in IfOk result (λ worst. MatchOption worst (AllKeep market.now g (carried_at market.now (map N.value flows.now)))
        (IsWorstNamed market.now g (carried_at market.now (map N.value flows.now)))) }
    ensures stops { IfErr result (λ passed. IsAnyFlowRefusal market.now (carried_at market.now (map N.value flows.now)) N.bound (passed_at N.value passed)) }
{
    let _lines = market.lines();
    match worst_taken(market, flows, TakenRows::Names(taken))? {
        Some(row) => Ok(Some(name_at(market, row))),
        None => Ok(None),
    }
}
