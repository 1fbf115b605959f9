//! The duals that are to be printed of a market after edits and clears, against those that are wanted.

ghost use Rattle.std.specs.Prelude.{All, IfOk};
ghost use Rattle.edit_table.specs.EditTable.{IsStep};

use crate::markets::{Records, market_of};
use edit_replay::{Session, StepOutcome, Steps, steps};
use exact_fraction::Exact;
use market_data::PRICE_ONE;
use market_model::{Dual, Duals, Outcome, Price, RoomDual, RowId};
use settled_replay::settled_replay;
use std::alloc::Global;
use std::cmp::Ordering;
use std::fmt::Debug;
use std::test::Fail;

/// A limit by its branch, the branch that is lost and the unit that is, with its prices up and down.
type LimitPrice = ((u32, u32, u32), i32, i32);

/// Prices in such parts of one per MWh: of energy, of limits, of reserve, and of rooms by their units.
#[derive(Clone, Copy)]
pub(crate) struct Wanted {
    pub per: u32,
    pub energy: i32,
    pub limits: &'static [LimitPrice],
    pub reserve: i32,
    pub rooms: &'static [(u32, i32)],
}

/// A market with the steps that are done before its last clear, and the prices that are wanted of that.
#[derive(Clone, Copy)]
pub(crate) struct Row {
    pub name: &'static str,
    pub records: Records,
    pub steps: &'static str,
    pub wanted: Wanted,
}

/// Whether a price is so many parts of one per MWh.
fn is<N: Exact>(price: N, wanted: i32, per: u32) -> bool {
    match i64::from(wanted).checked_mul(PRICE_ONE) {
        Some(number) if number > i64::MIN && per > 0 => {
            price.order(N::of_parts(number, u64::from(per))) == Ordering::Equal
        }
        _ => false,
    }
}

/// Whether limits have these prices, and no other limit has one.
fn are_limits<N: Exact>(limits: &[Dual<N>], wanted: &[LimitPrice], per: u32) -> bool {
    for (dual, ((branch, outage, unit), up, down)) in limits.iter().zip(wanted) {
        let row = RowId {
            branch: *branch,
            outage: *outage,
            unit: *unit,
        };
        if dual.row != row || !is(dual.up, *up, per) || !is(dual.down, *down, per) {
            return false;
        }
    }
    limits.len() == wanted.len()
}

/// Whether rooms have these prices, and no other room has one.
fn are_rooms<N: Exact>(rooms: &[RoomDual<N>], wanted: &[(u32, i32)], per: u32) -> bool {
    for (room, (unit, price)) in rooms.iter().zip(wanted) {
        if room.unit != *unit || !is(room.price, *price, per) {
            return false;
        }
    }
    rooms.len() == wanted.len()
}

/// Whether duals are these.
fn are_duals<N: Exact>(duals: &Duals<N>, wanted: &Wanted) -> bool {
    let per = wanted.per;
    is(duals.energy, wanted.energy, per)
        && are_limits(duals.limits.slice(), wanted.limits, per)
        && is(duals.reserve, wanted.reserve, per)
        && are_rooms(duals.rooms.slice(), wanted.rooms, per)
}

/// Whether the first bus, which is the reference, has the price of energy.
fn is_at_reference<N: Exact>(prices: &[Price<N>], wanted: &Wanted) -> bool {
    match prices.first() {
        Some(price) => is(price.total, wanted.energy, wanted.per),
        None => false,
    }
}

/// Whether each of some steps was done, and each clear among them came to an answer.
fn are_done<N: Exact>(outcomes: &[StepOutcome<N>]) -> bool {
    for outcome in outcomes {
        match outcome {
            StepOutcome::Accepted | StepOutcome::Clear(Outcome::Cleared(_)) => {}
            _ => return false,
        }
    }
    true
}

/// Whether the last of some steps was a clear that came to an answer with these prices.
fn ends_with<N: Exact>(outcomes: &[StepOutcome<N>], wanted: &Wanted) -> bool {
    match outcomes.last() {
        Some(StepOutcome::Clear(Outcome::Cleared(answer))) => {
            are_duals(&answer.duals, wanted) && is_at_reference(answer.prices.slice(), wanted)
        }
        _ => false,
    }
}

/// The steps of a row, and a clear behind them.
fn steps_of(alloc: Global, row: &Row) -> Result<Steps, Fail>
    ensures { IfOk result (All IsStep) }
{
    let Row { steps: records, .. } = *row;
    let text = format!(in alloc; "op,target,side,block,value\n{records}clear,,,,\n")?;
    Ok(steps(alloc, text.as_bytes())?)
}

/// Whether a row comes to what is wanted, and no settling was refused.
fn holds<N: Exact + Debug>(alloc: Global, row: &Row) -> Result<bool, Fail> {
    let steps = steps_of(alloc, row)?;
    let mut session: Session<N> = Session::new(market_of(alloc, &row.records)?);
    let replay = settled_replay(&mut session, alloc, &steps)?;
    let outcomes = replay.outcomes.slice();
    Ok(!replay.is_passed && are_done(outcomes) && ends_with(outcomes, &row.wanted))
}

/// The first row that does not.
pub(crate) fn first_off<N: Exact + Debug>(
    alloc: Global,
    rows: &[Row],
) -> Result<Option<&'static str>, Fail> {
    for row in rows {
        if !holds::<N>(alloc, row)? {
            return Ok(Some(row.name));
        }
    }
    Ok(None)
}
