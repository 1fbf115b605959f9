//! Which room, that a unit's energy and its reserve share, is passed by the most.

ghost use Rattle.std.specs.Prelude.{◌≡◌, ◌<◌, ◌+◌, ℤ, pos, ◌≤ℤ◌, length, map, Contains, IfOk, IfErr, MatchOption};
ghost use Rattle.fraction_theory.specs.Fraction.{whole, ◌-ℚ◌};
ghost use Rattle.fraction_theory.specs.Order.{◌<ℚ◌, ◌≤ℚ◌};
ghost use Rattle.market_model.specs.declared.participants.Parts.{Parts};
ghost use Rattle.market_model.specs.Dispatch.{Dispatch, dispatch_with};
ghost use Rattle.market_model.specs.Reserves.{reserve_units, room, room_used};
ghost use Rattle.market_model.specs.Stops.{StopsBy};
ghost use Rattle.market_model.specs.SumTables.{IsRefusedAmong, RoomSum};
ghost use Rattle.market_model.specs.Valued.{passed_at};
ghost use Rattle.limit_screen.specs.Rooms.{AllKeepRooms, AreRoomsUsed, IsUseOf, IsWorstRoom, IsWorstRoomNamed, IsWorstRoomTo, room_overrun};

use crate::uses::rooms_used;
use exact_fraction::{Exact, Passed, exact_difference};
use market_model::{Market, Stop, offers_reserve, room_quantity, room_used};
use std::alloc::Global;
use std::cmp::Ordering;

/// A unit whose room is passed.
#[derive(Clone, Copy, Debug)]
struct RoomOverrun<N> {
    unit: usize,
    /// By how much, in 10^-9 MW.
    overrun: N,
}

/// By how much a use passes a room; nothing where it doesn't. That is never too large: its parts are no greater than those of the use.
fn beyond_room<N: Exact>(used: N, room: N) -> Result<Option<N>, Passed<N>>
    requires { (mw : ℤ) × (pos 0 ≤ℤ mw) × (N.value room ≡ whole mw) }
    ensures overrun { IfOk result (λ past. MatchOption past (N.value used ≤ℚ N.value room) (λ e. (N.value room <ℚ N.value used) × (N.value e ≡ N.value used -ℚ N.value room))) }
    ensures fits { IfErr result (λ passed. ⊥) }
{
    match used.order(room) {
        Ordering::Greater => Ok(Some(exact_difference(used, room)?)),
        Ordering::Less | Ordering::Equal => Ok(None),
    }
}

/// The worse of two units, and the first where they are as bad.
fn worse_room<N: Exact>(
    worst: Option<RoomOverrun<N>>,
    unit: usize,
    overrun: N,
) -> Option<RoomOverrun<N>>
    ensures { (m : Parts) (x : Dispatch) → IsWorstRoomTo N.value m x unit worst → Contains (reserve_units m) unit → room m unit <ℚ room_used m x unit → N.value overrun ≡ room_overrun m x unit
        → IsWorstRoomTo N.value m x (unit + 1) result }
{
    let found = RoomOverrun { unit, overrun };
    match worst {
        Some(broken) => match overrun.order(broken.overrun) {
            Ordering::Greater => Some(found),
            Ordering::Less | Ordering::Equal => Some(broken),
        },
        None => Some(found),
    }
}

/// The worst of the units before a place, with the unit there, which uses so much of its room; nothing where it offers no reserve.
fn with_unit<N: Exact>(
    market: &Market,
    unit: usize,
    used: Option<N>,
    worst: Option<RoomOverrun<N>>,
) -> Result<Option<RoomOverrun<N>>, Passed<N>>
    requires { unit < length market.now.units }
    ensures worst { (x : Dispatch) → IsUseOf N.value market.now x unit used → IsWorstRoomTo N.value market.now x unit worst → IfOk result (IsWorstRoomTo N.value market.now x (unit + 1)) }
    ensures fits { IfErr result (λ passed. ⊥) }
{
    match used {
        Some(used) => match beyond_room(used, room_quantity(market, unit))? {
            Some(overrun) => Ok(worse_room(worst, unit, overrun)),
            None => Ok(worst),
        },
        None => Ok(worst),
    }
}

/// What a unit uses of its room; nothing where it offers no reserve.
fn use_of<N: Exact>(
    market: &Market,
    unit: usize,
    dispatch: &[N],
    reserve: &[N],
) -> Result<Option<N>, Passed<N>>
    requires dispatch { length dispatch.now ≡ length market.now.blocks }
    requires reserve { length reserve.now ≡ length market.now.reserve.offers }
    requires unit { unit < length market.now.units }
    ensures used { let x = dispatch_with (map N.value dispatch.now) (map N.value reserve.now) in IfOk result (IsUseOf N.value market.now x unit) }
    ensures stops { let x = dispatch_with (map N.value dispatch.now) (map N.value reserve.now) in IfErr result (λ passed. IsRefusedAmong (RoomSum market.now x) N.bound (passed_at N.value passed)) }
{
    if offers_reserve(market, unit) {
        Ok(Some(room_used(market, unit, dispatch, reserve)?))
    } else {
        Ok(None)
    }
}

/// The unit that offers reserve and whose room is passed by the most, of what its blocks and its reserve use together, and the first of
/// several, by its place; none where all of these units keep their rooms.
pub fn worst_room<N: Exact>(
    market: &Market,
    dispatch: &[N],
    reserve: &[N],
) -> Result<Option<usize>, Passed<N>>
    requires dispatch { length dispatch.now ≡ length market.now.blocks }
    requires reserve { length reserve.now ≡ length market.now.reserve.offers }
    ensures worst { let x = dispatch_with (map N.value dispatch.now) (map N.value reserve.now) in IfOk result (λ worst. MatchOption worst (AllKeepRooms market.now x) (IsWorstRoom market.now x)) }
    ensures stops { let x = dispatch_with (map N.value dispatch.now) (map N.value reserve.now) in IfErr result (λ passed. IsRefusedAmong (RoomSum market.now x) N.bound (passed_at N.value passed)) }
{
    let mut worst = None;
    for unit in 0..market.units().len() {
        let used = use_of(market, unit, dispatch, reserve)?;
        worst = with_unit(market, unit, used, worst)?;
    }
    match worst {
        Some(broken) => Ok(Some(broken.unit)),
        None => Ok(None),
    }
}

/// The same by what each unit uses of its room, as `rooms_used` gives it. None of its differences is too large.
fn worst_room_by<N: Exact>(market: &Market, used: &[Option<N>]) -> Result<Option<usize>, Passed<N>>
    requires { length used.now ≡ length market.now.units }
    ensures worst { (x : Dispatch) → AreRoomsUsed N.value market.now x used.now → IfOk result (λ worst. MatchOption worst (AllKeepRooms market.now x) (IsWorstRoom market.now x)) }
    ensures fits { IfErr result (λ passed. ⊥) }
{
    let mut worst = None;
    for (unit, mw) in used.iter().enumerate() {
        worst = with_unit(market, unit, *mw, worst)?;
    }
    match worst {
        Some(broken) => Ok(Some(broken.unit)),
        None => Ok(None),
    }
}

/// The same as `worst_room`, with memory of its own: what all units use is added up in one pass over the blocks and one over the offers of
/// reserve.
pub fn worst_room_by_uses<N: Exact>(
    alloc: Global,
    market: &Market,
    dispatch: &[N],
    reserve: &[N],
) -> Result<Option<usize>, Stop<N>>
    requires dispatch { length dispatch.now ≡ length market.now.blocks }
    requires reserve { length reserve.now ≡ length market.now.reserve.offers }
    ensures worst { let x = dispatch_with (map N.value dispatch.now) (map N.value reserve.now) in IfOk result (λ worst. MatchOption worst (AllKeepRooms market.now x) (IsWorstRoom market.now x)) }
    ensures stops { let x = dispatch_with (map N.value dispatch.now) (map N.value reserve.now) in IfErr result (StopsBy N.value (IsRefusedAmong (RoomSum market.now x) N.bound)) }
{
    let used = rooms_used(alloc, market, dispatch, reserve)?;
    let worst = worst_room_by(market, &used)?;
    Ok(worst)
}

/// That of `worst_room` by its row in the case's gen matrix.
pub fn rooms<N: Exact>(
    market: &Market,
    dispatch: &[N],
    reserve: &[N],
) -> Result<Option<u32>, Passed<N>>
    requires dispatch { length dispatch.now ≡ length market.now.blocks }
    requires reserve { length reserve.now ≡ length market.now.reserve.offers }
    ensures worst { let x = dispatch_with (map N.value dispatch.now) (map N.value reserve.now) in IfOk result (λ worst. MatchOption worst (AllKeepRooms market.now x) (IsWorstRoomNamed market.now x)) }
    ensures stops { let x = dispatch_with (map N.value dispatch.now) (map N.value reserve.now) in IfErr result (λ passed. IsRefusedAmong (RoomSum market.now x) N.bound (passed_at N.value passed)) }
{
    let _units = market.units();
    match worst_room(market, dispatch, reserve)? {
        Some(unit) => Ok(Some(market.units().at(unit).row)),
        None => Ok(None),
    }
}
