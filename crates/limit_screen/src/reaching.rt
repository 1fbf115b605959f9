//! Which limits flows reach, and which units use up their rooms.

ghost use Rattle.std.specs.Prelude.{◌≡◌, ◌<◌, ◌&&◌, length, map, IfErr, IfOk};
ghost use Rattle.market_model.specs.Dispatch.{Dispatch, dispatch_with};
ghost use Rattle.market_model.specs.Reserves.{offers_reserve};
ghost use Rattle.market_model.specs.Stops.{StopsBy};
ghost use Rattle.market_model.specs.SumTables.{IsRefusedAmong, RoomSum};
ghost use Rattle.limit_screen.specs.Reaching.{used_up_units, uses_up};
ghost use Rattle.limit_screen.specs.Rooms.{AreRoomsUsed, IsUseOf};

use crate::uses::rooms_used;
use exact_fraction::Exact;
use market_model::{Market, Memory, Row, Stop, room_quantity};
use std::alloc::Global;
use std::cmp::Ordering;

/// What a dispatch carries, and the limits that it reaches.
#[derive(Drop)]
pub struct Reach<N> {
    /// What each bus puts in, then what each line carries, and then what each lost unit puts out, in 10^-9 MW, as `flows_made` gives them.
    pub flows: Vec<N>,
    /// The rows whose flows are at their limits or beyond, in the market's order.
    pub rows: Vec<Row>,
}

/// Whether a unit that uses so much of its room uses it up; not where it offers no reserve.
fn is_used_up<N: Exact>(market: &Market, unit: usize, used: Option<N>) -> bool
    requires { unit < length market.now.units }
    ensures { (x : Dispatch) → IsUseOf N.value market.now x unit used → result ≡ (offers_reserve market.now unit && uses_up market.now x unit) }
{
    match used {
        Some(used) => match used.order(room_quantity(market, unit)) {
            Ordering::Equal => true,
            Ordering::Less | Ordering::Greater => false,
        },
        None => false,
    }
}

/// The places of the units that use up their rooms, by what each unit uses, as `rooms_used` gives it.
fn used_up_by<N: Exact>(
    alloc: Global,
    market: &Market,
    used: &[Option<N>],
) -> Result<Vec<usize>, Memory>
    requires { length used.now ≡ length market.now.units }
    ensures { (x : Dispatch) → AreRoomsUsed N.value market.now x used.now → IfOk result (λ units. units.items ≡ used_up_units market.now x) }
{
    let mut units = Vec::new(alloc);
    for (unit, mw) in used.iter().enumerate() {
        if is_used_up(market, unit, *mw) {
            match units.push(unit) {
                Ok(()) => {}
                Err(_) => return Err(Memory),
            }
        }
    }
    Ok(units)
}

/// The places of the units that offer reserve and use up their rooms, by what their blocks and their reserve use together.
pub fn used_up<N: Exact>(
    alloc: Global,
    market: &Market,
    dispatch: &[N],
    reserve: &[N],
) -> Result<Vec<usize>, Stop<N>>
    requires dispatch { length dispatch.now ≡ length market.now.blocks }
    requires reserve { length reserve.now ≡ length market.now.reserve.offers }
    ensures used { let x = dispatch_with (map N.value dispatch.now) (map N.value reserve.now) in IfOk result (λ units. units.items ≡ used_up_units market.now x) }
    ensures stops { let x = dispatch_with (map N.value dispatch.now) (map N.value reserve.now) in IfErr result (StopsBy N.value (IsRefusedAmong (RoomSum market.now x) N.bound)) }
{
    let used = rooms_used(alloc, market, dispatch, reserve)?;
    let units = used_up_by(alloc, market, &used)?;
    Ok(units)
}
