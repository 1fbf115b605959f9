//! The limits and rooms that a dispatch does not keep.

ghost use Rattle.std.specs.Prelude.{◌≡◌, length, map, IfOk, IfErr};
ghost use Rattle.market_model.specs.Dispatch.{dispatch_with};
ghost use Rattle.market_model.specs.Stops.{StopsBy};
ghost use Rattle.clear_loop.specs.Rounds.{IsLookRefusal, IsScreened};

use exact_fraction::Exact;
use limit_screen::{Reach, RowLook, flows_made, look_at_rows, whole_parts, worst_room_by_uses};
use market_dict::Taking;
use market_model::{Market, Row, Stop};
use std::alloc::Global;

/// What a look at all limits and rooms comes to.
#[derive(Drop)]
pub(crate) enum Screened<N> {
    /// Of the limits that are not kept that which is passed by the most, and the first of those in the market's order; where all limits
    /// are kept, so of the rooms.
    Worst(Taking),
    /// All limits and rooms are kept. What the dispatch carries, and the limits that it reaches.
    Within(Reach<N>),
}

/// A look at all limits and then at all rooms, at the accepted MW of blocks and of offers of reserve. Some limits are taken: of these the
/// excess counts too.
pub(crate) fn screened_at<N: Exact>(
    alloc: Global,
    market: &Market,
    dispatch: &[N],
    reserve: &[N],
    taken: &[Row],
) -> Result<Screened<N>, Stop<N>>
    requires dispatch { length dispatch.now ≡ length market.now.blocks }
    requires reserve { length reserve.now ≡ length market.now.reserve.offers }
    ensures screened { let x = dispatch_with (map N.value dispatch.now) (map N.value reserve.now) in IfOk result (IsScreened N.value market.now taken.now x) }
    ensures stops { let x = dispatch_with (map N.value dispatch.now) (map N.value reserve.now) in IfErr result (StopsBy N.value (IsLookRefusal market.now x N.bound)) }
{
    let _lines = market.lines();
    let by_place = flows_made(alloc, market, dispatch)?;
    let parts = whole_parts(alloc, market, &by_place)?;
    match look_at_rows(alloc, market, &by_place, &parts, taken)? {
        RowLook::Worst(row) => Ok(Screened::Worst(Taking::Limit(row))),
        RowLook::Kept(rows) => match worst_room_by_uses(alloc, market, dispatch, reserve)? {
            Some(unit) => Ok(Screened::Worst(Taking::Room(unit))),
            None => Ok(Screened::Within(Reach {
                flows: by_place,
                rows,
            })),
        },
    }
}
