//! Rooms of the market with reserve, worked by hand.

ghost use Rattle.std.specs.Prelude.{◌≡◌, length};

use crate::markets::needing;
use exact_fraction::Frac;
use limit_screen::rooms;
use market_model::{Market, Memory, datum};
use std::alloc::Global;
use std::test::Fail;

/// MW that are accepted of the two blocks and of the two offers, and the unit whose room is passed by the most, if any.
static ROOMS: [([i32; 2], [i32; 2], Option<u32>); 4] = [
    ([60, 0], [40, 20], None),
    ([60, 0], [50, 10], Some(1)),
    ([60, 80], [50, 50], Some(2)),
    ([60, 60], [50, 50], Some(1)),
];

/// Whether this unit's room, or none, is passed by the most.
fn is_worst(market: &Market, mw: [i32; 2], kept: [i32; 2], unit: Option<u32>) -> bool
    requires blocks { length market.now.blocks ≡ 2 }
    requires offers { length market.now.reserve.offers ≡ 2 }
{
    let dispatch: [Frac; 2] = [datum(i64::from(mw[0])), datum(i64::from(mw[1]))];
    let reserve: [Frac; 2] = [datum(i64::from(kept[0])), datum(i64::from(kept[1]))];
    match rooms(market, &dispatch, &reserve) {
        Ok(worst) => worst == unit,
        Err(_) => false,
    }
}

fn are_worst(market: &Market) -> bool
    requires blocks { length market.now.blocks ≡ 2 }
    requires offers { length market.now.reserve.offers ≡ 2 }
{
    for (mw, kept, unit) in &ROOMS {
        if !is_worst(market, *mw, *kept, *unit) {
            return false;
        }
    }
    true
}

fn worst_rooms(alloc: Global) -> Result<bool, Memory> {
    let market = needing(alloc, 60)?;
    Ok(are_worst(&market))
}

#[test]
fn energy_and_reserve_share_rooms(rt: HostRuntime) -> Result<(), Fail> {
    assert!(rt; worst_rooms(rt.alloc())?);
    Ok(())
}
