//! The market with reserve, settled by hand.

ghost use Rattle.std.specs.Prelude.{◌≡◌, length, true};

use crate::markets::needing;
use exact_fraction::{Exact, Frac};
use market_model::{Duals, List, Market, Money, Price, Stop, datum};
use settlement::settle;
use std::alloc::Global;
use std::test::Fail;

/// So many MW of each of two.
fn of_two(first: i32, second: i32) -> [Frac; 2] {
    [
        Frac::of_parts(i64::from(first), 1),
        Frac::of_parts(i64::from(second), 1),
    ]
}

/// A price of 13 with no congestion.
fn uncongested() -> Price<Frac> {
    Price {
        energy: datum(13),
        congestion: datum(0),
        total: datum(13),
    }
}

/// The settlement where the first unit sells all that is taken, at 13, and reserve of 40 and 20 MW has the price 5.
fn settled(alloc: Global, market: &Market) -> Result<Money<Frac>, Stop<Frac>>
    requires blocks { length market.now.blocks ≡ 2 }
    requires offers { length market.now.reserve.offers ≡ 2 }
    requires listed { market.now.reserve.listed ≡ true }
    requires buses { length market.now.buses ≡ 1 }
{
    let prices = [uncongested()];
    let dispatch = of_two(60, 0);
    let reserve = of_two(40, 20);
    let duals = Duals {
        energy: datum(13),
        limits: List::new(alloc),
        reserve: datum(5),
        rooms: List::new(alloc),
    };
    settle(alloc, market, &dispatch, &reserve, &prices, &duals)
}

/// Whether the two offers of reserve are paid 200 and 100, and nothing is left.
fn is_all_paid(money: &Money<Frac>) -> bool {
    match money.reserve.slice() {
        [first, second] => {
            first.paid == datum(200) && second.paid == datum(100) && money.surplus == datum(0)
        }
        _ => false,
    }
}

/// Whether the settlement of the market comes to that.
fn pays_reserve(alloc: Global) -> Result<bool, Stop<Frac>> {
    let market = needing(alloc, 60)?;
    match settled(alloc, &market) {
        Ok(money) => Ok(is_all_paid(&money)),
        Err(stop) => Err(stop),
    }
}

#[test]
fn offers_of_reserve_are_paid(rt: HostRuntime) -> Result<(), Fail> {
    assert!(rt; pays_reserve(rt.alloc())?);
    Ok(())
}
