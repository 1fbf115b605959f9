//! What a MW of a unit is worth at duals, and the most that blocks make of that.

ghost use Rattle.std.specs.Prelude.{◌≡◌, ◌<◌, ◌++◌, true, length, map, IfOk, IfErr};
ghost use Rattle.fraction_theory.specs.Fraction.{◌+ℚ◌, ◌-ℚ◌, ◌*ℚ◌};
ghost use Rattle.fraction_theory.specs.Signs.{part_above};
ghost use Rattle.fraction_theory.specs.Sums.{total};
ghost use Rattle.exact_fraction.specs.declared.Op.TheVariants.{Minus};
ghost use Rattle.market_model.specs.Dispatch.{places};
ghost use Rattle.market_model.specs.Infeasibility.{block_most, nothing_terms};
ghost use Rattle.market_model.specs.NamedSums.{IsRefusal, IsShareRefusal};
ghost use Rattle.market_model.specs.Optimality.{ProperDuals, room_price, room_price_in, unit_price};
ghost use Rattle.market_model.specs.Reserves.{offers_reserve};
ghost use Rattle.market_model.specs.Stops.{StopsBy};
ghost use Rattle.market_model.specs.SumTables.{IsRefusedInPrices};
ghost use Rattle.market_model.specs.Valued.{duals_at, passed_at, room_dual_at};
ghost use Rattle.clear_loop.specs.Bounding.{IsFarkasRefusal};

use crate::answering::bus_prices;
use bus_prices::own_prices;
use exact_fraction::{Exact, Passed, Sign, exact_difference};
use market_model::{Duals, Market, RoomDual, Stop, block_quantity, by_side, datum, offers_reserve};
use std::alloc::Global;

/// The price of the room of the unit of a gen row; 0 where it is not named.
pub(crate) fn priced_room<N: Exact>(rooms: &[RoomDual<N>], row: u32) -> N
    ensures { N.value result ≡ room_price_in (map (room_dual_at N.value) rooms.now) row }
{
    for dual in rooms {
        if dual.unit == row {
            return dual.price;
        }
    }
    datum(0)
}

/// A price less that of a unit's room. The room of a unit that offers no reserve takes nothing.
pub(crate) fn less_room<N: Exact>(
    market: &Market,
    duals: &Duals<N>,
    price: N,
    unit: usize,
) -> Result<N, Passed<N>>
    requires { unit < length market.now.units }
    ensures less { IfOk result (λ less. N.value less ≡ N.value price -ℚ room_price market.now (duals_at N.value duals.now) unit) }
    ensures offers { IfErr result (λ _. offers_reserve market.now unit ≡ true) }
    ensures stops { IfErr result (λ passed. IsRefusal Minus (N.value price) (room_price market.now (duals_at N.value duals.now) unit) N.bound (passed_at N.value passed)) }
{
    if offers_reserve(market, unit) {
        let row = market.units().at(unit).row;
        exact_difference(price, priced_room(duals.rooms.slice(), row))
    } else {
        Ok(price)
    }
}

/// The own price of each unit at the bus prices of duals.
pub(crate) fn unit_prices<N: Exact>(
    alloc: Global,
    market: &Market,
    duals: &Duals<N>,
) -> Result<Vec<N>, Stop<N>>
    requires { ProperDuals market.now (duals_at N.value duals.now) }
    ensures own { IfOk result (λ own. map N.value own.items ≡ map (unit_price market.now (duals_at N.value duals.now)) (places (length market.now.units))) }
    ensures stops { IfErr result (StopsBy N.value (IsRefusedInPrices market.now (duals_at N.value duals.now) N.bound)) }
{
    let _units = market.units();
    let prices = bus_prices(alloc, market, duals)?;
    own_prices(alloc, market, duals, prices.slice())
}

/// A sum with what a quantity makes, where a MW of it makes so much; nothing where that is not above 0.
pub(crate) fn with_most<N: Exact>(sum: N, weight: N, quantity: N) -> Result<N, Passed<N>>
    ensures sum { IfOk result (λ more. N.value more ≡ N.value sum +ℚ part_above (N.value weight) *ℚ N.value quantity) }
    ensures stops { IfErr result (λ passed. IsShareRefusal (N.value sum) (part_above (N.value weight)) (N.value quantity) N.bound (passed_at N.value passed)) }
{
    match weight.sign() {
        Sign::Below | Sign::Zero => Ok(sum),
        Sign::Above => sum.plus_product(weight, quantity),
    }
}

/// A sum with the most that blocks make at the worth of their units' energy. Units have these own prices.
pub(crate) fn with_blocks<N: Exact>(
    market: &Market,
    of_rooms: N,
    duals: &Duals<N>,
    own: &[N],
) -> Result<N, Passed<N>>
    requires of_rooms { N.value of_rooms ≡ total (nothing_terms market.now (duals_at N.value duals.now)) }
    requires own { map N.value own.now ≡ map (unit_price market.now (duals_at N.value duals.now)) (places (length market.now.units)) }
    ensures sum { let d = duals_at N.value duals.now in IfOk result (λ sum. N.value sum ≡ total (nothing_terms market.now d ++ map (block_most market.now d) (places (length market.now.blocks)))) }
    ensures stops { IfErr result (λ passed. IsFarkasRefusal market.now (duals_at N.value duals.now) N.bound (passed_at N.value passed)) }
{
    let _units = market.units();
    let mut sum = of_rooms;
    for (at, block) in market.blocks().slice().iter().enumerate() {
        let worth = less_room(market, duals, own[block.unit], block.unit)?;
        sum = with_most(sum, by_side(block.side, worth), block_quantity(block))?;
    }
    Ok(sum)
}
