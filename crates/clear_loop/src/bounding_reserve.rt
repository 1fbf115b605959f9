//! What reserve adds to the bound of duals: its need and the rooms, and the most that each offer adds.

ghost use Rattle.std.specs.Prelude.{◌≡◌, ◌<◌, ◌++◌, true, length, map, IfOk, IfErr, if◌then◌else◌};
ghost use Rattle.fraction_theory.specs.Fraction.{◌+ℚ◌, ◌*ℚ◌};
ghost use Rattle.fraction_theory.specs.Sums.{total};
ghost use Rattle.market_model.specs.Dispatch.{places, zero};
ghost use Rattle.market_model.specs.Infeasibility.{block_most, energy_left_terms, farkas_bound, need_terms, nothing_terms};
ghost use Rattle.market_model.specs.NamedSums.{IsShareRefusal};
ghost use Rattle.market_model.specs.Optimality.{room_price};
ghost use Rattle.market_model.specs.Reserves.{offers_reserve, room};
ghost use Rattle.market_model.specs.Valued.{duals_at, passed_at};
ghost use Rattle.clear_loop.specs.Bounding.{IsFarkasRefusal};

use crate::worths::{less_room, priced_room, with_most};
use exact_fraction::{Exact, Passed};
use market_model::{Duals, Market, need_quantity, offer_quantity, offers_reserve, room_quantity};

/// A sum with what the price of reserve makes of the need, which counts down. There is none in a market of energy alone.
pub(crate) fn with_need<N: Exact>(
    market: &Market,
    of_energy: N,
    duals: &Duals<N>,
) -> Result<N, Passed<N>>
    requires { N.value of_energy ≡ total (energy_left_terms market.now (duals_at N.value duals.now)) }
    ensures sum { let d = duals_at N.value duals.now in IfOk result (λ sum. N.value sum ≡ total (energy_left_terms market.now d ++ need_terms market.now d)) }
    ensures stops { IfErr result (λ passed. IsFarkasRefusal market.now (duals_at N.value duals.now) N.bound (passed_at N.value passed)) }
{
    if market.reserve().listed {
        let need: N = need_quantity(market.reserve());
        of_energy.plus_product(duals.reserve, need.neg())
    } else {
        Ok(of_energy)
    }
}

/// A sum with what the price of a unit's room makes of it, where the unit offers reserve.
fn with_room<N: Exact>(
    market: &Market,
    sum: N,
    duals: &Duals<N>,
    unit: usize,
) -> Result<N, Passed<N>>
    requires { unit < length market.now.units }
    ensures sum { let d = duals_at N.value duals.now in IfOk result (λ more. N.value more ≡ N.value sum +ℚ (if offers_reserve market.now unit then room_price market.now d unit *ℚ room market.now unit else zero)) }
    ensures offers { IfErr result (λ _. offers_reserve market.now unit ≡ true) }
    ensures stops { IfErr result (λ passed. IsShareRefusal (N.value sum) (room_price market.now (duals_at N.value duals.now) unit) (room market.now unit) N.bound (passed_at N.value passed)) }
{
    if offers_reserve(market, unit) {
        let row = market.units().at(unit).row;
        sum.plus_product(
            priced_room(duals.rooms.slice(), row),
            room_quantity(market, unit),
        )
    } else {
        Ok(sum)
    }
}

/// A sum with what the prices of rooms make of these.
pub(crate) fn with_rooms<N: Exact>(
    market: &Market,
    of_need: N,
    duals: &Duals<N>,
) -> Result<N, Passed<N>>
    requires { N.value of_need ≡ total (energy_left_terms market.now (duals_at N.value duals.now) ++ need_terms market.now (duals_at N.value duals.now)) }
    ensures sum { IfOk result (λ sum. N.value sum ≡ total (nothing_terms market.now (duals_at N.value duals.now))) }
    ensures stops { IfErr result (λ passed. IsFarkasRefusal market.now (duals_at N.value duals.now) N.bound (passed_at N.value passed)) }
{
    let mut sum = of_need;
    for unit in 0..market.units().len() {
        sum = with_room(market, sum, duals, unit)?;
    }
    Ok(sum)
}

/// A sum with the most that offers of reserve make at the worth of their units' reserve.
pub(crate) fn with_offers<N: Exact>(
    market: &Market,
    of_blocks: N,
    duals: &Duals<N>,
) -> Result<N, Passed<N>>
    requires { N.value of_blocks ≡ total (nothing_terms market.now (duals_at N.value duals.now) ++ map (block_most market.now (duals_at N.value duals.now)) (places (length market.now.blocks))) }
    ensures bound { IfOk result (λ bound. N.value bound ≡ farkas_bound market.now (duals_at N.value duals.now)) }
    ensures stops { IfErr result (λ passed. IsFarkasRefusal market.now (duals_at N.value duals.now) N.bound (passed_at N.value passed)) }
{
    let _units = market.units();
    let mut sum = of_blocks;
    for offer in market.reserve().offers.slice() {
        let worth = less_room(market, duals, duals.reserve, offer.unit)?;
        sum = with_most(sum, worth, offer_quantity(offer))?;
    }
    Ok(sum)
}
