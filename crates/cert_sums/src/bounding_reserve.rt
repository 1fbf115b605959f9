//! What reserve adds to the Farkas bound: its need and the rooms, and the most that each offer adds.

ghost use Rattle.std.specs.Prelude.{◌≡◌, ◌++◌, length, map, IfOk, IfErr};
ghost use Rattle.fraction_theory.specs.Fraction.{Fraction};
ghost use Rattle.fraction_theory.specs.Sums.{total};
ghost use Rattle.market_model.specs.declared.answered.Duals.{Duals};
ghost use Rattle.market_model.specs.Dispatch.{places};
ghost use Rattle.market_model.specs.Infeasibility.{block_most, energy_left_terms, farkas_bound, farkas_terms, need_terms, nothing_terms};
ghost use Rattle.market_model.specs.NamedSums.{IsRefusedIn};
ghost use Rattle.market_model.specs.Valued.{passed_at};
ghost use Rattle.cert_sums.specs.Named.{AreNamedRooms};
ghost use Rattle.cert_sums.specs.Pairs.{IsFarkasPair};

use crate::bounding::with_most;
use crate::{NamedRoom, reserve_worth};
use exact_fraction::{Exact, Passed};
use market_model::{Market, need_quantity, offer_quantity, room_quantity};

/// A sum with what the price of reserve makes of the need, which counts down. There is none in a market of energy alone.
pub(crate) fn with_need<N: Exact>(market: &Market, of_limits: N, reserve: N) -> Result<N, Passed<N>>
    ensures sum { (d : Duals Fraction) → N.value reserve ≡ d.reserve → N.value of_limits ≡ total (energy_left_terms market.now d) → IfOk result (λ sum. N.value sum ≡ total (energy_left_terms market.now d ++ need_terms market.now d)) }
    ensures stops { (d : Duals Fraction) → N.value reserve ≡ d.reserve → N.value of_limits ≡ total (energy_left_terms market.now d) → IfErr result (λ passed. IsRefusedIn (farkas_terms market.now d) N.bound (passed_at N.value passed)) }
{
    if market.reserve().listed {
        let need: N = need_quantity(market.reserve());
        of_limits.plus_product(reserve, need.neg())
    } else {
        Ok(of_limits)
    }
}

/// A sum with what the prices of rooms make of these.
pub(crate) fn with_rooms<N: Exact>(
    market: &Market,
    of_need: N,
    rooms: &[NamedRoom<N>],
) -> Result<N, Passed<N>>
    requires { (d : Duals Fraction) × AreNamedRooms N.value market.now d rooms.now }
    ensures sum { (d : Duals Fraction) → AreNamedRooms N.value market.now d rooms.now → N.value of_need ≡ total (energy_left_terms market.now d ++ need_terms market.now d) → IfOk result (λ sum. N.value sum ≡ total (nothing_terms market.now d)) }
    ensures stops { (d : Duals Fraction) → AreNamedRooms N.value market.now d rooms.now → N.value of_need ≡ total (energy_left_terms market.now d ++ need_terms market.now d) → IfErr result (λ passed. IsRefusedIn (farkas_terms market.now d) N.bound (passed_at N.value passed)) }
{
    let mut sum = of_need;
    for entry in rooms {
        sum = sum.plus_product(entry.price, room_quantity(market, entry.unit))?;
    }
    Ok(sum)
}

/// A sum with the most that the offers of reserve make at the worth of their units' reserve.
pub(crate) fn with_offers<N: Exact>(
    market: &Market,
    of_blocks: N,
    reserve: N,
    rooms: &[NamedRoom<N>],
) -> Result<N, Passed<N>>
    ensures bound { (d : Duals Fraction) → N.value reserve ≡ d.reserve → AreNamedRooms N.value market.now d rooms.now → N.value of_blocks ≡ total (nothing_terms market.now d ++ map (block_most market.now d) (places (length market.now.blocks)))
        → IfOk result (λ bound. N.value bound ≡ farkas_bound market.now d) }
    ensures stops { (d : Duals Fraction) → N.value reserve ≡ d.reserve → AreNamedRooms N.value market.now d rooms.now → N.value of_blocks ≡ total (nothing_terms market.now d ++ map (block_most market.now d) (places (length market.now.blocks)))
        → IfErr result (λ passed. IsFarkasPair market.now d N.bound (passed_at N.value passed)) }
{
    let _units = market.units();
    let mut sum = of_blocks;
    for offer in market.reserve().offers.slice() {
        let worth = reserve_worth(reserve, rooms, offer.unit)?;
        sum = with_most(sum, worth, offer_quantity(offer))?;
    }
    Ok(sum)
}
