//! The Farkas bound: the most that any dispatch within the bounds of blocks and offers makes of the balance, of what is left of the limits, and
//! of reserve.

ghost use Rattle.std.specs.Prelude.{◌≡◌, ◌<◌, ◌+◌, ◌++◌, length, map, IfOk, IfErr};
ghost use Rattle.fraction_theory.specs.Fraction.{Fraction, ◌+ℚ◌, ◌-ℚ◌, ◌*ℚ◌};
ghost use Rattle.fraction_theory.specs.Sums.{total};
ghost use Rattle.market_model.specs.declared.answered.Duals.{Duals};
ghost use Rattle.market_model.specs.Dispatch.{Dispatch, places, balance, empty};
ghost use Rattle.market_model.specs.Infeasibility.{block_most, energy_left_terms, farkas_bound, limit_terms, nothing_terms};
ghost use Rattle.market_model.specs.LimitRows.{IsCauseOf, flow, limit};
ghost use Rattle.market_model.specs.Stops.{StopsBy};
ghost use Rattle.market_model.specs.Valued.{passed_at};
ghost use Rattle.market_model.specs.NamedSums.{IsShareRefusal, IsMarginRefusal};
ghost use Rattle.market_model.specs.PutIn.{AreCarried};
ghost use Rattle.cert_sums.specs.Named.{AreNamed, AreNamedRooms, priced_at, priced_by};
ghost use Rattle.cert_sums.specs.Pairs.{IsFarkasPair};
ghost use Rattle.cert_sums.specs.Refusals.{IsBelowRefusal, IsRowShareRefusal};
ghost use Rattle.fraction_theory.specs.Signs.{part_above};

use crate::bounding_reserve::{with_need, with_offers, with_rooms};
use crate::{NamedRoom, NamedRow, carried_flows, energy_worth, injections};
use exact_fraction::{Exact, Passed, Sign, exact_difference, exact_sum};
use limit_rows::{most_flow, row_flow};
use market_model::{Market, Stop, balance, block_quantity, by_side, datum, zeros};
use std::alloc::Global;

/// A sum with what the price of an upper limit makes of what a flow leaves of it. A price of 0 makes nothing.
fn with_above<N: Exact>(sum: N, price: N, limit: N, flow: N) -> Result<N, Passed<N>>
    ensures sum { IfOk result (λ more. N.value more ≡ N.value sum +ℚ N.value price *ℚ (N.value limit -ℚ N.value flow)) }
    ensures stops { IfErr result (λ passed. IsMarginRefusal (N.value sum) (N.value price) (N.value limit) (N.value flow) N.bound (passed_at N.value passed)) }
{
    if price.sign() == Sign::Zero {
        return Ok(sum);
    }
    let margin = exact_difference(limit, flow)?;
    sum.plus_product(price, margin)
}

/// The same for a lower limit, which is the opposite of the upper one.
fn with_below<N: Exact>(sum: N, price: N, limit: N, flow: N) -> Result<N, Passed<N>>
    ensures sum { IfOk result (λ more. N.value more ≡ N.value sum +ℚ N.value price *ℚ (N.value limit +ℚ N.value flow)) }
    ensures stops { IfErr result (λ passed. IsBelowRefusal (N.value sum) (N.value price) (N.value limit) (N.value flow) N.bound (passed_at N.value passed)) }
{
    if price.sign() == Sign::Zero {
        return Ok(sum);
    }
    let margin = exact_sum(limit, flow)?;
    sum.plus_product(price, margin)
}

/// A sum with what the prices that duals give a row make of what its flow leaves of the most that it may be on either side, where nothing is
/// accepted.
fn with_limit<N: Exact>(
    market: &Market,
    sum: N,
    carried: &[N],
    entry: &NamedRow<N>,
) -> Result<N, Passed<N>>
    requires carried { length carried.now ≡ length market.now.lines + length market.now.unit_outages }
    requires line { entry.now.row.line < length market.now.lines }
    requires lost { IsCauseOf market.now entry.now.row.cause }
    ensures sum { (d : Duals Fraction) → priced_at N.value entry.now ≡ priced_by market.now d entry.now.row → AreCarried market.now (empty market.now) (map N.value carried.now) → IfOk result (λ more. N.value more ≡ N.value sum +ℚ total (limit_terms market.now d entry.now.row)) }
    ensures stops { (x : Dispatch) → AreCarried market.now x (map N.value carried.now) → IfErr result (λ passed. IsRowShareRefusal market.now x (priced_at N.value entry.now) (N.value sum) N.bound (passed_at N.value passed)) }
{
    let flow = row_flow(market, carried, entry.row)?;
    let most = most_flow(market, entry.row)?;
    let above = with_above(sum, entry.up, most, flow)?;
    with_below(above, entry.down, most, flow)
}

/// A sum with what the prices of the rows make of what their flows leave of the most that they may be, where nothing is accepted.
fn with_limits<N: Exact>(
    market: &Market,
    of_energy: N,
    carried: &[N],
    named: &[NamedRow<N>],
) -> Result<N, Passed<N>>
    requires carried { length carried.now ≡ length market.now.lines + length market.now.unit_outages }
    requires named { (d : Duals Fraction) × AreNamed N.value market.now d named.now }
    ensures sum { (d : Duals Fraction) → AreNamed N.value market.now d named.now → AreCarried market.now (empty market.now) (map N.value carried.now) → N.value of_energy ≡ d.energy *ℚ balance market.now (empty market.now) → IfOk result (λ sum. N.value sum ≡ total (energy_left_terms market.now d)) }
    ensures stops { (d : Duals Fraction) → AreNamed N.value market.now d named.now → AreCarried market.now (empty market.now) (map N.value carried.now) → N.value of_energy ≡ d.energy *ℚ balance market.now (empty market.now) → IfErr result (λ passed. IsFarkasPair market.now d N.bound (passed_at N.value passed)) }
{
    let _lines = market.lines();
    let mut sum = of_energy;
    for entry in named {
        sum = with_limit(market, sum, carried, entry)?;
    }
    Ok(sum)
}

/// A sum with what a quantity makes, where a MW of it makes so much; nothing where that is not above 0.
pub(crate) fn with_most<N: Exact>(sum: N, weight: N, quantity: N) -> Result<N, Passed<N>>
    ensures sum { IfOk result (λ more. N.value more ≡ N.value sum +ℚ part_above (N.value weight) *ℚ N.value quantity) }
    ensures stops { IfErr result (λ passed. IsShareRefusal (N.value sum) (part_above (N.value weight)) (N.value quantity) N.bound (passed_at N.value passed)) }
{
    match weight.sign() {
        Sign::Below | Sign::Zero => Ok(sum),
        Sign::Above => sum.plus_product(weight, quantity),
    }
}

/// A sum with the most that the blocks make at the worth of their units' energy.
fn with_blocks<N: Exact>(
    market: &Market,
    of_rooms: N,
    energy: N,
    named: &[NamedRow<N>],
    rooms: &[NamedRoom<N>],
) -> Result<N, Passed<N>>
    requires named { (d : Duals Fraction) × AreNamed N.value market.now d named.now }
    ensures sum { (d : Duals Fraction) → N.value energy ≡ d.energy → AreNamed N.value market.now d named.now → AreNamedRooms N.value market.now d rooms.now → N.value of_rooms ≡ total (nothing_terms market.now d)
        → IfOk result (λ sum. N.value sum ≡ total (nothing_terms market.now d ++ map (block_most market.now d) (places (length market.now.blocks)))) }
    ensures stops { (d : Duals Fraction) → N.value energy ≡ d.energy → AreNamed N.value market.now d named.now → AreNamedRooms N.value market.now d rooms.now → N.value of_rooms ≡ total (nothing_terms market.now d)
        → IfErr result (λ passed. IsFarkasPair market.now d N.bound (passed_at N.value passed)) }
{
    let _units = market.units();
    let mut sum = of_rooms;
    for (at, block) in market.blocks().slice().iter().enumerate() {
        let worth = energy_worth(market, energy, named, rooms, block.unit)?;
        sum = with_most(sum, by_side(block.side, worth), block_quantity(block))?;
    }
    Ok(sum)
}

/// A sum with what reserve adds: the price of reserve, and those of the rooms, where nothing is accepted, and then the most that blocks and
/// offers add.
fn with_reserve<N: Exact>(
    market: &Market,
    of_limits: N,
    energy: N,
    named: &[NamedRow<N>],
    reserve: N,
    rooms: &[NamedRoom<N>],
) -> Result<N, Passed<N>>
    requires named { (d : Duals Fraction) × AreNamed N.value market.now d named.now }
    requires rooms { (d : Duals Fraction) × AreNamedRooms N.value market.now d rooms.now }
    ensures bound { (d : Duals Fraction) → N.value energy ≡ d.energy → AreNamed N.value market.now d named.now → N.value reserve ≡ d.reserve → AreNamedRooms N.value market.now d rooms.now → N.value of_limits ≡ total (energy_left_terms market.now d)
        → IfOk result (λ bound. N.value bound ≡ farkas_bound market.now d) }
    ensures stops { (d : Duals Fraction) → N.value energy ≡ d.energy → AreNamed N.value market.now d named.now → N.value reserve ≡ d.reserve → AreNamedRooms N.value market.now d rooms.now → N.value of_limits ≡ total (energy_left_terms market.now d)
        → IfErr result (λ passed. IsFarkasPair market.now d N.bound (passed_at N.value passed)) }
{
    let of_need = with_need(market, of_limits, reserve)?;
    let of_rooms = with_rooms(market, of_need, rooms)?;
    let of_blocks = with_blocks(market, of_rooms, energy, named, rooms)?;
    with_offers(market, of_blocks, reserve, rooms)
}

/// The bound of a price of energy, of named rows with their prices, of a price of reserve and of named rooms with theirs: what these make
/// where nothing is accepted, and the most that each block and each offer of reserve adds. Below 0 no dispatch is feasible, where the prices of
/// limits, of reserve and of rooms are at least 0. It is in 10^-9 MW, as such prices are plain numbers. The rows and the rooms are those that
/// some duals name, as the market has them in order.
pub fn farkas_bound<N: Exact>(
    alloc: Global,
    market: &Market,
    energy: N,
    named: &[NamedRow<N>],
    reserve: N,
    rooms: &[NamedRoom<N>],
) -> Result<N, Stop<N>>
    requires named { (d : Duals Fraction) × AreNamed N.value market.now d named.now }
    requires rooms { (d : Duals Fraction) × AreNamedRooms N.value market.now d rooms.now }
    ensures bound { (d : Duals Fraction) → N.value energy ≡ d.energy → AreNamed N.value market.now d named.now → N.value reserve ≡ d.reserve → AreNamedRooms N.value market.now d rooms.now → IfOk result (λ bound. N.value bound ≡ farkas_bound market.now d) }
    ensures stops { (d : Duals Fraction) → N.value energy ≡ d.energy → AreNamed N.value market.now d named.now → N.value reserve ≡ d.reserve → AreNamedRooms N.value market.now d rooms.now → IfErr result (StopsBy N.value (IsFarkasPair market.now d N.bound)) }
{
    let nothing = zeros(alloc, market.blocks().len())?;
    let by_bus = injections(alloc, market, &nothing)?;
    let carried = carried_flows(alloc, market, &nothing, &by_bus)?;
    let all = balance(market, &by_bus)?;
    let of_energy = energy.times(all)?;
    let of_limits = with_limits(market, of_energy, &carried, named)?;
    Ok(with_reserve(market, of_limits, energy, named, reserve, rooms)?)
}
