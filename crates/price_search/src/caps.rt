//! The caps of the prices that support a dispatch, by duals that support it.

ghost use Rattle.std.specs.Prelude.{◌≡◌, ◌++◌, Contains, IfErr, IfOk, List, length, map};
ghost use Rattle.fraction_theory.specs.Fraction.{Fraction};
ghost use Rattle.fraction_theory.specs.Order.{◌≤ℚ◌};
ghost use Rattle.fraction_theory.specs.Sums.{Term, total};
ghost use Rattle.first_prices.specs.FirstCaps.{AreCapsBy};
ghost use Rattle.market_model.specs.declared.limits.Row.{Row};
ghost use Rattle.market_model.specs.Dispatch.{Dispatch};
ghost use Rattle.market_model.specs.LimitRows.{rows};
ghost use Rattle.market_model.specs.NamedSums.{IsRefusedIn};
ghost use Rattle.market_model.specs.Optimality.{ProperDuals};
ghost use Rattle.market_model.specs.SumTables.{FactorSum, IsRefusedAmong};
ghost use Rattle.market_model.specs.Valued.{dual_at, duals_at, passed_at, room_dual_at};
ghost use Rattle.price_dict.specs.Reached.{AreReached};
ghost use Rattle.price_search.specs.Caps.{ArePriceCaps, IsCapsRefusal, IsGreater, IsGreatestFactor, IsGreatestWith, IsRoundedUp, limit_price_terms, named_price_terms, room_price_terms};
ghost use Rattle.price_search.specs.Points.{caps_at};

use crate::point::PriceCaps;
use exact_fraction::{Exact, Passed, exact_sum, size};
use limit_rows::unit_factor;
use market_model::{Dual, Duals, Market, RoomDual, Row, datum};
use price_dict::Reached;
use std::cmp::Ordering;

/// What the prices of these limits add up to.
fn sum_of_limits<N: Exact>(limits: &[Dual<N>]) -> Result<N, Passed<N>>
    ensures sum { IfOk result (λ sum. N.value sum ≡ total (limit_price_terms (map (dual_at N.value) limits.now))) }
    ensures stops { (rest : List Term) → IfErr result (λ passed. IsRefusedIn (limit_price_terms (map (dual_at N.value) limits.now) ++ rest) N.bound (passed_at N.value passed)) }
{
    let mut sum = datum(0);
    for dual in limits {
        let with_up = exact_sum(sum, dual.up)?;
        sum = exact_sum(with_up, dual.down)?;
    }
    Ok(sum)
}

/// What the prices of limits and of these rooms add up to, where those of limits add up to so much.
fn with_rooms<N: Exact>(of_limits: N, rooms: &[RoomDual<N>]) -> Result<N, Passed<N>>
    ensures sum { (front : List Term) → N.value of_limits ≡ total front → IfOk result (λ sum. N.value sum ≡ total (front ++ room_price_terms (map (room_dual_at N.value) rooms.now))) }
    ensures stops { (front rest : List Term) → N.value of_limits ≡ total front
        → IfErr result (λ passed. IsRefusedIn ((front ++ room_price_terms (map (room_dual_at N.value) rooms.now)) ++ rest) N.bound (passed_at N.value passed)) }
{
    let mut sum = of_limits;
    for room in rooms {
        sum = exact_sum(sum, room.price)?;
    }
    Ok(sum)
}

/// What all prices of duals but that of energy add up to.
fn sum_of_prices<N: Exact>(duals: &Duals<N>) -> Result<N, Passed<N>>
    ensures sum { IfOk result (λ sum. N.value sum ≡ total (named_price_terms (duals_at N.value duals.now))) }
    ensures stops { IfErr result (λ passed. IsRefusedIn (named_price_terms (duals_at N.value duals.now)) N.bound (passed_at N.value passed)) }
{
    let of_limits = sum_of_limits(duals.limits.slice())?;
    let of_both = with_rooms(of_limits, duals.rooms.slice())?;
    exact_sum(of_both, duals.reserve)
}

/// The next whole number above a number, which has few digits, where `floor` gives one and 64 bits hold the next; else the number.
fn rounded_up<N: Exact>(number: N) -> N
    ensures least { N.value number ≤ℚ N.value result }
    ensures rounded { IsRoundedUp (N.value number) (N.value result) }
{
    match number.floor() {
        Some(floor) => {
            if floor < i64::MAX {
                datum(floor + 1)
            } else {
                number
            }
        }
        None => number,
    }
}

/// The greater of two numbers.
fn greater<N: Exact>(left: N, right: N) -> N
    ensures { IsGreater (N.value left) (N.value right) (N.value result) }
{
    match left.order(right) {
        Ordering::Less => right,
        Ordering::Equal | Ordering::Greater => left,
    }
}

/// The greatest of a number and the sizes of the factors of blocks' units for a row.
fn greatest_with<N: Exact>(market: &Market, row: Row, number: N) -> Result<N, Passed<N>>
    requires { Contains (rows market.now) row }
    ensures greatest { IfOk result (λ greatest. IsGreatestWith market.now row (length market.now.blocks) (N.value number) (N.value greatest)) }
    ensures stops { IfErr result (λ passed. IsRefusedAmong (FactorSum market.now row) N.bound (passed_at N.value passed)) }
{
    let _lines = market.lines();
    let mut greatest = number;
    for place in 0..market.blocks().len() {
        let factor: N = unit_factor(market, row, market.blocks().at(place).unit)?;
        greatest = greater(greatest, size(factor));
    }
    Ok(greatest)
}

/// The greatest size of a factor of a block's unit for these rows, and 0 where there is none.
fn greatest_factor<N: Exact>(market: &Market, reached: &[Row]) -> Result<N, Passed<N>>
    requires { (r : Row) → Contains reached.now r → Contains (rows market.now) r }
    ensures greatest { IfOk result (λ greatest. IsGreatestFactor market.now reached.now (N.value greatest)) }
    ensures stops { IfErr result (λ passed. (r : Row) × Contains reached.now r × IsRefusedAmong (FactorSum market.now r) N.bound (passed_at N.value passed)) }
{
    let mut greatest = datum(0);
    for row in reached {
        greatest = greatest_with(market, *row, greatest)?;
    }
    Ok(greatest)
}

/// The caps of the prices that support a dispatch, by duals that support it, where this is reached: the sum of their prices, the greatest size of a
/// factor of a block's unit for a limit that is reached, and beyond their price of energy twice what prices of that sum make of a MW. The sum, the
/// size of a factor and that of the price of energy are rounded up to whole numbers where `floor` gives one, so that what is reckoned with them has
/// fewer digits.
pub(crate) fn price_caps<N: Exact>(
    market: &Market,
    reached: Reached<'_>,
    duals: &Duals<N>,
) -> Result<PriceCaps<N>, Passed<N>>
    requires { (x : Dispatch) × AreReached market.now x reached }
    ensures caps { (x : Dispatch) → AreReached market.now x reached.entry → ProperDuals market.now (duals_at N.value duals.now) → IfOk result (λ caps. AreCapsBy market.now x (duals_at N.value duals.now) (caps_at N.value caps)) }
    ensures told { (x : Dispatch) → AreReached market.now x reached.entry → IfOk result (λ caps. ArePriceCaps market.now x (duals_at N.value duals.now) (caps_at N.value caps)) }
    ensures stops { (x : Dispatch) → AreReached market.now x reached.entry → IfErr result (λ passed. IsCapsRefusal market.now x (duals_at N.value duals.now) N.bound (passed_at N.value passed)) }
{
    let _lines = market.lines();
    let most = rounded_up(sum_of_prices(duals)?);
    let greatest = greatest_factor(market, reached.rows)?;
    let factor = rounded_up(greatest);
    let all = exact_sum(datum(1), factor)?;
    let share = most.times(all)?;
    let shares = exact_sum(share, share)?;
    let energy = rounded_up(size(duals.energy));
    let range = exact_sum(energy, shares)?;
    Ok(PriceCaps {
        most,
        factor,
        range,
    })
}
