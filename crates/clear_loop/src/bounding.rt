//! The bound of duals that show that no dispatch is feasible: the most that any dispatch within the bounds of blocks and offers makes of the
//! balance, of what is left of the limits, and of reserve.

ghost use Rattle.std.specs.Prelude.{◌≡◌, length, map, Contains, IfOk, IfErr};
ghost use Rattle.fraction_theory.specs.Fraction.{Fraction, ◌+ℚ◌, ◌-ℚ◌, ◌*ℚ◌};
ghost use Rattle.fraction_theory.specs.Sums.{total};
ghost use Rattle.market_model.specs.declared.answered.Duals.{Duals as DualsOf};
ghost use Rattle.market_model.specs.Dispatch.{balance, empty, places};
ghost use Rattle.market_model.specs.Infeasibility.{energy_left_terms, farkas_bound, limit_terms};
ghost use Rattle.market_model.specs.LimitRows.{rows};
ghost use Rattle.market_model.specs.Optimality.{ProperDuals, down_of, unit_price, up_of};
ghost use Rattle.market_model.specs.Stops.{StopsBy};
ghost use Rattle.market_model.specs.Valued.{duals_at, passed_at};
ghost use Rattle.market_model.specs.NamedSums.{IsMarginRefusal};
ghost use Rattle.limit_screen.specs.Flows.{flows_at};
ghost use Rattle.clear_loop.specs.Bounding.{IsFarkasRefusal, IsRowStepRefusal};

use crate::bounding_reserve::{with_need, with_offers, with_rooms};
use crate::worths::{unit_prices, with_blocks};
use exact_fraction::{Exact, Passed, Sign, exact_difference};
use limit_rows::{found_row, most_flow, row_flow};
use limit_screen::{bus_injections, carried_flows};
use market_model::{Dual, Duals, Market, Row, Stop, balance};
use std::alloc::Global;

/// A sum with what a price makes of what a flow leaves of the most that it may be. A price of 0 makes nothing.
fn with_side<N: Exact>(sum: N, price: N, most: N, flow: N) -> Result<N, Passed<N>>
    ensures sum { IfOk result (λ more. N.value more ≡ N.value sum +ℚ N.value price *ℚ (N.value most -ℚ N.value flow)) }
    ensures stops { IfErr result (λ passed. IsMarginRefusal (N.value sum) (N.value price) (N.value most) (N.value flow) N.bound (passed_at N.value passed)) }
{
    if price.sign() == Sign::Zero {
        return Ok(sum);
    }
    let left = exact_difference(most, flow)?;
    sum.plus_product(price, left)
}

/// A sum with what the prices of a row make of what its flow leaves of the most that it may be on either side, where nothing is accepted.
fn with_limit<N: Exact>(
    market: &Market,
    sum: N,
    flows: &[N],
    row: Row,
    dual: &Dual<N>,
) -> Result<N, Passed<N>>
    requires row { Contains (rows market.now) row }
    requires flows { map N.value flows.now ≡ flows_at market.now (empty market.now) }
    ensures sum { (d : DualsOf Fraction) → up_of market.now d row ≡ N.value dual.now.up → down_of market.now d row ≡ N.value dual.now.down → IfOk result (λ more. N.value more ≡ N.value sum +ℚ total (limit_terms market.now d row)) }
    ensures stops { IfErr result (λ passed. IsRowStepRefusal market.now row (N.value dual.now.up) (N.value dual.now.down) (N.value sum) N.bound (passed_at N.value passed)) }
{
    let _lines = market.lines();
    let flow = row_flow(market, carried_flows(market, flows), row)?;
    let most = most_flow(market, row)?;
    let above = with_side(sum, dual.up, most, flow)?;
    with_side(above, dual.down, most, flow.neg())
}

/// A sum with what the prices of limits make of what flows leave of the most that they may be, where nothing is accepted.
fn with_limits<N: Exact>(
    market: &Market,
    of_energy: N,
    flows: &[N],
    duals: &Duals<N>,
) -> Result<N, Passed<N>>
    requires duals { ProperDuals market.now (duals_at N.value duals.now) }
    requires flows { map N.value flows.now ≡ flows_at market.now (empty market.now) }
    requires of_energy { N.value of_energy ≡ N.value duals.now.energy *ℚ balance market.now (empty market.now) }
    ensures sum { IfOk result (λ sum. N.value sum ≡ total (energy_left_terms market.now (duals_at N.value duals.now))) }
    ensures stops { IfErr result (λ passed. IsFarkasRefusal market.now (duals_at N.value duals.now) N.bound (passed_at N.value passed)) }
{
    let _lines = market.lines();
    let mut sum = of_energy;
    for dual in duals.limits.slice() {
        let row = found_row(market, dual.row);
        sum = with_limit(market, sum, flows, row, dual)?;
    }
    Ok(sum)
}

/// What the price of energy makes of the balance, and the prices of limits of what is left of these, where nothing is accepted.
fn left_of_energy<N: Exact>(market: &Market, flows: &[N], duals: &Duals<N>) -> Result<N, Passed<N>>
    requires duals { ProperDuals market.now (duals_at N.value duals.now) }
    requires flows { map N.value flows.now ≡ flows_at market.now (empty market.now) }
    ensures sum { IfOk result (λ sum. N.value sum ≡ total (energy_left_terms market.now (duals_at N.value duals.now))) }
    ensures stops { IfErr result (λ passed. IsFarkasRefusal market.now (duals_at N.value duals.now) N.bound (passed_at N.value passed)) }
{
    let all = balance(market, bus_injections(market, flows))?;
    let of_energy = duals.energy.times(all)?;
    with_limits(market, of_energy, flows, duals)
}

/// A sum of energy with what reserve adds: the need and rooms at their prices, where nothing is accepted, and then the most that blocks and
/// offers add. Units have these own prices.
fn with_reserve<N: Exact>(
    market: &Market,
    of_energy: N,
    duals: &Duals<N>,
    own: &[N],
) -> Result<N, Passed<N>>
    requires of_energy { N.value of_energy ≡ total (energy_left_terms market.now (duals_at N.value duals.now)) }
    requires own { map N.value own.now ≡ map (unit_price market.now (duals_at N.value duals.now)) (places (length market.now.units)) }
    ensures bound { IfOk result (λ bound. N.value bound ≡ farkas_bound market.now (duals_at N.value duals.now)) }
    ensures stops { IfErr result (λ passed. IsFarkasRefusal market.now (duals_at N.value duals.now) N.bound (passed_at N.value passed)) }
{
    let of_need = with_need(market, of_energy, duals)?;
    let of_rooms = with_rooms(market, of_need, duals)?;
    let of_blocks = with_blocks(market, of_rooms, duals, own)?;
    with_offers(market, of_blocks, duals)
}

/// The bound that duals give: the most that any dispatch within the bounds of blocks and offers makes of them, in 10^-9 MW. The flows are
/// those where nothing is accepted.
pub(crate) fn farkas_bound<N: Exact>(
    alloc: Global,
    market: &Market,
    flows: &[N],
    duals: &Duals<N>,
) -> Result<N, Stop<N>>
    requires duals { ProperDuals market.now (duals_at N.value duals.now) }
    requires flows { map N.value flows.now ≡ flows_at market.now (empty market.now) }
    ensures bound { IfOk result (λ bound. N.value bound ≡ farkas_bound market.now (duals_at N.value duals.now)) }
    ensures stops { IfErr result (StopsBy N.value (IsFarkasRefusal market.now (duals_at N.value duals.now) N.bound)) }
{
    let own = unit_prices(alloc, market, duals)?;
    let of_energy = left_of_energy(market, flows, duals)?;
    Ok(with_reserve(market, of_energy, duals, &own)?)
}
