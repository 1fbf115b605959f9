//! The objective prices and bounds of the system of prices, in the order in which its dictionary has them.

ghost use Rattle.std.specs.Prelude.{◌≡◌, ◌<◌, ◌++◌, List, [], ◌∷◌, length, map, Contains, IfOk, IfErr};
ghost use Rattle.std.specs.List.{flat_map};
ghost use Rattle.fraction_theory.specs.Fraction.{neg_ℚ};
ghost use Rattle.limit_rows.specs.Refusals.{IsMostFlowRefusal};
ghost use Rattle.limit_screen.specs.Reaching.{are_same, is_below};
ghost use Rattle.market_model.specs.declared.participants.Parts.{Parts};
ghost use Rattle.market_model.specs.Dispatch.{Dispatch, places, zero};
ghost use Rattle.market_model.specs.LimitRows.{carried, flow};
ghost use Rattle.market_model.specs.Reserves.{offer_places};
ghost use Rattle.market_model.specs.Stops.{StopsBy};
ghost use Rattle.market_model.specs.SumTables.{IsFlowRefusal};
ghost use Rattle.market_model.specs.Valued.{passed_at};
ghost use Rattle.price_system.specs.declared.variables.Variable.{Variable};
ghost use Rattle.price_system.specs.declared.variables.Variable.TheVariants as variable;
ghost use Rattle.price_system.specs.PriceSystem.{column_price, greatest_worth, least_by as least_of, least_price, least_worth, most_by as most_of, most_price, most_reserve_price, most_worth, two_sides, worths};
ghost use Rattle.price_dict.specs.Reached.{columns_put, reached_rows};
ghost use Rattle.price_search.specs.Points.{IsPointOf, caps_at};
ghost use Rattle.price_search.specs.PriceBounds.{AreBounds, ArePriceBounds, dispatch_at};
ghost use Rattle.price_search.specs.Refusals.{IsBoundsRefusal, IsWorthRefusal};

use crate::point::{PriceCaps, PricePoint};
use exact_fraction::{Exact, Passed, exact_sum};
use limit_rows::{limit_at, most_flow, penalty_at, row_flow};
use limit_screen::carried_flows;
use market_model::{
    Market, Row, Side, Stop, block_price, block_quantity, datum, need_quantity, offer_price,
    offer_quantity, reserve_in_all,
};
use plain_list::{List, Memory};
use simplex_core::Bounds;
use std::alloc::Global;
use std::cmp::Ordering;

/// What each column of the system counts, and the bounds of its columns and then of its rows.
#[derive(Drop)]
pub(crate) struct PriceBounds<N> {
    pub(crate) prices: List<N>,
    pub(crate) bounds: List<Bounds<N>>,
}

/// Whether two numbers are the same.
pub(crate) fn is_same<N: Exact>(left: N, right: N) -> bool
    ensures { result ≡ are_same (N.value left) (N.value right) }
{
    match left.order(right) {
        Ordering::Equal => true,
        Ordering::Less | Ordering::Greater => false,
    }
}

/// Whether the first of two numbers is below the second.
fn is_less<N: Exact>(left: N, right: N) -> bool
    ensures { result ≡ is_below (N.value left) (N.value right) }
{
    match left.order(right) {
        Ordering::Less => true,
        Ordering::Equal | Ordering::Greater => false,
    }
}

/// What each column counts: 0 for energy, and 1 for every other price.
fn column_prices<N: Exact>(alloc: Global, point: PricePoint<'_, N>) -> Result<List<N>, Memory>
    ensures { IfOk result (λ prices. map N.value prices ≡ map column_price ((variable.Energy ∷ variable.Reserve ∷ []) ++ (flat_map two_sides point.entry.reached.rows.now ++ map variable.Room point.entry.reached.units.now))) }
{
    let one: N = datum(1);
    let mut prices = List::new(alloc);
    prices.push(datum(0))?;
    prices.push(one)?;
    for _row in point.reached.rows {
        prices.push(one)?;
        prices.push(one)?;
    }
    for _unit in point.reached.units {
        prices.push(one)?;
    }
    Ok(prices)
}

/// The most that the price of reserve may be: 0 where reserve is not cleared, or more is accepted than is needed.
fn most_for_reserve<N: Exact>(
    market: &Market,
    point: PricePoint<'_, N>,
    caps: PriceCaps<N>,
) -> Result<N, Passed<N>>
    requires { IsPointOf N.value market.now (dispatch_at N.value point) point }
    ensures most { IfOk result (λ most. N.value most ≡ most_reserve_price market.now (dispatch_at N.value point.entry) (caps_at N.value caps)) }
    ensures stops { IfErr result (λ passed. IsBoundsRefusal market.now (dispatch_at N.value point.entry) (caps_at N.value caps) N.bound (passed_at N.value passed)) }
{
    let reserve = market.reserve();
    if !reserve.listed {
        return Ok(datum(0));
    }
    let accepted = reserve_in_all(point.reserved)?;
    if is_same(accepted, need_quantity(reserve)) {
        Ok(caps.most)
    } else {
        Ok(datum(0))
    }
}

/// The bounds of the opposites of the prices of energy and of reserve.
fn first_bounds<N: Exact>(
    alloc: Global,
    market: &Market,
    point: PricePoint<'_, N>,
    caps: PriceCaps<N>,
) -> Result<List<Bounds<N>>, Stop<N>>
    requires { IsPointOf N.value market.now (dispatch_at N.value point) point }
    ensures bounds { IfOk result (AreBounds N.value market.now (dispatch_at N.value point.entry) (caps_at N.value caps) (variable.Energy ∷ variable.Reserve ∷ [])) }
    ensures stops { IfErr result (StopsBy N.value (IsBoundsRefusal market.now (dispatch_at N.value point.entry) (caps_at N.value caps) N.bound)) }
{
    let most = most_for_reserve(market, point, caps)?;
    let mut bounds = List::new(alloc);
    bounds.push(Bounds {
        low: caps.range.neg(),
        high: caps.range,
    })?;
    bounds.push(Bounds {
        low: most.neg(),
        high: datum(0),
    })?;
    Ok(bounds)
}

/// The flow of a row that is reached.
fn reached_flow<N: Exact>(
    market: &Market,
    point: PricePoint<'_, N>,
    row: Row,
) -> Result<N, Passed<N>>
    requires point { IsPointOf N.value market.now (dispatch_at N.value point) point }
    requires row { Contains (reached_rows market.now (dispatch_at N.value point)) row }
    ensures flow { IfOk result (λ mw. N.value mw ≡ flow market.now (dispatch_at N.value point.entry) row) }
    ensures stops { IfErr result (λ passed. IsFlowRefusal market.now (carried market.now (dispatch_at N.value point.entry)) row N.bound (passed_at N.value passed)) }
{
    let _lines = market.lines();
    row_flow(market, carried_flows(market, point.flows), row)
}

/// The least price of the side of a limit that so much flows towards: the penalty where the limit is exceeded.
fn least_of_side<N: Exact>(market: &Market, row: Row, flow: N) -> N
    requires { row.line < length market.now.lines }
    ensures { N.value result ≡ least_price market.now row (N.value flow) }
{
    if is_less(datum(limit_at(market, row)), flow) {
        datum(penalty_at(market, row))
    } else {
        datum(0)
    }
}

/// The most price of that side: 0 below the limit, the cap where the flow has just used up the excess, and else the penalty.
fn most_of_side<N: Exact>(
    market: &Market,
    caps: PriceCaps<N>,
    row: Row,
    flow: N,
) -> Result<N, Passed<N>>
    requires { row.line < length market.now.lines }
    ensures most { IfOk result (λ most. N.value most ≡ most_price market.now (caps_at N.value caps) row (N.value flow)) }
    ensures stops { IfErr result (λ passed. IsMostFlowRefusal market.now row N.bound (passed_at N.value passed)) }
{
    if is_less(flow, datum(limit_at(market, row))) {
        return Ok(datum(0));
    }
    if is_same(flow, most_flow(market, row)?) {
        Ok(caps.most)
    } else {
        Ok(datum(penalty_at(market, row)))
    }
}

/// The bounds of the opposite of the price of a side of a limit.
fn side_bounds<N: Exact>(
    market: &Market,
    caps: PriceCaps<N>,
    row: Row,
    flow: N,
) -> Result<Bounds<N>, Passed<N>>
    requires { row.line < length market.now.lines }
    ensures low { IfOk result (λ bounds. N.value bounds.low ≡ neg_ℚ (most_price market.now (caps_at N.value caps) row (N.value flow))) }
    ensures high { IfOk result (λ bounds. N.value bounds.high ≡ neg_ℚ (least_price market.now row (N.value flow))) }
    ensures stops { IfErr result (λ passed. IsMostFlowRefusal market.now row N.bound (passed_at N.value passed)) }
{
    let most = most_of_side(market, caps, row, flow)?;
    Ok(Bounds {
        low: most.neg(),
        high: least_of_side(market, row, flow).neg(),
    })
}

/// Adds the bounds of the two sides of a limit that is reached.
fn push_sides<N: Exact>(
    market: &Market,
    point: PricePoint<'_, N>,
    caps: PriceCaps<N>,
    row: Row,
    bounds: &mut List<Bounds<N>>,
) -> Result<(), Stop<N>>
    requires point { IsPointOf N.value market.now (dispatch_at N.value point) point }
    requires row { Contains (reached_rows market.now (dispatch_at N.value point)) row }
    ensures bounds { (vs : List Variable) → AreBounds N.value market.now (dispatch_at N.value point.entry) (caps_at N.value caps) vs bounds.old → IfOk result (λ _. AreBounds N.value market.now (dispatch_at N.value point.entry) (caps_at N.value caps) (vs ++ two_sides row) bounds.new) }
    ensures stops { IfErr result (StopsBy N.value (IsBoundsRefusal market.now (dispatch_at N.value point.entry) (caps_at N.value caps) N.bound)) }
{
    let _lines = market.lines();
    let flow = reached_flow(market, point, row)?;
    let up = side_bounds(market, caps, row, flow)?;
    let down = side_bounds(market, caps, row, flow.neg())?;
    bounds.push(up)?;
    bounds.push(down)?;
    Ok(())
}

/// Adds the bounds of the limits that are reached.
fn push_limit_bounds<N: Exact>(
    market: &Market,
    point: PricePoint<'_, N>,
    caps: PriceCaps<N>,
    bounds: &mut List<Bounds<N>>,
) -> Result<(), Stop<N>>
    requires { IsPointOf N.value market.now (dispatch_at N.value point) point }
    ensures bounds { (vs : List Variable) → AreBounds N.value market.now (dispatch_at N.value point.entry) (caps_at N.value caps) vs bounds.old → IfOk result (λ _. AreBounds N.value market.now (dispatch_at N.value point.entry) (caps_at N.value caps) (vs ++ flat_map two_sides point.entry.reached.rows.now) bounds.new) }
    ensures stops { IfErr result (StopsBy N.value (IsBoundsRefusal market.now (dispatch_at N.value point.entry) (caps_at N.value caps) N.bound)) }
{
    for row in point.reached.rows {
        push_sides(market, point, caps, *row, bounds)?;
    }
    Ok(())
}

/// Adds the bounds of the rooms that are used up.
fn push_room_bounds<N: Exact>(
    market: &Market,
    point: PricePoint<'_, N>,
    caps: PriceCaps<N>,
    bounds: &mut List<Bounds<N>>,
) -> Result<(), Memory>
    requires { IsPointOf N.value market.now (dispatch_at N.value point) point }
    ensures { (vs : List Variable) → AreBounds N.value market.now (dispatch_at N.value point.entry) (caps_at N.value caps) vs bounds.old → IfOk result (λ _. AreBounds N.value market.now (dispatch_at N.value point.entry) (caps_at N.value caps) (vs ++ map variable.Room point.entry.reached.units.now) bounds.new) }
{
    let used_up = Bounds {
        low: caps.most.neg(),
        high: datum(0),
    };
    for _unit in point.reached.units {
        bounds.push(used_up)?;
    }
    Ok(())
}

/// The bounds of the columns.
fn column_bounds<N: Exact>(
    alloc: Global,
    market: &Market,
    point: PricePoint<'_, N>,
    caps: PriceCaps<N>,
) -> Result<List<Bounds<N>>, Stop<N>>
    requires { IsPointOf N.value market.now (dispatch_at N.value point) point }
    ensures bounds { IfOk result (AreBounds N.value market.now (dispatch_at N.value point.entry) (caps_at N.value caps) (columns_put market.now (dispatch_at N.value point.entry))) }
    ensures stops { IfErr result (StopsBy N.value (IsBoundsRefusal market.now (dispatch_at N.value point.entry) (caps_at N.value caps) N.bound)) }
{
    let mut bounds = first_bounds(alloc, market, point, caps)?;
    push_limit_bounds(market, point, caps, &mut bounds)?;
    push_room_bounds(market, point, caps, &mut bounds)?;
    Ok(bounds)
}

/// The most that a MW of a unit may be worth, up or down.
fn worth_cap<N: Exact>(caps: PriceCaps<N>) -> Result<N, Passed<N>>
    ensures most { IfOk result (λ most. N.value most ≡ most_worth (caps_at N.value caps)) }
    ensures stops { IfErr result (λ passed. IsWorthRefusal (caps_at N.value caps) N.bound (passed_at N.value passed)) }
{
    let all = exact_sum(datum(1), caps.factor)?;
    let prices = caps.most.times(all)?;
    exact_sum(caps.range, prices)
}

/// The least that a MW may be worth at a price: that, or the opposite of the cap where it is free.
fn least_by<N: Exact>(free: bool, price: N, cap: N) -> N
    ensures { N.value result ≡ least_of free (N.value price) (N.value cap) }
{
    if free { cap.neg() } else { price }
}

/// The most: that, or the cap where it is free.
fn most_by<N: Exact>(free: bool, price: N, cap: N) -> N
    ensures { N.value result ≡ most_of free (N.value price) (N.value cap) }
{
    if free { cap } else { price }
}

/// The bounds of what a MW of a block or an offer is worth, by what is accepted of it.
fn worth_bounds<N: Exact>(side: Side, accepted: N, quantity: N, price: N, cap: N) -> Bounds<N>
    ensures low { N.value result.low ≡ least_worth side (are_same (N.value accepted) zero) (are_same (N.value accepted) (N.value quantity)) (N.value price) (N.value cap) }
    ensures high { N.value result.high ≡ greatest_worth side (are_same (N.value accepted) zero) (are_same (N.value accepted) (N.value quantity)) (N.value price) (N.value cap) }
{
    let none = is_same(accepted, datum(0));
    let all = is_same(accepted, quantity);
    match side {
        Side::Sell => Bounds {
            low: least_by(none, price, cap),
            high: most_by(all, price, cap),
        },
        Side::Buy => Bounds {
            low: least_by(all, price, cap),
            high: most_by(none, price, cap),
        },
    }
}

/// Adds the bounds of the sum of all prices but energy's.
fn push_sum_bounds<N: Exact>(caps: PriceCaps<N>, bounds: &mut List<Bounds<N>>) -> Result<(), Memory>
    ensures { (m : Parts) (x : Dispatch) (vs : List Variable) → AreBounds N.value m x (caps_at N.value caps) vs bounds.old → IfOk result (λ _. AreBounds N.value m x (caps_at N.value caps) (vs ++ variable.Sum ∷ []) bounds.new) }
{
    bounds.push(Bounds {
        low: caps.most.neg(),
        high: datum(0),
    })
}

/// Adds the bounds of what a MW of each block is worth, with the most that it may be.
fn push_block_bounds<N: Exact>(
    market: &Market,
    point: PricePoint<'_, N>,
    caps: PriceCaps<N>,
    cap: N,
    bounds: &mut List<Bounds<N>>,
) -> Result<(), Memory>
    requires point { IsPointOf N.value market.now (dispatch_at N.value point) point }
    requires cap { N.value cap ≡ most_worth (caps_at N.value caps) }
    ensures { (vs : List Variable) → AreBounds N.value market.now (dispatch_at N.value point.entry) (caps_at N.value caps) vs bounds.old → IfOk result (λ _. AreBounds N.value market.now (dispatch_at N.value point.entry) (caps_at N.value caps) (vs ++ map variable.Block (places (length market.now.blocks))) bounds.new) }
{
    for (place, block) in market.blocks().slice().iter().enumerate() {
        let accepted = point.accepted[place];
        let quantity: N = block_quantity(block);
        let price: N = block_price(block);
        bounds.push(worth_bounds(block.side, accepted, quantity, price, cap))?;
    }
    Ok(())
}

/// Adds the bounds of what a MW of the reserve of each offer is worth.
fn push_offer_bounds<N: Exact>(
    market: &Market,
    point: PricePoint<'_, N>,
    caps: PriceCaps<N>,
    bounds: &mut List<Bounds<N>>,
) -> Result<(), Memory>
    requires { IsPointOf N.value market.now (dispatch_at N.value point) point }
    ensures { (vs : List Variable) → AreBounds N.value market.now (dispatch_at N.value point.entry) (caps_at N.value caps) vs bounds.old → IfOk result (λ _. AreBounds N.value market.now (dispatch_at N.value point.entry) (caps_at N.value caps) (vs ++ map variable.Offer (offer_places market.now)) bounds.new) }
{
    let most = caps.most;
    for (place, offer) in market.reserve().offers.slice().iter().enumerate() {
        let accepted = point.reserved[place];
        let quantity: N = offer_quantity(offer);
        let price: N = offer_price(offer);
        bounds.push(worth_bounds(Side::Sell, accepted, quantity, price, most))?;
    }
    Ok(())
}

/// Adds the bounds of the rows.
fn push_worth_bounds<N: Exact>(
    market: &Market,
    point: PricePoint<'_, N>,
    caps: PriceCaps<N>,
    bounds: &mut List<Bounds<N>>,
) -> Result<(), Stop<N>>
    requires { IsPointOf N.value market.now (dispatch_at N.value point) point }
    ensures bounds { (vs : List Variable) → AreBounds N.value market.now (dispatch_at N.value point.entry) (caps_at N.value caps) vs bounds.old → IfOk result (λ _. AreBounds N.value market.now (dispatch_at N.value point.entry) (caps_at N.value caps) (vs ++ worths market.now) bounds.new) }
    ensures stops { IfErr result (StopsBy N.value (IsBoundsRefusal market.now (dispatch_at N.value point.entry) (caps_at N.value caps) N.bound)) }
{
    let cap = worth_cap(caps)?;
    push_sum_bounds(caps, bounds)?;
    push_block_bounds(market, point, caps, cap, bounds)?;
    push_offer_bounds(market, point, caps, bounds)?;
    Ok(())
}

/// What the columns of the system of prices count, and its bounds: those of the prices that may be other than 0, of their sum, and of what a MW of
/// each block and of each offer of reserve is worth.
pub(crate) fn price_bounds<N: Exact>(
    alloc: Global,
    market: &Market,
    point: PricePoint<'_, N>,
    caps: PriceCaps<N>,
) -> Result<PriceBounds<N>, Stop<N>>
    requires point { (x : Dispatch) × IsPointOf N.value market.now x point }
    ensures posing { (x : Dispatch) → IsPointOf N.value market.now x point.entry → IfOk result (ArePriceBounds N.value market.now x (caps_at N.value caps)) }
    ensures stops { (x : Dispatch) → IsPointOf N.value market.now x point.entry → IfErr result (StopsBy N.value (IsBoundsRefusal market.now x (caps_at N.value caps) N.bound)) }
{
    let prices = column_prices(alloc, point)?;
    let mut bounds = column_bounds(alloc, market, point, caps)?;
    push_worth_bounds(market, point, caps, &mut bounds)?;
    Ok(PriceBounds { prices, bounds })
}
