//! The prices and bounds of a market's blocks and offers of reserve, of its balance and its need, and of the limits and rooms taken, in the
//! order in which its dictionary has them.

ghost use Rattle.std.specs.Prelude.{◌≡◌, List, [], ◌∷◌, ◌++◌, map, All, Contains, IfOk, IfErr};
ghost use Rattle.market_model.specs.Dispatch.{empty, balance_terms};
ghost use Rattle.market_model.specs.declared.limits.Row.{Row};
ghost use Rattle.market_model.specs.LimitRows.{rows};
ghost use Rattle.market_model.specs.NamedSums.{IsRefusedIn};
ghost use Rattle.market_model.specs.Stops.{StopsBy};
ghost use Rattle.market_model.specs.Valued.{passed_at};
ghost use Rattle.market_system.specs.MarketSystem.{residual_demand as residual_demand_of, least_added, most_added, objective_price, low, high, block_columns, excess_columns};
ghost use Rattle.limit_screen.specs.Flows.{flows_at, IsFlowsRefusal};
ghost use Rattle.market_dict.specs.Holding.{column_prices};
ghost use Rattle.market_dict.specs.PricesAndBounds.{AreBounds, ArePricesAndBounds};
ghost use Rattle.market_dict.specs.Refusals.{IsBoundsRefusal};
ghost use Rattle.market_dict.specs.Takings.{IsTaking, columns_put, first_rows, limits_of};
ghost use Rattle.market_dict.specs.declared.taking.Taking.{Taking};
ghost use Rattle.market_dict.specs.declared.taking.Taking.TheVariants as taking;

use crate::Taking;
use crate::offering::{need_bounds, push_offer_bounds, push_offer_prices, room_bounds};
use exact_fraction::{Exact, Passed, exact_difference};
use limit_rows::{is_soft, limit_at, most_excess_at, penalty_at, row_flow};
use limit_screen::{bus_injections, carried_flows, flows_made};
use market_model::{Market, Row, Stop, balance, block_quantity, block_value, datum, zeros};
use plain_list::{List, Memory};
use simplex_core::Bounds;
use std::alloc::Global;

/// Prices and bounds as the market has them now.
#[derive(Drop)]
pub struct PricesAndBounds<N> {
    /// In 10^-6 per MWh: of the blocks, the price of a buy, and the opposite of that of a sell; of the offers of reserve, the opposite of
    /// the price; then, for each soft limit in the order taken, the opposite of its penalty, for each of its two columns.
    pub prices: List<N>,
    /// Of the same, in 10^-9 MW: what a block or an offer may have accepted, and by how much a limit may be exceeded on either side.
    pub column_bounds: List<Bounds<N>>,
    /// In 10^-9 MW: by how much blocks may raise the balance, and, where reserve is cleared, how much of it is to be accepted; then, in
    /// the order taken, by how much blocks may raise a limit, and what a unit may use of its room.
    pub row_bounds: List<Bounds<N>>,
    /// Where nothing is accepted, what each bus puts in, then what each line carries and then what the unit of each outage of a unit puts
    /// out, in 10^-9 MW.
    pub base_flows: Vec<N>,
}

impl<N: Exact> PricesAndBounds<N> {
    /// The bounds of the columns and then of the rows.
    pub fn bounds(&self, alloc: Global) -> Result<List<Bounds<N>>, Memory>
        ensures { IfOk result (λ bounds. bounds ≡ self.now.column_bounds ++ self.now.row_bounds) }
    {
        let mut bounds = List::new(alloc);
        for column in self.column_bounds.slice() {
            bounds.push(*column)?;
        }
        for row in self.row_bounds.slice() {
            bounds.push(*row)?;
        }
        Ok(bounds)
    }
}

/// What a MW of each block is worth.
fn block_prices<N: Exact>(alloc: Global, market: &Market) -> Result<List<N>, Memory>
    ensures { IfOk result (λ prices. map N.value prices ≡ map (objective_price market.now) (block_columns market.now)) }
{
    let mut prices = List::new(alloc);
    for block in market.blocks().slice() {
        prices.push(block_value(block))?;
    }
    Ok(prices)
}

/// What a MW of each block and of each offer of reserve is worth.
fn first_prices<N: Exact>(alloc: Global, market: &Market) -> Result<List<N>, Memory>
    ensures { IfOk result (λ prices. map N.value prices ≡ column_prices market.now []) }
{
    let mut prices = block_prices(alloc, market)?;
    push_offer_prices(market, &mut prices)?;
    Ok(prices)
}

/// Where nothing is accepted, what each bus puts in, what each line carries and what lost units put out.
fn base_flows_of<N: Exact>(alloc: Global, market: &Market) -> Result<Vec<N>, Stop<N>>
    ensures flows { IfOk result (λ base_flows. map N.value base_flows.items ≡ flows_at market.now (empty market.now)) }
    ensures stops { IfErr result (StopsBy N.value (IsFlowsRefusal market.now (empty market.now) N.bound)) }
{
    let nothing = zeros(alloc, market.blocks().len())?;
    flows_made(alloc, market, &nothing)
}

/// What the blocks have to raise the balance by: the opposite of what all buses put in where nothing is accepted.
fn residual_demand<N: Exact>(market: &Market, base_flows: &[N]) -> Result<N, Passed<N>>
    requires { map N.value base_flows.now ≡ flows_at market.now (empty market.now) }
    ensures residual_demand { IfOk result (λ mw. N.value mw ≡ residual_demand_of market.now) }
    ensures stops { IfErr result (λ passed. IsRefusedIn (balance_terms market.now (empty market.now)) N.bound (passed_at N.value passed)) }
{
    let balance = balance(market, bus_injections(market, base_flows))?;
    Ok(balance.neg())
}

/// What each block may have accepted.
fn block_bounds<N: Exact>(alloc: Global, market: &Market) -> Result<List<Bounds<N>>, Memory>
    ensures lows { IfOk result (λ bounds. map (λ (b : Bounds N). N.value b.low) bounds ≡ map (low market.now) (block_columns market.now)) }
    ensures highs { IfOk result (λ bounds. map (λ (b : Bounds N). N.value b.high) bounds ≡ map (high market.now) (block_columns market.now)) }
{
    let low: N = datum(0);
    let mut bounds = List::new(alloc);
    for block in market.blocks().slice() {
        let high = block_quantity(block);
        bounds.push(Bounds { low, high })?;
    }
    Ok(bounds)
}

/// What each block and each offer of reserve may have accepted.
fn first_column_bounds<N: Exact>(alloc: Global, market: &Market) -> Result<List<Bounds<N>>, Memory>
    ensures { IfOk result (AreBounds N.value market.now (columns_put market.now [])) }
{
    let mut bounds = block_bounds(alloc, market)?;
    push_offer_bounds(market, &mut bounds)?;
    Ok(bounds)
}

/// The bounds of the balance, and of the need where reserve is cleared.
fn first_row_bounds<N: Exact>(
    alloc: Global,
    market: &Market,
    base_flows: &[N],
) -> Result<List<Bounds<N>>, Stop<N>>
    requires { map N.value base_flows.now ≡ flows_at market.now (empty market.now) }
    ensures bounds { IfOk result (AreBounds N.value market.now (first_rows market.now)) }
    ensures stops { IfErr result (StopsBy N.value (IsBoundsRefusal market.now [] N.bound)) }
{
    let residual_demand = residual_demand(market, base_flows)?;
    let mut bounds = List::new(alloc);
    bounds.push(Bounds {
        low: residual_demand,
        high: residual_demand,
    })?;
    if market.reserve().listed {
        bounds.push(need_bounds(market)?)?;
    }
    Ok(bounds)
}

/// By how much blocks may raise the flow of a limit: what the flow leaves of it on either side where nothing is accepted.
fn row_bounds<N: Exact>(market: &Market, base_flows: &[N], row: Row) -> Result<Bounds<N>, Passed<N>>
    requires row { Contains (rows market.now) row }
    requires base_flows { map N.value base_flows.now ≡ flows_at market.now (empty market.now) }
    ensures low { IfOk result (λ bounds. N.value bounds.low ≡ least_added market.now row) }
    ensures high { IfOk result (λ bounds. N.value bounds.high ≡ most_added market.now row) }
    ensures stops { IfErr result (λ passed. IsBoundsRefusal market.now (row ∷ []) N.bound (passed_at N.value passed)) }
{
    let _lines = market.lines();
    let flow = row_flow(market, carried_flows(market, base_flows), row)?;
    let limit: N = datum(limit_at(market, row));
    let high = exact_difference(limit, flow)?;
    let low = exact_difference(limit.neg(), flow)?;
    Ok(Bounds { low, high })
}

/// Prices and bounds of a market over the limits and rooms taken.
pub fn prices_and_bounds<N: Exact>(
    alloc: Global,
    market: &Market,
    taken: &[Taking],
) -> Result<PricesAndBounds<N>, Stop<N>>
    requires takings { All (IsTaking market.now) taken.now }
    ensures posing { IfOk result (ArePricesAndBounds N.value market.now taken.now) }
    ensures stops { IfErr result (StopsBy N.value (IsBoundsRefusal market.now (limits_of taken.now) N.bound)) }
{
    let prices = first_prices(alloc, market)?;
    let base_flows = base_flows_of(alloc, market)?;
    let column_bounds = first_column_bounds(alloc, market)?;
    let row_bounds = first_row_bounds(alloc, market, &base_flows)?;
    let mut posing = PricesAndBounds {
        prices,
        column_bounds,
        row_bounds,
        base_flows,
    };
    for taking in taken {
        take_bounds(market, &mut posing, *taking)?;
    }
    Ok(posing)
}

/// Adds the prices and bounds of the two columns of a soft limit.
fn take_columns<N: Exact>(
    market: &Market,
    posing: &mut PricesAndBounds<N>,
    row: Row,
) -> Result<(), Memory>
    requires row { Contains (rows market.now) row }
    ensures prices { IfOk result (λ _. map N.value posing.new.prices ≡ map N.value posing.old.prices ++ map (objective_price market.now) (excess_columns market.now (row ∷ []))) }
    ensures lows { IfOk result (λ _. map (λ b. N.value b.low) posing.new.column_bounds ≡ map (λ b. N.value b.low) posing.old.column_bounds ++ map (low market.now) (excess_columns market.now (row ∷ []))) }
    ensures highs { IfOk result (λ _. map (λ b. N.value b.high) posing.new.column_bounds ≡ map (λ b. N.value b.high) posing.old.column_bounds ++ map (high market.now) (excess_columns market.now (row ∷ []))) }
    ensures rest { (posing.new.row_bounds ≡ posing.old.row_bounds) × (posing.new.base_flows ≡ posing.old.base_flows) }
{
    let _lines = market.lines();
    if !is_soft(market, row) {
        return Ok(());
    }
    let penalty: N = datum(penalty_at(market, row));
    let bounds = Bounds {
        low: datum(0),
        high: datum(most_excess_at(market, row)),
    };
    posing.prices.push(penalty.neg())?;
    posing.prices.push(penalty.neg())?;
    posing.column_bounds.push(bounds)?;
    posing.column_bounds.push(bounds)?;
    Ok(())
}

/// Adds the bounds of a limit, and the prices and bounds of its columns where it is soft.
fn take_limit_bounds<N: Exact>(
    market: &Market,
    posing: &mut PricesAndBounds<N>,
    row: Row,
) -> Result<(), Stop<N>>
    requires row { Contains (rows market.now) row }
    requires posing { (ts : List Taking) × ArePricesAndBounds N.value market.now ts posing.old }
    ensures taken { (ts : List Taking) → ArePricesAndBounds N.value market.now ts posing.old → IfOk result (λ _. ArePricesAndBounds N.value market.now (ts ++ taking.Limit row ∷ []) posing.new) }
    ensures stops { IfErr result (StopsBy N.value (IsBoundsRefusal market.now (row ∷ []) N.bound)) }
{
    let bounds = row_bounds(market, &posing.base_flows, row)?;
    take_columns(market, posing, row)?;
    posing.row_bounds.push(bounds)?;
    Ok(())
}

/// Takes a limit or a room into prices and bounds: its bounds, and the prices and bounds of the columns of a soft limit.
pub fn take_bounds<N: Exact>(
    market: &Market,
    posing: &mut PricesAndBounds<N>,
    taking: Taking,
) -> Result<(), Stop<N>>
    requires taking { IsTaking market.now taking }
    requires posing { (ts : List Taking) × ArePricesAndBounds N.value market.now ts posing.old }
    ensures taken { (ts : List Taking) → ArePricesAndBounds N.value market.now ts posing.old → IfOk result (λ _. ArePricesAndBounds N.value market.now (ts ++ taking ∷ []) posing.new) }
    ensures stops { IfErr result (StopsBy N.value (IsBoundsRefusal market.now (limits_of (taking ∷ [])) N.bound)) }
{
    match taking {
        Taking::Limit(row) => take_limit_bounds(market, posing, row),
        Taking::Room(unit) => {
            posing.row_bounds.push(room_bounds(market, unit))?;
            Ok(())
        }
    }
}
