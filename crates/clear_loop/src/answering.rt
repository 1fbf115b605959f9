//! The answer of a dispatch and duals.

ghost use Rattle.std.specs.Prelude.{◌≡◌, List, map, IfOk, IfErr};
ghost use Rattle.market_model.specs.Dispatch.{dispatch_with};
ghost use Rattle.market_model.specs.Fitting.{FitsMarket};
ghost use Rattle.market_model.specs.Optimality.{ProperDuals};
ghost use Rattle.market_model.specs.RightAnswers.{IsRight, dispatch_in, prices_made};
ghost use Rattle.market_model.specs.Stops.{StopsBy};
ghost use Rattle.market_model.specs.SumTables.{IsRefusedInPrices};
ghost use Rattle.market_model.specs.Valued.{answer_at, duals_at, price_at};
ghost use Rattle.limit_screen.specs.Flows.{flows_at};
ghost use Rattle.market_dict.specs.Takings.{limits_of};
ghost use Rattle.market_dict.specs.declared.taking.Taking.{Taking};
ghost use Rattle.clear_loop.specs.Rounds.{IsSolution, StopsInRange};

use bus_prices::prices;
use exact_fraction::Exact;
use market_model::{Answer, Duals, Market, Price, Stop, datum};
use plain_list::List;
use settlement::{settle_flows, welfare};
use std::alloc::Global;

/// The price at each bus.
pub(crate) fn bus_prices<N: Exact>(
    alloc: Global,
    market: &Market,
    duals: &Duals<N>,
) -> Result<List<Price<N>>, Stop<N>>
    requires { ProperDuals market.now (duals_at N.value duals.now) }
    ensures prices { IfOk result (λ prices. map (price_at N.value) prices ≡ prices_made market.now (duals_at N.value duals.now)) }
    ensures stops { IfErr result (StopsBy N.value (IsRefusedInPrices market.now (duals_at N.value duals.now) N.bound)) }
{
    let none: N = datum(0);
    let unpriced = Price {
        energy: none,
        congestion: none,
        total: none,
    };
    let mut by_bus = List::new(alloc);
    for _ in 0..market.buses().len() {
        by_bus.push(unpriced)?;
    }
    prices(market, duals, by_bus.slice_mut())?;
    Ok(by_bus)
}

/// The answer of a dispatch, of blocks and of offers of reserve, that solves the market over some of its limits and rooms and keeps all of
/// them, with its flows, by bus, by line and by outage of a unit, and its duals: bus prices, welfare and settlement.
pub(crate) fn answer_of<N: Exact>(
    alloc: Global,
    market: &Market,
    dispatch: List<N>,
    reserve: List<N>,
    flows: &[N],
    duals: Duals<N>,
) -> Result<Answer<N>, Stop<N>>
    requires solved { (ts : List Taking) × IsSolution market.now ts (dispatch_with (map N.value dispatch) (map N.value reserve)) (duals_at N.value duals) }
    requires flows { map N.value flows.now ≡ flows_at market.now (dispatch_with (map N.value dispatch) (map N.value reserve)) }
    ensures fits { IfOk result (FitsMarket market.now) }
    ensures right { IfOk result (λ answer. IsRight market.now (answer_at N.value answer)) }
    ensures dispatch { IfOk result (λ answer. dispatch_in (answer_at N.value answer) ≡ dispatch_with (map N.value dispatch) (map N.value reserve)) }
    ensures duals { IfOk result (λ answer. answer.duals ≡ duals) }
    ensures stops { (ts : List Taking) → IsSolution market.now ts (dispatch_with (map N.value dispatch) (map N.value reserve)) (duals_at N.value duals) → IfErr result (StopsInRange N.value N.bound market.now (limits_of ts)) }
{
    let _lines = market.lines();
    let prices = bus_prices(alloc, market, &duals)?;
    let welfare = welfare(market, dispatch.slice(), reserve.slice(), flows)?;
    let money = settle_flows(
        alloc,
        market,
        dispatch.slice(),
        reserve.slice(),
        flows,
        prices.slice(),
        &duals,
    )?;
    Ok(Answer {
        dispatch,
        reserve,
        duals,
        prices,
        welfare,
        money,
    })
}
