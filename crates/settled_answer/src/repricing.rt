//! What first prices make of an answer.

ghost use Rattle.std.specs.Prelude.{◌≡◌, length, map, IfOk, IfErr};
ghost use Rattle.limit_screen.specs.Flows.{flows_at};
ghost use Rattle.limit_screen.specs.Reaching.{IsReach};
ghost use Rattle.market_model.specs.Fitting.{FitsMarket};
ghost use Rattle.market_model.specs.Optimality.{ProperDuals};
ghost use Rattle.market_model.specs.RightAnswers.{IsRight, dispatch_in, prices_made};
ghost use Rattle.market_model.specs.Stops.{StopsBy};
ghost use Rattle.market_model.specs.SumTables.{IsRefusedInBusPrices};
ghost use Rattle.market_model.specs.Valued.{answer_at, duals_at, price_at};
ghost use Rattle.one_price.specs.FirstPrices.{AreFirstDuals};
ghost use Rattle.settled_answer.specs.Repriced.{as_repriced, with_prices};
ghost use Rattle.settled_answer.specs.Settled.{IsSettlingRefusal};

use bus_prices::prices;
use exact_fraction::Exact;
use limit_screen::Reach;
use market_model::{Answer, Duals, Market, Money, Price, Stop, datum};
use plain_list::List;
use price_search::first_duals;
use settlement::settle_flows;
use std::alloc::Global;

/// Duals, with the bus prices and the settlement that they make of a dispatch.
#[derive(Drop)]
pub(crate) struct Repricing<N> {
    pub(crate) duals: Duals<N>,
    pub(crate) prices: List<Price<N>>,
    pub(crate) money: Money<N>,
}

/// The price at each bus.
fn bus_prices<N: Exact>(
    alloc: Global,
    market: &Market,
    duals: &Duals<N>,
) -> Result<List<Price<N>>, Stop<N>>
    requires { ProperDuals market.now (duals_at N.value duals.now) }
    ensures prices { IfOk result (λ prices. map (price_at N.value) prices ≡ prices_made market.now (duals_at N.value duals.now)) }
    ensures stops { IfErr result (StopsBy N.value (IsRefusedInBusPrices market.now (duals_at N.value duals.now) N.bound)) }
{
    let none: N = datum(0);
    let unpriced = Price {
        energy: none,
        congestion: none,
        total: none,
    };
    let mut by_bus = List::new(alloc);
    for _ in 0..market.buses().len() {
        by_bus.push(unpriced)?;
    }
    prices(market, duals, by_bus.slice_mut())?;
    Ok(by_bus)
}

/// What first duals make of the dispatch of an answer, with the flows that it makes: bus prices, and the settlement at these.
fn priced<N: Exact>(
    alloc: Global,
    market: &Market,
    answer: &Answer<N>,
    flows: &[N],
    duals: Duals<N>,
) -> Result<Repricing<N>, Stop<N>>
    requires right { IsRight market.now (answer_at N.value answer.now) }
    requires fits { FitsMarket market.now answer.now }
    requires flows { map N.value flows.now ≡ flows_at market.now (dispatch_in (answer_at N.value answer.now)) }
    requires first { AreFirstDuals market.now (dispatch_in (answer_at N.value answer.now)) (duals_at N.value duals) }
    ensures duals { IfOk result (λ made. made.duals ≡ duals) }
    ensures fits { IfOk result (λ made. FitsMarket market.now (with_prices answer.now made)) }
    ensures right { IfOk result (λ made. IsRight market.now (answer_at N.value (with_prices answer.now made))) }
    ensures stops { IfErr result (StopsBy N.value (IsSettlingRefusal N.bound market.now (answer_at N.value answer.now))) }
{
    let _lines = market.lines();
    let prices = bus_prices(alloc, market, &duals)?;
    let money = settle_flows(
        alloc,
        market,
        answer.dispatch.slice(),
        answer.reserve.slice(),
        flows,
        prices.slice(),
        &duals,
    )?;
    Ok(Repricing {
        duals,
        prices,
        money,
    })
}

/// The first of the duals that support the dispatch of an answer, with the bus prices and the settlement that they make: nothing where its own are
/// plainly the first. `reach` is what the dispatch carries and which rows it reaches.
pub(crate) fn repriced<N: Exact>(
    alloc: Global,
    market: &Market,
    answer: &Answer<N>,
    reach: &Reach<N>,
) -> Result<Option<Repricing<N>>, Stop<N>>
    requires right { IsRight market.now (answer_at N.value answer.now) }
    requires fits { FitsMarket market.now answer.now }
    requires reach { IsReach N.value market.now (dispatch_in (answer_at N.value answer.now)) reach.now }
    ensures first { IfOk result (λ made. AreFirstDuals market.now (dispatch_in (answer_at N.value answer.now)) (duals_at N.value (as_repriced answer.now made).duals)) }
    ensures fits { IfOk result (λ made. FitsMarket market.now (as_repriced answer.now made)) }
    ensures right { IfOk result (λ made. IsRight market.now (answer_at N.value (as_repriced answer.now made))) }
    ensures stops { IfErr result (StopsBy N.value (IsSettlingRefusal N.bound market.now (answer_at N.value answer.now))) }
{
    let found = first_duals(
        alloc,
        market,
        answer.dispatch.slice(),
        answer.reserve.slice(),
        &answer.duals,
        reach,
    )?;
    match found {
        Some(duals) => Ok(Some(priced(alloc, market, answer, &reach.flows, duals)?)),
        None => Ok(None),
    }
}
