//! The settlement of a dispatch.

ghost use Rattle.std.specs.Prelude.{◌≡◌, length, map, IfOk, IfErr};
ghost use Rattle.fraction_theory.specs.Order.{◌≤ℚ◌};
ghost use Rattle.fraction_theory.specs.Sums.{sum_by, total};
ghost use Rattle.market_model.specs.Dispatch.{zero, dispatch_with};
ghost use Rattle.market_model.specs.Fitting.{FitsMoney};
ghost use Rattle.market_model.specs.Laws.{HasOffsetsWithin};
ghost use Rattle.market_model.specs.NamedSums.{IsRefusedIn};
ghost use Rattle.market_model.specs.Optimality.{ProperDuals, IsSupportedAt};
ghost use Rattle.market_model.specs.Valued.{duals_at, money_at, passed_at, total_at, load_at, unit_pay_at};
ghost use Rattle.market_model.specs.PutIn.{dispatch_of};
ghost use Rattle.market_model.specs.RightAnswers.{settlement_at};
ghost use Rattle.market_model.specs.Settlement.{paid_terms};
ghost use Rattle.limit_screen.specs.Flows.{flows_at};
ghost use Rattle.settlement.specs.Refusals.{IsMoneyStop, IsSettlementStop};

use crate::loads::loads;
use crate::offers::reserve_pays;
use crate::rents::rents;
use crate::units::{lost_prices, unit_pays};
use bus_prices::own_prices;
use exact_fraction::{Exact, Passed, exact_sum};
use limit_screen::flows_made;
use market_model::{Duals, Load, Market, Money, Price, Stop, UnitPay, datum};
use std::alloc::Global;

/// What loads pay, in bus order, less what units are paid, in unit order.
fn surplus<N: Exact>(loads: &[Load<N>], units: &[UnitPay<N>]) -> Result<N, Passed<N>>
    ensures left { IfOk result (λ left. N.value left ≡ total (paid_terms (map (load_at N.value) loads.now) (map (unit_pay_at N.value) units.now))) }
    ensures stops { IfErr result (λ passed. IsRefusedIn (paid_terms (map (load_at N.value) loads.now) (map (unit_pay_at N.value) units.now)) N.bound (passed_at N.value passed)) }
{
    let mut surplus: N = datum(0);
    for load in loads {
        surplus = exact_sum(surplus, load.pays)?;
    }
    for unit in units {
        surplus = exact_sum(surplus, unit.paid.neg())?;
    }
    Ok(surplus)
}

/// The settlement of a dispatch whose flows are known: what each bus puts in, then what each line carries, and then what the unit of each
/// outage of a unit puts out, as `limit_screen::flows` puts them, in 10^-9 MW: blocks alone decide them. The rest as in `settle`.
pub fn settle_flows<N: Exact>(
    alloc: Global,
    market: &Market,
    dispatch: &[N],
    reserve: &[N],
    flows: &[N],
    prices: &[Price<N>],
    duals: &Duals<N>,
) -> Result<Money<N>, Stop<N>>
    requires dispatch { length dispatch.now ≡ length market.now.blocks }
    requires reserve { length reserve.now ≡ length market.now.reserve.offers }
    requires flows { map N.value flows.now ≡ flows_at market.now (dispatch_of N.value dispatch.now) }
    requires prices { length prices.now ≡ length market.now.buses }
    requires duals { ProperDuals market.now (duals_at N.value duals.now) }
    ensures money { IfOk result (λ money. money_at N.value money ≡ settlement_at market.now (dispatch_with (map N.value dispatch.now) (map N.value reserve.now)) (total_at N.value prices.now) (duals_at N.value duals.now)) }
    ensures fits { IfOk result (FitsMoney market.now duals.now) }
    ensures surplus_is_rents { IfOk result (λ money. IsSupportedAt market.now (dispatch_with (map N.value dispatch.now) (map N.value reserve.now)) (total_at N.value prices.now) (duals_at N.value duals.now) → N.value money.surplus ≡ sum_by (λ rent. N.value rent.rent) money.rents) }
    ensures not_negative { IfOk result (λ money. IsSupportedAt market.now (dispatch_with (map N.value dispatch.now) (map N.value reserve.now)) (total_at N.value prices.now) (duals_at N.value duals.now) → HasOffsetsWithin market.now (duals_at N.value duals.now) → zero ≤ℚ N.value money.surplus) }
    ensures stops { IfErr result (IsMoneyStop N.value N.bound market.now (dispatch_with (map N.value dispatch.now) (map N.value reserve.now)) (total_at N.value prices.now) (duals_at N.value duals.now)) }
{
    let _lines = market.lines();
    let by_unit = own_prices(alloc, market, duals, prices)?;
    let units = unit_pays(alloc, market, dispatch, &by_unit)?;
    let own = lost_prices(alloc, market, &by_unit)?;
    let loads = loads(alloc, market, prices)?;
    let rents = rents(alloc, market, flows, duals)?;
    let surplus = surplus(loads.slice(), units.slice())?;
    let reserve = reserve_pays(alloc, reserve, duals.reserve)?;
    Ok(Money {
        units,
        own,
        loads,
        rents,
        surplus,
        reserve,
    })
}

/// The settlement of a dispatch at bus prices, one for each bus, with duals as an answer has them: what units are paid, each at its own
/// price, what loads pay and limits with duals earn, and what offers of reserve are paid at its price. MW are in 10^-9, prices in 10^-6 per MWh, money in 10^-15. The prices may be any;
/// where they are those of the duals, the money is that of a right answer (`laws::money_is_right`).
pub fn settle<N: Exact>(
    alloc: Global,
    market: &Market,
    dispatch: &[N],
    reserve: &[N],
    prices: &[Price<N>],
    duals: &Duals<N>,
) -> Result<Money<N>, Stop<N>>
    requires dispatch { length dispatch.now ≡ length market.now.blocks }
    requires reserve { length reserve.now ≡ length market.now.reserve.offers }
    requires prices { length prices.now ≡ length market.now.buses }
    requires duals { ProperDuals market.now (duals_at N.value duals.now) }
    ensures money { IfOk result (λ money. money_at N.value money ≡ settlement_at market.now (dispatch_with (map N.value dispatch.now) (map N.value reserve.now)) (total_at N.value prices.now) (duals_at N.value duals.now)) }
    ensures fits { IfOk result (FitsMoney market.now duals.now) }
    ensures surplus_is_rents { IfOk result (λ money. IsSupportedAt market.now (dispatch_with (map N.value dispatch.now) (map N.value reserve.now)) (total_at N.value prices.now) (duals_at N.value duals.now) → N.value money.surplus ≡ sum_by (λ rent. N.value rent.rent) money.rents) }
    ensures not_negative { IfOk result (λ money. IsSupportedAt market.now (dispatch_with (map N.value dispatch.now) (map N.value reserve.now)) (total_at N.value prices.now) (duals_at N.value duals.now) → HasOffsetsWithin market.now (duals_at N.value duals.now) → zero ≤ℚ N.value money.surplus) }
    ensures stops { IfErr result (IsSettlementStop N.value N.bound market.now (dispatch_with (map N.value dispatch.now) (map N.value reserve.now)) (total_at N.value prices.now) (duals_at N.value duals.now)) }
{
    let flows = flows_made(alloc, market, dispatch)?;
    settle_flows(alloc, market, dispatch, reserve, &flows, prices, duals)
}
