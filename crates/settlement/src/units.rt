//! What units put out, and what they are paid for that.

ghost use Rattle.std.specs.Prelude.{◌≡◌, ◌⊎◌, ◌<◌, ℕ, List, length, map, IfOk, IfErr};
ghost use Rattle.fraction_theory.specs.Fraction.{Fraction, ◌*ℚ◌};
ghost use Rattle.market_model.specs.declared.answered.Duals.{Duals as DualsOf};
ghost use Rattle.exact_fraction.specs.declared.Op.TheVariants.{Times};
ghost use Rattle.market_model.specs.Dispatch.{places, dispatch_with, output as output_of, output_terms};
ghost use Rattle.market_model.specs.LimitRows.{lost_unit};
ghost use Rattle.market_model.specs.NamedSums.{IsRefusal, IsRefusedIn};
ghost use Rattle.market_model.specs.Optimality.{own_price};
ghost use Rattle.market_model.specs.PutIn.{dispatch_of};
ghost use Rattle.market_model.specs.Valued.{passed_at, unit_pay_at};
ghost use Rattle.market_model.specs.Settlement.{pay_of_unit};
ghost use Rattle.settlement.specs.Refusals.{IsMoneyStop};

use exact_fraction::{Exact, Passed};
use limit_rows::lost_unit;
use market_model::{List, Market, Memory, Stop, UnitPay, output};
use std::alloc::Global;

/// The own price of the unit of each outage of a unit, in the order in which these are listed.
pub fn lost_prices<N: Exact>(alloc: Global, market: &Market, own: &[N]) -> Result<List<N>, Memory>
    requires { length own.now ≡ length market.now.units }
    ensures { (price : ℕ → Fraction) → map N.value own.now ≡ map price (places (length market.now.units))
        → IfOk result (λ lost. map N.value lost ≡ map (λ k. price (lost_unit market.now k)) (places (length market.now.unit_outages))) }
{
    let mut lost = List::new(alloc);
    for outage in 0..market.unit_outages().len() {
        lost.push(own[lost_unit(market, outage)])?;
    }
    Ok(lost)
}

/// What a unit puts out, and what it is paid for that at its price.
fn unit_pay<N: Exact>(
    market: &Market,
    place: usize,
    dispatch: &[N],
    price: N,
) -> Result<UnitPay<N>, Passed<N>>
    requires place { place < length market.now.units }
    requires dispatch { length dispatch.now ≡ length market.now.blocks }
    ensures mw { IfOk result (λ pay. N.value pay.mw ≡ output_of market.now (dispatch_of N.value dispatch.now) place) }
    ensures paid { IfOk result (λ pay. N.value pay.paid ≡ N.value price *ℚ N.value pay.mw) }
    ensures stops { IfErr result (λ passed. IsRefusedIn (output_terms market.now (dispatch_of N.value dispatch.now) place) N.bound (passed_at N.value passed)
        ⊎ IsRefusal Times (N.value price) (output_of market.now (dispatch_of N.value dispatch.now) place) N.bound (passed_at N.value passed)) }
{
    let mw = output(market, place, dispatch)?;
    let paid = price.times(mw)?;
    Ok(UnitPay { mw, paid })
}

/// What each unit is paid for energy at its own price, whatever reserve is accepted beside.
pub fn unit_pays<N: Exact>(
    alloc: Global,
    market: &Market,
    dispatch: &[N],
    own: &[N],
) -> Result<List<UnitPay<N>>, Stop<N>>
    requires dispatch { length dispatch.now ≡ length market.now.blocks }
    requires own { length own.now ≡ length market.now.units }
    ensures stops { (reserve : List Fraction) (price : ℕ → Fraction) (d : DualsOf Fraction) → map N.value own.now ≡ map (own_price market.now d price) (places (length market.now.units))
        → IfErr result (IsMoneyStop N.value N.bound market.now (dispatch_with (map N.value dispatch.now) reserve) price d) }
    ensures pays { (reserve : List Fraction) (price : ℕ → Fraction) (d : DualsOf Fraction) → map N.value own.now ≡ map (own_price market.now d price) (places (length market.now.units))
        → IfOk result (λ pays. map (unit_pay_at N.value) pays ≡ map (pay_of_unit market.now (dispatch_with (map N.value dispatch.now) reserve) price d) (places (length market.now.units))) }
{
    let mut pays = List::new(alloc);
    for (place, price) in own.iter().enumerate() {
        pays.push(unit_pay(market, place, dispatch, *price)?)?;
    }
    Ok(pays)
}
