//! What buses demand, and what they pay for that.

ghost use Rattle.std.specs.Prelude.{◌≡◌, ◌⊎◌, length, map, IfOk, IfErr};
ghost use Rattle.fraction_theory.specs.Fraction.{Fraction, whole, ◌+ℚ◌, ◌*ℚ◌};
ghost use Rattle.market_data.specs.Participants.{IsBus};
ghost use Rattle.market_model.specs.declared.answered.Duals.{Duals as DualsOf};
ghost use Rattle.exact_fraction.specs.declared.Op.TheVariants.{Plus, Times};
ghost use Rattle.market_model.specs.Dispatch.{Dispatch, places};
ghost use Rattle.market_model.specs.NamedSums.{IsRefusal};
ghost use Rattle.market_model.specs.Valued.{passed_at, load_at, total_at};
ghost use Rattle.market_model.specs.Settlement.{pay_of_load};
ghost use Rattle.settlement.specs.Refusals.{IsMoneyStop};

use exact_fraction::{Exact, Passed, exact_sum};
use market_model::{Bus, List, Load, Market, Price, Stop, datum};
use std::alloc::Global;

/// A bus's demand and what it pays at a price.
#[tactic(auto, using(market_data::proofs::Data::datum_read))]
fn load<N: Exact>(bus: &Bus, price: N) -> Result<Load<N>, Passed<N>>
    requires { IsBus bus.now }
    ensures demand { IfOk result (λ load. N.value load.mw ≡ whole bus.now.pd +ℚ whole bus.now.gs) }
    ensures pays { IfOk result (λ load. N.value load.pays ≡ N.value price *ℚ N.value load.mw) }
    ensures stops { IfErr result (λ passed. IsRefusal Plus (whole bus.now.pd) (whole bus.now.gs) N.bound (passed_at N.value passed)
        ⊎ IsRefusal Times (N.value price) (whole bus.now.pd +ℚ whole bus.now.gs) N.bound (passed_at N.value passed)) }
{
    let pd: N = datum(bus.pd);
    let mw = exact_sum(pd, datum(bus.gs))?;
    let pays = price.times(mw)?;
    Ok(Load { mw, pays })
}

/// What each bus pays.
pub fn loads<N: Exact>(
    alloc: Global,
    market: &Market,
    prices: &[Price<N>],
) -> Result<List<Load<N>>, Stop<N>>
    requires { length prices.now ≡ length market.now.buses }
    ensures stops { (x : Dispatch) (d : DualsOf Fraction) → IfErr result (IsMoneyStop N.value N.bound market.now x (total_at N.value prices.now) d) }
    ensures loads { IfOk result (λ loads. map (load_at N.value) loads ≡ map (pay_of_load market.now (total_at N.value prices.now)) (places (length market.now.buses))) }
{
    let mut loads = List::new(alloc);
    for (place, bus) in market.buses().slice().iter().enumerate() {
        loads.push(load(bus, prices[place].total)?)?;
    }
    Ok(loads)
}
