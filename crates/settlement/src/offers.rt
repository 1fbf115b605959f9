//! What offers of reserve are paid.

ghost use Rattle.std.specs.Prelude.{◌≡◌, ℕ, List, length, map, IfOk, IfErr};
ghost use Rattle.fraction_theory.specs.Fraction.{Fraction};
ghost use Rattle.market_model.specs.declared.answered.Duals.{Duals as DualsOf};
ghost use Rattle.market_model.specs.declared.participants.Parts.{Parts};
ghost use Rattle.market_model.specs.Dispatch.{places, dispatch_with};
ghost use Rattle.market_model.specs.Settlement.{pay_of_reserve};
ghost use Rattle.market_model.specs.Valued.{reserve_pay_at};
ghost use Rattle.settlement.specs.Refusals.{IsMoneyStop};

use exact_fraction::Exact;
use market_model::{List, ReservePay, Stop};
use std::alloc::Global;

/// What each offer of reserve is paid at the price of reserve, for what is accepted of it.
pub fn reserve_pays<N: Exact>(
    alloc: Global,
    reserve: &[N],
    price: N,
) -> Result<List<ReservePay<N>>, Stop<N>>
    ensures stops { (m : Parts) (blocks : List Fraction) (by_bus : ℕ → Fraction) (d : DualsOf Fraction) → length reserve.now ≡ length m.reserve.offers → N.value price ≡ d.reserve
        → IfErr result (IsMoneyStop N.value N.bound m (dispatch_with blocks (map N.value reserve.now)) by_bus d) }
    ensures pays { (blocks : List Fraction) (d : DualsOf Fraction) → N.value price ≡ d.reserve
        → IfOk result (λ pays. map (reserve_pay_at N.value) pays ≡ map (pay_of_reserve (dispatch_with blocks (map N.value reserve.now)) d) (places (length reserve.now))) }
{
    let mut pays = List::new(alloc);
    for mw in reserve {
        let paid = price.times(*mw)?;
        pays.push(ReservePay { mw: *mw, paid })?;
    }
    Ok(pays)
}
