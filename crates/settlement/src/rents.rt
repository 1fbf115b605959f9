//! What limits earn.

ghost use Rattle.std.specs.Prelude.{◌≡◌, ◌+◌, ℕ, length, map, IfOk, IfErr};
ghost use Rattle.fraction_theory.specs.Fraction.{Fraction};
ghost use Rattle.market_model.specs.Dispatch.{Dispatch};
ghost use Rattle.market_model.specs.Optimality.{ProperDuals, named_rows};
ghost use Rattle.market_model.specs.RightAnswers.{rent_of};
ghost use Rattle.market_model.specs.Valued.{duals_at, rent_at};
ghost use Rattle.limit_screen.specs.Flows.{flows_at};
ghost use Rattle.settlement.specs.Refusals.{IsMoneyStop};

use crate::rows::row_rent;
use exact_fraction::Exact;
use limit_rows::found_row;
use market_model::{Duals, List, Market, Rent, Stop};
use std::alloc::Global;

/// The flow and the rent of each row with a dual, in the order of the duals, of the flows of a dispatch by bus, by line and by outage of a unit.
pub fn rents<N: Exact>(
    alloc: Global,
    market: &Market,
    flows: &[N],
    duals: &Duals<N>,
) -> Result<List<Rent<N>>, Stop<N>>
    requires flows { length flows.now ≡ length market.now.buses + length market.now.lines + length market.now.unit_outages }
    requires duals { ProperDuals market.now (duals_at N.value duals.now) }
    ensures stops { (x : Dispatch) (price : ℕ → Fraction) → map N.value flows.now ≡ flows_at market.now x → IfErr result (IsMoneyStop N.value N.bound market.now x price (duals_at N.value duals.now)) }
    ensures rents { (x : Dispatch) → map N.value flows.now ≡ flows_at market.now x → IfOk result (λ rents. map (rent_at N.value) rents ≡ map (rent_of market.now x (duals_at N.value duals.now)) (named_rows market.now (duals_at N.value duals.now))) }
{
    let _lines = market.lines();
    let mut rents = List::new(alloc);
    for dual in duals.limits.slice() {
        let row = found_row(market, dual.row);
        let rent = row_rent(market, row, dual, flows)?;
        rents.push(rent)?;
    }
    Ok(rents)
}
