//! What the network carries at a dispatch.

ghost use Rattle.std.specs.Prelude.{◌≡◌, ◌+◌, length, map, vec_len, IfOk, IfErr};
ghost use Rattle.market_model.specs.PutIn.{AreCarried, AreInjections, dispatch_of};
ghost use Rattle.market_model.specs.Stops.{StopsBy};
ghost use Rattle.market_model.specs.Valued.{passed_at};
ghost use Rattle.cert_sums.specs.Refusals.{IsCarriedRefusal};

use exact_fraction::{Exact, Passed};
use limit_rows::{put_line_flows, put_lost_outputs};
use market_model::{Market, Stop, zeros};
use std::alloc::Global;

/// Puts in the flow of each line, of what each bus puts in, and then the output of the unit of each outage of a unit.
fn put_carried<N: Exact>(
    market: &Market,
    dispatch: &[N],
    injections: &[N],
    out: &mut [N],
) -> Result<(), Passed<N>>
    requires dispatch { length dispatch.now ≡ length market.now.blocks }
    requires injections { length injections.now ≡ length market.now.buses }
    requires out { length out.old ≡ length market.now.lines + length market.now.unit_outages }
    ensures count { length out.new ≡ length out.old }
    ensures carried { AreInjections market.now (dispatch_of N.value dispatch.now) (map N.value injections.now) → IfOk result (λ _. AreCarried market.now (dispatch_of N.value dispatch.now) (map N.value out.new)) }
    ensures stops { AreInjections market.now (dispatch_of N.value dispatch.now) (map N.value injections.now) → IfErr result (λ passed. IsCarriedRefusal market.now (dispatch_of N.value dispatch.now) N.bound (passed_at N.value passed)) }
{
    let (by_line, by_outage) = out.split_at_mut(market.lines().len());
    put_line_flows(market, injections, by_line)?;
    put_lost_outputs(market, dispatch, by_outage)
}

/// What the network carries at a dispatch: the flow of each line, of what each bus puts in, and then the output of the unit of each outage
/// of a unit, in 10^-9 MW.
pub fn carried_flows<N: Exact>(
    alloc: Global,
    market: &Market,
    dispatch: &[N],
    injections: &[N],
) -> Result<Vec<N>, Stop<N>>
    requires dispatch { length dispatch.now ≡ length market.now.blocks }
    requires injections { length injections.now ≡ length market.now.buses }
    ensures count { IfOk result (λ carried. vec_len carried ≡ length market.now.lines + length market.now.unit_outages) }
    ensures carried { AreInjections market.now (dispatch_of N.value dispatch.now) (map N.value injections.now) → IfOk result (λ carried. AreCarried market.now (dispatch_of N.value dispatch.now) (map N.value carried.items)) }
    ensures stops { AreInjections market.now (dispatch_of N.value dispatch.now) (map N.value injections.now) → IfErr result (StopsBy N.value (IsCarriedRefusal market.now (dispatch_of N.value dispatch.now) N.bound)) }
{
    let mut carried = zeros(alloc, market.lines().len() + market.unit_outages().len())?;
    put_carried(market, dispatch, injections, &mut carried)?;
    Ok(carried)
}
