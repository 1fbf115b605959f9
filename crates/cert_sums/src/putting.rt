//! What buses put in at a dispatch.

ghost use Rattle.std.specs.Prelude.{◌≡◌, length, map, vec_len, IfOk, IfErr};
ghost use Rattle.market_model.specs.PutIn.{dispatch_of, AreInjections};
ghost use Rattle.market_model.specs.Stops.{StopsBy};
ghost use Rattle.market_model.specs.SumTables.{IsRefusedAmong, InjectionSum};

use exact_fraction::Exact;
use market_model::{Market, Stop, zeros};
use std::alloc::Global;

/// What each bus puts into the network at a dispatch, in 10^-9 MW.
pub fn injections<N: Exact>(
    alloc: Global,
    market: &Market,
    dispatch: &[N],
) -> Result<Vec<N>, Stop<N>>
    requires { length dispatch.now ≡ length market.now.blocks }
    ensures count { IfOk result (λ mws. vec_len mws ≡ length market.now.buses) }
    ensures injections { IfOk result (λ mws. AreInjections market.now (dispatch_of N.value dispatch.now) (map N.value mws.items)) }
    ensures stops { IfErr result (StopsBy N.value (IsRefusedAmong (InjectionSum market.now (dispatch_of N.value dispatch.now)) N.bound)) }
{
    let mut mws = zeros(alloc, market.buses().len())?;
    market_model::injections(market, dispatch, &mut mws)?;
    Ok(mws)
}
