//! What buses put in at a dispatch, what flows on lines, and what lost units put out.

ghost use Rattle.std.specs.Prelude.{◌≡◌, ◌+◌, length, map, IfOk, IfErr};
ghost use Rattle.market_model.specs.Dispatch.{Dispatch};
ghost use Rattle.market_model.specs.PutIn.{AreInjections, carried_in, dispatch_of};
ghost use Rattle.market_model.specs.Stops.{StopsBy};
ghost use Rattle.market_model.specs.Valued.{passed_at};
ghost use Rattle.limit_screen.specs.Flows.{carried_at, flows_at, IsFlowsRefusal};

use exact_fraction::{Exact, Passed};
use limit_rows::{put_line_flows, put_lost_outputs};
use market_model::{Market, Stop, injections, zeros};
use std::alloc::Global;

/// What each bus puts in at a dispatch, then the flow of each line, and then the output of the unit of each outage of a unit, in 10^-9 MW.
pub fn flows<N: Exact>(market: &Market, dispatch: &[N], out: &mut [N]) -> Result<(), Passed<N>>
    requires dispatch { length dispatch.now ≡ length market.now.blocks }
    requires out { length out.old ≡ length market.now.buses + length market.now.lines + length market.now.unit_outages }
    ensures count { length out.new ≡ length out.old }
    ensures flows { IfOk result (λ _. map N.value out.new ≡ flows_at market.now (dispatch_of N.value dispatch.now)) }
    ensures stops { IfErr result (λ passed. IsFlowsRefusal market.now (dispatch_of N.value dispatch.now) N.bound (passed_at N.value passed)) }
{
    let (by_bus, carried) = out.split_at_mut(market.buses().len());
    let (by_line, by_outage) = carried.split_at_mut(market.lines().len());
    injections(market, dispatch, by_bus)?;
    put_line_flows(market, by_bus, by_line)?;
    put_lost_outputs(market, dispatch, by_outage)
}

/// What `flows` puts, in a vector of its own.
pub fn flows_made<N: Exact>(
    alloc: Global,
    market: &Market,
    dispatch: &[N],
) -> Result<Vec<N>, Stop<N>>
    requires { length dispatch.now ≡ length market.now.blocks }
    ensures flows { IfOk result (λ flows. map N.value flows.items ≡ flows_at market.now (dispatch_of N.value dispatch.now)) }
    ensures stops { IfErr result (StopsBy N.value (IsFlowsRefusal market.now (dispatch_of N.value dispatch.now) N.bound)) }
{
    let count = market.buses().len() + market.lines().len() + market.unit_outages().len();
    let mut by_place = zeros(alloc, count)?;
    flows(market, dispatch, &mut by_place)?;
    Ok(by_place)
}

/// Of the flows by bus, by line and by outage of a unit, what buses put in.
pub fn bus_injections<'a, N: Exact>(market: &Market, flows: &'a [N]) -> &'a [N]
    requires { length flows.now ≡ length market.now.buses + length market.now.lines + length market.now.unit_outages }
    ensures { (x : Dispatch) → map N.value flows.now ≡ flows_at market.now x → AreInjections market.now x (map N.value result.now) }
{
    &flows[..market.buses().len()]
}

/// Of the flows by bus, by line and by outage of a unit, what the network carries: those of lines and then the outputs of lost units.
pub fn carried_flows<'a, N: Exact>(market: &Market, flows: &'a [N]) -> &'a [N]
    requires { length flows.now ≡ length market.now.buses + length market.now.lines + length market.now.unit_outages }
    ensures count { length result.now ≡ length market.now.lines + length market.now.unit_outages }
    ensures is { carried_in market.now (map N.value result.now) ≡ carried_at market.now (map N.value flows.now) }
{
    &flows[market.buses().len()..]
}
