//! Whether limits could carry rights together.

ghost use Rattle.std.specs.Prelude.{◌≡◌, ◌<◌, ◌+◌, ◌≤ℤ◌, pos, length, map, replicate, All, IfOk, IfErr, MatchBool};
ghost use Rattle.market_model.specs.Dispatch.{zero};
ghost use Rattle.market_model.specs.LimitRows.{flow_by, limit, rows, carried_list};
ghost use Rattle.market_model.specs.Overrun.{Within};
ghost use Rattle.market_model.specs.PutIn.{carried_in};
ghost use Rattle.market_model.specs.Rights.{IsTransmissionRight, carried_for};
ghost use Rattle.market_model.specs.Stops.{StopsBy};
ghost use Rattle.market_model.specs.SumTables.{IsRefusedAmong};
ghost use Rattle.market_model.specs.Valued.{passed_at};
ghost use Rattle.rights_test.specs.Fits.{fit_at, IsFit, IsFitBy, IsFitRefusal, RightsFlowSum};
ghost use Rattle.market_model.specs.declared.limits.Row.{Row};
ghost use Rattle.limit_rows.specs.Refusals.{IsAnyFlowRefusal};

use crate::injecting::put_rights;
use crate::right_parts::Fit;
use exact_fraction::{Exact, Passed, size};
use limit_rows::{limit_at, name_at, put_line_flows, row_flow, rows};
use market_model::{Market, Row, Stop, TransmissionRight, datum, zeros};
use std::alloc::Global;
use std::cmp::Ordering;

/// Puts in the flow of each line where rights are put in and nothing else. Behind the lines nothing is changed.
fn put_flows<N: Exact>(
    market: &Market,
    rights: &[TransmissionRight],
    by_bus: &mut [N],
    out: &mut [N],
) -> Result<(), Passed<N>>
    requires rights { All (λ t. pos 0 ≤ℤ t.mw) rights.now }
    requires by_bus { length by_bus.old ≡ length market.now.buses }
    requires out { map N.value out.old ≡ replicate (length market.now.lines + length market.now.unit_outages) zero }
    ensures flows { IfOk result (λ _. map N.value out.new ≡ carried_list market.now (carried_for market.now rights.now)) }
    ensures stops { IfErr result (λ passed. IsRefusedAmong (RightsFlowSum market.now rights.now) N.bound (passed_at N.value passed)) }
{
    put_rights(rights, by_bus)?;
    let (by_line, _lost) = out.split_at_mut(market.lines().len());
    put_line_flows(market, by_bus, by_line)
}

/// What the network carries there: the flow of each line, and then nothing for the unit of each outage of a unit, in 10^-9 MW.
fn carried<N: Exact>(
    alloc: Global,
    market: &Market,
    rights: &[TransmissionRight],
) -> Result<Vec<N>, Stop<N>>
    requires { All (λ t. pos 0 ≤ℤ t.mw) rights.now }
    ensures flows { IfOk result (λ flows. map N.value flows.items ≡ carried_list market.now (carried_for market.now rights.now)) }
    ensures stops { IfErr result (StopsBy N.value (λ p. IsRefusedAmong (RightsFlowSum market.now rights.now) N.bound p)) }
{
    let mut by_bus = zeros(alloc, market.buses().len())?;
    let mut carried = zeros(alloc, market.lines().len() + market.unit_outages().len())?;
    put_flows(market, rights, &mut by_bus, &mut carried)?;
    Ok(carried)
}

/// Whether a flow is within the limit of a row on both sides.
fn is_within<N: Exact>(market: &Market, row: Row, flow: N) -> bool
    requires { row.line < length market.now.lines }
    ensures { MatchBool result (Within (limit market.now row) (N.value flow)) (¬ (Within (limit market.now row) (N.value flow))) }
{
    match size(flow).order(datum(limit_at(market, row))) {
        Ordering::Greater => false,
        Ordering::Less | Ordering::Equal => true,
    }
}

/// Of what the network carries, the first row in the market's order whose flow is beyond its limit, if there is one.
fn first_broken<N: Exact>(market: &Market, carried: &[N]) -> Result<Fit<N>, Passed<N>>
    requires { length carried.now ≡ length market.now.lines + length market.now.unit_outages }
    ensures fit { IfOk result (λ fit. IsFitBy market.now (flow_by market.now (carried_in market.now (map N.value carried.now))) (fit_at N.value fit)) }
    ensures stops { IfErr result (λ passed. IsAnyFlowRefusal market.now (carried_in market.now (map N.value carried.now)) N.bound (passed_at N.value passed)) }
{
    let _lines = market.lines();
    for row in rows(market) {
        let flow = row_flow(market, carried, row)?;
        if !is_within(market, row, flow) {
            return Ok(Fit::Breaks {
                row: name_at(market, row),
                flow,
            });
        }
    }
    Ok(Fit::Fits)
}

/// Whether limits could carry rights together: with the MW of each put in where it begins and taken out where it ends, and nothing else
/// put in, the flow of every row is within its limit. An offset counts, an excess does not, and a unit that is lost puts out nothing.
pub fn fit<N: Exact>(
    alloc: Global,
    market: &Market,
    rights: &[TransmissionRight],
) -> Result<Fit<N>, Stop<N>>
    requires { All (IsTransmissionRight (length market.now.buses)) rights.now }
    ensures fit { IfOk result (λ fit. IsFit market.now rights.now (fit_at N.value fit)) }
    ensures stops { IfErr result (StopsBy N.value (IsFitRefusal market.now rights.now N.bound)) }
{
    let _lines = market.lines();
    let carried = carried(alloc, market, rights)?;
    let fit = first_broken(market, &carried)?;
    Ok(fit)
}
