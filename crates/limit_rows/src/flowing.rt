//! What flows on lines and counts for rows.

ghost use Rattle.std.specs.Prelude.{◌≡◌, ◌≢◌, ◌<◌, ◌≤◌, ◌+◌, ◌^◌, unsigned_abs, length, map, IfOk, IfErr};
ghost use Rattle.fraction_theory.specs.Fraction.{over, ◌+ℚ◌, ◌*ℚ◌};
ghost use Rattle.market_data.specs.Scales.{factor_one, most_factor};
ghost use Rattle.market_model.specs.declared.limits.Cause.TheVariants as cause;
ghost use Rattle.market_model.specs.Dispatch.{places};
ghost use Rattle.market_model.specs.LimitRows.{IsCauseOf, flow_by, line_flow, line_offset, line_terms, lost_output, offset_terms, row_offset, line_flows_by};
ghost use Rattle.market_model.specs.NamedSums.{IsRefusedIn, IsShareRefusal};
ghost use Rattle.market_model.specs.PutIn.{carried_in, dispatch_of, put_in};
ghost use Rattle.market_model.specs.SumTables.{IsFlowRefusal, IsRefusedAmong, LineFlowSum, LostOutputSum};
ghost use Rattle.market_model.specs.Valued.{passed_at};
ghost use Rattle.limit_rows.specs.Wholes.{AreWholes};

use crate::causes::lost_unit;
use crate::factors::{loss_of, pickup_factor, shift_of, with_product};
use crate::wholes::{flow_by_wholes, put_wholes};
use exact_fraction::{Exact, Passed};
use market_data::{FACTOR_ONE, MOST_BUSES};
use market_model::{Cause, Market, Row, datum, output};

/// A sum plus a number times a factor, of shift or outage, in 10^-9. A factor of 0 adds nothing.
pub(crate) fn with_share<N: Exact>(sum: N, share: i64, number: N) -> Result<N, Passed<N>>
    requires { unsigned_abs share ≤ most_factor }
    ensures sum { IfOk result (λ more. N.value more ≡ N.value sum +ℚ over share factor_one *ℚ N.value number) }
    ensures stops { IfErr result (λ passed. IsShareRefusal (N.value sum) (over share factor_one) (N.value number) N.bound (passed_at N.value passed)) }
{
    if share == 0 {
        Ok(sum)
    } else {
        sum.plus_product(N::of_parts(share, FACTOR_ONE), number)
    }
}

/// The offset of a line, in 10^-9 MW.
pub(crate) fn offset_of<N: Exact>(market: &Market, line: usize) -> N
    requires { line < length market.now.lines }
    ensures { N.value result ≡ line_offset market.now line }
{
    datum(market.lines().slice()[line].offset)
}

/// The flow of a line where buses put in so much, in 10^-9 MW.
fn line_flow<N: Exact>(market: &Market, line: usize, injections: &[N]) -> Result<N, Passed<N>>
    requires line { line < length market.now.lines }
    requires injections { length injections.now ≡ length market.now.buses }
    ensures flow { IfOk result (λ mw. N.value mw ≡ line_flow market.now (put_in (map N.value injections.now)) line) }
    ensures stops { IfErr result (λ passed. IsRefusedIn (line_terms market.now (put_in (map N.value injections.now)) line) N.bound (passed_at N.value passed)) }
{
    let mut flow: N = offset_of(market, line);
    for (bus, mw) in injections.iter().enumerate() {
        flow = with_share(flow, shift_of(market, line, bus), *mw)?;
    }
    Ok(flow)
}

/// The same flow, by those that put in whole numbers where these tell it.
fn flow_at<N: Exact>(
    market: &Market,
    line: usize,
    injections: &[N],
    wholes: &[Option<i64>],
) -> Result<N, Passed<N>>
    requires line { line < length market.now.lines }
    requires injections { length injections.now ≡ length market.now.buses }
    requires count { length wholes.now ≡ length market.now.buses }
    requires wholes { AreWholes (put_in (map N.value injections.now)) wholes.now }
    ensures flow { IfOk result (λ mw. N.value mw ≡ line_flow market.now (put_in (map N.value injections.now)) line) }
    ensures stops { IfErr result (λ passed. IsRefusedIn (line_terms market.now (put_in (map N.value injections.now)) line) N.bound (passed_at N.value passed)) }
{
    match flow_by_wholes(market, line, injections, wholes) {
        Some(mw) => Ok(mw),
        None => line_flow(market, line, injections),
    }
}

/// Puts in the flow of each line where buses put in so much, in 10^-9 MW.
pub fn put_line_flows<N: Exact>(
    market: &Market,
    injections: &[N],
    out: &mut [N],
) -> Result<(), Passed<N>>
    requires injections { length injections.now ≡ length market.now.buses }
    requires out { length out.old ≡ length market.now.lines }
    ensures count { length out.new ≡ length out.old }
    ensures flows { IfOk result (λ _. map N.value out.new ≡ line_flows_by market.now (put_in (map N.value injections.now))) }
    ensures stops { IfErr result (λ passed. IsRefusedAmong (LineFlowSum market.now (put_in (map N.value injections.now))) N.bound (passed_at N.value passed)) }
{
    let _buses = market.buses();
    let mut space = [None; MOST_BUSES];
    let wholes = &mut space[..injections.len()];
    put_wholes(injections, wholes);
    for (line, mw) in out.iter_mut().enumerate() {
        *mw = flow_at(market, line, injections, wholes)?;
    }
    Ok(())
}

/// Puts in the output of the unit of each outage of a unit at a dispatch, in 10^-9 MW.
pub fn put_lost_outputs<N: Exact>(
    market: &Market,
    dispatch: &[N],
    out: &mut [N],
) -> Result<(), Passed<N>>
    requires dispatch { length dispatch.now ≡ length market.now.blocks }
    requires out { length out.old ≡ length market.now.unit_outages }
    ensures count { length out.new ≡ length out.old }
    ensures outputs { IfOk result (λ _. map N.value out.new ≡ map (lost_output market.now (dispatch_of N.value dispatch.now)) (places (length market.now.unit_outages))) }
    ensures stops { IfErr result (λ passed. IsRefusedAmong (LostOutputSum market.now (dispatch_of N.value dispatch.now)) N.bound (passed_at N.value passed)) }
{
    for (outage, mw) in out.iter_mut().enumerate() {
        *mw = output(market, lost_unit(market, outage), dispatch)?;
    }
    Ok(())
}

/// The flow of a row, of what the network carries: the flow of each line and then the output of the unit of each outage of a unit, in
/// 10^-9 MW. After an outage of a branch the part of the lost line's flow that goes over to the row's line is added, and after one of a unit
/// what others pick up of its output adds there.
pub fn row_flow<N: Exact>(market: &Market, carried: &[N], row: Row) -> Result<N, Passed<N>>
    requires carried { length carried.now ≡ length market.now.lines + length market.now.unit_outages }
    requires line { row.line < length market.now.lines }
    requires lost { IsCauseOf market.now row.cause }
    ensures flow { IfOk result (λ mw. N.value mw ≡ flow_by market.now (carried_in market.now (map N.value carried.now)) row) }
    ensures after { IfErr result (λ _. row.cause ≢ cause.Base) }
    ensures stops { IfErr result (λ passed. IsFlowRefusal market.now (carried_in market.now (map N.value carried.now)) row N.bound (passed_at N.value passed)) }
{
    let own = carried[row.line];
    match row.cause {
        Cause::Base => Ok(own),
        Cause::Branch(lost) => with_share(own, loss_of(market, row.line, lost), carried[lost]),
        Cause::UnitOutage(outage) => {
            let factor = pickup_factor(market, row.line, outage)?;
            let lost = carried[market.lines().len() + outage];
            with_product(own, factor, lost)
        }
    }
}

/// What the flow of a row has whatever buses put in, in 10^-9 MW.
pub fn row_offset<N: Exact>(market: &Market, row: Row) -> Result<N, Passed<N>>
    requires line { row.line < length market.now.lines }
    requires lost { IsCauseOf market.now row.cause }
    ensures offset { IfOk result (λ mw. N.value mw ≡ row_offset market.now row) }
    ensures stops { IfErr result (λ passed. IsRefusedIn (offset_terms market.now row) N.bound (passed_at N.value passed)) }
{
    let own = offset_of(market, row.line);
    match row.cause {
        Cause::Base | Cause::UnitOutage(_) => Ok(own),
        Cause::Branch(lost) => with_share(
            own,
            loss_of(market, row.line, lost),
            offset_of(market, lost),
        ),
    }
}
