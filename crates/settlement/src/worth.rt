//! What a dispatch is worth.

ghost use Rattle.std.specs.Prelude.{◌≡◌, ◌⊎◌, ◌+◌, ◌<◌, ◌++◌, List, length, map, IfOk, IfErr};
ghost use Rattle.std.specs.List.{list_any};
ghost use Rattle.fraction_theory.specs.Fraction.{Fraction, neg_ℚ, ◌+ℚ◌, ◌*ℚ◌};
ghost use Rattle.fraction_theory.specs.Sums.{total};
ghost use Rattle.market_model.specs.Dispatch.{Dispatch, dispatch_with};
ghost use Rattle.market_model.specs.LimitRows.{IsCauseOf, flow_by, penalty, rows as rows_of};
ghost use Rattle.market_model.specs.NamedSums.{IsShareRefusal};
ghost use Rattle.market_model.specs.Optimality.{penalty_terms, block_value_terms, welfare as welfare_of};
ghost use Rattle.market_model.specs.Overrun.{excess_by};
ghost use Rattle.market_model.specs.PutIn.{dispatch_of};
ghost use Rattle.market_model.specs.SumTables.{IsFlowRefusal, IsRefusedAmong, WelfareSum};
ghost use Rattle.market_model.specs.Valued.{passed_at};
ghost use Rattle.limit_screen.specs.Flows.{carried_at, flows_at};
ghost use Rattle.settlement.specs.SoftLines.{has_soft_limit};
ghost use Rattle.settlement.specs.Refusals.{IsWelfareRefusal};

use crate::rows::excess;
use exact_fraction::{Exact, Passed};
use limit_rows::{is_soft, penalty_at, row_flow, rows};
use limit_screen::carried_flows;
use market_model::{Line, Market, Row, block_value, datum, offer_value};

/// The value of what is bought less the cost of what is sold, in block order.
fn values<N: Exact>(market: &Market, dispatch: &[N]) -> Result<N, Passed<N>>
    requires { length dispatch.now ≡ length market.now.blocks }
    ensures values { IfOk result (λ values. N.value values ≡ total (block_value_terms market.now (dispatch_of N.value dispatch.now))) }
    ensures stops { (reserve : List Fraction) → IfErr result (λ passed. IsRefusedAmong (WelfareSum market.now (dispatch_with (map N.value dispatch.now) reserve)) N.bound (passed_at N.value passed)) }
{
    let mut sum: N = datum(0);
    for (place, block) in market.blocks().slice().iter().enumerate() {
        sum = sum.plus_product(block_value(block), dispatch[place])?;
    }
    Ok(sum)
}

/// A sum less what the limit of a row costs: its penalty for the excess of its flow.
fn less_penalty<N: Exact>(market: &Market, row: Row, flows: &[N], sum: N) -> Result<N, Passed<N>>
    requires line { row.line < length market.now.lines }
    requires lost { IsCauseOf market.now row.cause }
    requires flows { length flows.now ≡ length market.now.buses + length market.now.lines + length market.now.unit_outages }
    ensures less { let carried = carried_at market.now (map N.value flows.now) in IfOk result (λ less. N.value less ≡ N.value sum +ℚ neg_ℚ (penalty market.now row) *ℚ excess_by market.now row (flow_by market.now carried row)) }
    ensures stops { let carried = carried_at market.now (map N.value flows.now) in IfErr result (λ passed. IsFlowRefusal market.now carried row N.bound (passed_at N.value passed)
        ⊎ IsShareRefusal (N.value sum) (neg_ℚ (penalty market.now row)) (excess_by market.now row (flow_by market.now carried row)) N.bound (passed_at N.value passed)) }
{
    let flow = row_flow(market, carried_flows(market, flows), row)?;
    let excess = excess(market, row, flow)?;
    let penalty: N = datum(penalty_at(market, row));
    sum.plus_product(penalty.neg(), excess)
}

/// Whether a limit of a line gives way, in the base or after outages.
fn has_soft_limit(line: &Line) -> bool
    ensures { result ≡ has_soft_limit line.now }
{
    line.base_price > 0 || line.post_price > 0
}

/// Whether one of some line does.
fn has_soft_limits(market: &Market) -> bool
    ensures { result ≡ list_any has_soft_limit market.now.lines }
{
    let lines = market.lines().slice();
    lines.iter().any(|line| has_soft_limit(line))
}

/// The value of blocks less what limits cost: the penalties of those that give way, in row order. Rows are gone over only where a line has
/// such a limit.
fn less_penalties<N: Exact>(market: &Market, flows: &[N], values: N) -> Result<N, Passed<N>>
    requires { length flows.now ≡ length market.now.buses + length market.now.lines + length market.now.unit_outages }
    ensures worth { (x : Dispatch) → map N.value flows.now ≡ flows_at market.now x → N.value values ≡ total (block_value_terms market.now x)
        → IfOk result (λ worth. N.value worth ≡ total (block_value_terms market.now x ++ penalty_terms market.now (rows_of market.now) x)) }
    ensures stops { (x : Dispatch) → map N.value flows.now ≡ flows_at market.now x → N.value values ≡ total (block_value_terms market.now x)
        → IfErr result (λ passed. IsWelfareRefusal market.now x N.bound (passed_at N.value passed)) }
{
    let _buses = market.buses();
    if !has_soft_limits(market) {
        return Ok(values);
    }
    let mut sum = values;
    for row in rows(market) {
        if is_soft(market, row) {
            sum = less_penalty(market, row, flows, sum)?;
        }
    }
    Ok(sum)
}

/// The worth of blocks and limits less what the accepted reserve costs, in the order of the offers.
fn less_reserve_costs<N: Exact>(
    market: &Market,
    reserve: &[N],
    of_energy: N,
) -> Result<N, Passed<N>>
    requires { length reserve.now ≡ length market.now.reserve.offers }
    ensures worth { (blocks : List Fraction) → let x = dispatch_with blocks (map N.value reserve.now) in N.value of_energy ≡ total (block_value_terms market.now x ++ penalty_terms market.now (rows_of market.now) x)
        → IfOk result (λ worth. N.value worth ≡ welfare_of market.now x) }
    ensures stops { (blocks : List Fraction) → let x = dispatch_with blocks (map N.value reserve.now) in N.value of_energy ≡ total (block_value_terms market.now x ++ penalty_terms market.now (rows_of market.now) x)
        → IfErr result (λ passed. IsRefusedAmong (WelfareSum market.now x) N.bound (passed_at N.value passed)) }
{
    let mut sum = of_energy;
    for (place, offer) in market.reserve().offers.slice().iter().enumerate() {
        sum = sum.plus_product(offer_value(offer), reserve[place])?;
    }
    Ok(sum)
}

/// What a dispatch is worth whose flows are known, by bus, by line and by outage of a unit: the value of what is bought less the cost of what is sold, in
/// block order, less the penalties of the limits that give way, in row order, and less what the accepted reserve costs, in the order of the
/// offers; in 10^-15. A limit that does not give way costs no arithmetic.
pub fn welfare<N: Exact>(
    market: &Market,
    dispatch: &[N],
    reserve: &[N],
    flows: &[N],
) -> Result<N, Passed<N>>
    requires dispatch { length dispatch.now ≡ length market.now.blocks }
    requires reserve { length reserve.now ≡ length market.now.reserve.offers }
    requires flows { map N.value flows.now ≡ flows_at market.now (dispatch_of N.value dispatch.now) }
    ensures worth { IfOk result (λ worth. N.value worth ≡ welfare_of market.now (dispatch_with (map N.value dispatch.now) (map N.value reserve.now))) }
    ensures stops { IfErr result (λ passed. IsWelfareRefusal market.now (dispatch_with (map N.value dispatch.now) (map N.value reserve.now)) N.bound (passed_at N.value passed)) }
{
    let of_blocks = values(market, dispatch)?;
    let of_energy = less_penalties(market, flows, of_blocks)?;
    less_reserve_costs(market, reserve, of_energy)
}
