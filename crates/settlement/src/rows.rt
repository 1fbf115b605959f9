//! What the limits of rows earn.

ghost use Rattle.std.specs.Prelude.{◌≡◌, ◌⊎◌, ◌+◌, ◌<◌, length, map, IfOk, IfErr};
ghost use Rattle.fraction_theory.specs.Sums.{total};
ghost use Rattle.market_model.specs.LimitRows.{IsCauseOf};
ghost use Rattle.market_model.specs.NamedSums.{IsRefusedIn};
ghost use Rattle.market_model.specs.Optimality.{IsOneSided};
ghost use Rattle.market_model.specs.Overrun.{excess_by};
ghost use Rattle.market_model.specs.RightAnswers.{rent_by};
ghost use Rattle.market_model.specs.Settlement.{earned_terms, lower_terms, priced_flow, rent_terms_by, upper_terms};
ghost use Rattle.market_model.specs.SumTables.{IsRefusedAmong, PaidRowSum, PickupSum};
ghost use Rattle.market_model.specs.Valued.{dual_at, passed_at, rent_at};
ghost use Rattle.limit_screen.specs.Flows.{carried_at};

use exact_fraction::{Exact, Passed, Sign, exact_difference, exact_sum, size};
use limit_rows::{limit_at, row_flow, row_offset};
use limit_screen::{beyond, carried_flows};
use market_model::{Dual, Market, Rent, Row, datum};
use std::cmp::Ordering;

/// By how much a flow exceeds the limit of a row; 0 where it does not.
pub fn excess<N: Exact>(market: &Market, row: Row, flow: N) -> Result<N, Passed<N>>
    requires { row.line < length market.now.lines }
    ensures excess { IfOk result (λ excess. N.value excess ≡ excess_by market.now row (N.value flow)) }
    ensures fits { IfErr result (λ passed. ⊥) }
{
    match beyond(flow, datum(limit_at(market, row)))? {
        Some(over) => Ok(over),
        None => Ok(datum(0)),
    }
}

/// The MW for which the prices of a row are paid: its limit, or the size of its flow where that is greater. Nothing is added up for
/// it, so nothing is refused.
fn priced_flow<N: Exact>(market: &Market, row: Row, flow: N) -> N
    requires { row.line < length market.now.lines }
    ensures { N.value result ≡ priced_flow market.now row (N.value flow) }
{
    let limit: N = datum(limit_at(market, row));
    let size = size(flow);
    match size.order(limit) {
        Ordering::Greater => size,
        Ordering::Less | Ordering::Equal => limit,
    }
}

/// What a limit earns with the one of its two prices that is not 0: on the upper side for so many MW less the fixed offset of the
/// flow, on the lower side for the two together.
fn earned<N: Exact>(dual: &Dual<N>, priced: N, offset: N) -> Result<N, Passed<N>>
    requires { IsOneSided (dual_at N.value dual.now) }
    ensures rent { IfOk result (λ rent. N.value rent ≡ total (earned_terms (N.value dual.now.up) (N.value dual.now.down) (N.value priced) (N.value offset))) }
    ensures stops { IfErr result (λ passed. IsRefusedIn (upper_terms (N.value priced) (N.value offset)) N.bound (passed_at N.value passed)
        ⊎ IsRefusedIn (lower_terms (N.value priced) (N.value offset)) N.bound (passed_at N.value passed)
        ⊎ IsRefusedIn (earned_terms (N.value dual.now.up) (N.value dual.now.down) (N.value priced) (N.value offset)) N.bound (passed_at N.value passed)) }
{
    match dual.down.sign() {
        Sign::Zero => {
            let room = exact_difference(priced, offset)?;
            dual.up.times(room)
        }
        Sign::Below | Sign::Above => {
            let room = exact_sum(priced, offset)?;
            dual.down.times(room)
        }
    }
}

/// The flow of a row, of flows by bus, by line and by outage of a unit, by how much it exceeds the limit, and what that earns at the prices of a dual.
pub fn row_rent<N: Exact>(
    market: &Market,
    row: Row,
    dual: &Dual<N>,
    flows: &[N],
) -> Result<Rent<N>, Passed<N>>
    requires line { row.line < length market.now.lines }
    requires lost { IsCauseOf market.now row.cause }
    requires one_sided { IsOneSided (dual_at N.value dual.now) }
    requires flows { length flows.now ≡ length market.now.buses + length market.now.lines + length market.now.unit_outages }
    ensures rent { IfOk result (λ rent. rent_at N.value rent ≡ rent_by market.now (carried_at market.now (map N.value flows.now)) (dual_at N.value dual.now) row) }
    ensures stops { let carried = carried_at market.now (map N.value flows.now) in IfErr result (λ passed. IsRefusedAmong (PaidRowSum market.now carried row) N.bound (passed_at N.value passed)
        ⊎ IsRefusedIn (rent_terms_by market.now carried row (N.value dual.now.up) (N.value dual.now.down)) N.bound (passed_at N.value passed)
        ⊎ IsRefusedAmong (PickupSum market.now row) N.bound (passed_at N.value passed)) }
{
    let flow = row_flow(market, carried_flows(market, flows), row)?;
    let over = excess(market, row, flow)?;
    let offset = row_offset(market, row)?;
    let rent = earned(dual, priced_flow(market, row, flow), offset)?;
    Ok(Rent {
        row: dual.row,
        flow,
        over,
        rent,
    })
}
