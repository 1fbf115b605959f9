//! What may be wrong with the duals of a certificate, the first in its own order.

ghost use Rattle.std.specs.Prelude.{◌≡◌, ◌+◌, length, map, IfOk, IfErr};
ghost use Rattle.market_model.specs.Dispatch.{Dispatch};
ghost use Rattle.market_model.specs.PutIn.{AreCarried};
ghost use Rattle.market_model.specs.Valued.{dual_at, passed_at};
ghost use Rattle.cert_verify.specs.Reasons.{has_slack, row_reason, sign_reason, slack_reason};
ghost use Rattle.cert_verify.specs.Stops.{IsLimitPair};

use crate::Reason;
use crate::comparing::has_negative;
use crate::sides::breaks_row;
use exact_fraction::{Exact, Passed};
use limit_rows::{row_flow, row_named};
use market_model::{Dual, Market};

/// The first dual whose row the market has not.
pub(crate) fn missing_row<N: Exact>(market: &Market, limits: &[Dual<N>]) -> Option<Reason>
    ensures { result ≡ row_reason market.now (map (dual_at N.value) limits.now) }
{
    for dual in limits {
        if row_named(market, dual.row).is_none() {
            return Some(Reason::NoRow { row: dual.row });
        }
    }
    None
}

/// The first dual with a price below 0.
pub(crate) fn negative_price<N: Exact>(limits: &[Dual<N>]) -> Option<Reason>
    ensures { result ≡ sign_reason (map (dual_at N.value) limits.now) }
{
    for dual in limits {
        if has_negative(dual) {
            return Some(Reason::Sign { row: dual.row });
        }
    }
    None
}

/// Whether a price of a dual does not support the flow of its row. Flows are of what is carried.
fn has_slack<N: Exact>(market: &Market, carried: &[N], dual: &Dual<N>) -> Result<bool, Passed<N>>
    requires { length carried.now ≡ length market.now.lines + length market.now.unit_outages }
    ensures slack { (x : Dispatch) → AreCarried market.now x (map N.value carried.now) → IfOk result (λ slack. slack ≡ has_slack market.now x (dual_at N.value dual.now)) }
    ensures stops { (x : Dispatch) → AreCarried market.now x (map N.value carried.now) → IfErr result (λ passed. IsLimitPair market.now x N.bound (passed_at N.value passed)) }
{
    let _lines = market.lines();
    match row_named(market, dual.row) {
        Some(row) => {
            let flow = row_flow(market, carried, row)?;
            breaks_row(market, row, dual.up, dual.down, flow)
        }
        None => Ok(false),
    }
}

/// The first dual with such a price.
pub(crate) fn slack_price<N: Exact>(
    market: &Market,
    carried: &[N],
    limits: &[Dual<N>],
) -> Result<Option<Reason>, Passed<N>>
    requires { length carried.now ≡ length market.now.lines + length market.now.unit_outages }
    ensures first { (x : Dispatch) → AreCarried market.now x (map N.value carried.now) → IfOk result (λ reason. reason ≡ slack_reason market.now x (map (dual_at N.value) limits.now)) }
    ensures stops { (x : Dispatch) → AreCarried market.now x (map N.value carried.now) → IfErr result (λ passed. IsLimitPair market.now x N.bound (passed_at N.value passed)) }
{
    for dual in limits {
        let slack = has_slack(market, carried, dual)?;
        if slack {
            return Ok(Some(Reason::Slack { row: dual.row }));
        }
    }
    Ok(None)
}
