//! The first limit of the market that a dispatch breaks, among all of them.

ghost use Rattle.std.specs.Prelude.{◌≡◌, ◌<◌, ◌+◌, length, map, Contains, IfOk, IfErr};
ghost use Rattle.market_model.specs.Dispatch.{Dispatch};
ghost use Rattle.market_model.specs.declared.limits.Row.{Row};
ghost use Rattle.market_model.specs.LimitRows.{IsCauseOf, rows};
ghost use Rattle.market_model.specs.PutIn.{AreCarried};
ghost use Rattle.market_model.specs.Valued.{passed_at};
ghost use Rattle.cert_verify.specs.Reasons.{is_overloaded, limit_reason};
ghost use Rattle.cert_verify.specs.Stops.{IsLimitPair};

use crate::Reason;
use crate::comparing::passes;
use exact_fraction::{Exact, Passed};
use limit_rows::{most_flow, name_at, row_flow, rows};
use market_model::{Market, Row};

/// Whether the flow of a row passes the most that it may be. Flows are of what is carried.
fn is_overloaded<N: Exact>(market: &Market, carried: &[N], row: Row) -> Result<bool, Passed<N>>
    requires carried { length carried.now ≡ length market.now.lines + length market.now.unit_outages }
    requires line { row.line < length market.now.lines }
    requires lost { IsCauseOf market.now row.cause }
    requires listed { Contains (rows market.now) row }
    ensures broken { (x : Dispatch) → AreCarried market.now x (map N.value carried.now) → IfOk result (λ broken. broken ≡ is_overloaded market.now x row) }
    ensures stops { (x : Dispatch) → AreCarried market.now x (map N.value carried.now) → IfErr result (λ passed. IsLimitPair market.now x N.bound (passed_at N.value passed)) }
{
    let flow = row_flow(market, carried, row)?;
    let most = most_flow(market, row)?;
    Ok(passes(flow, most))
}

/// The first row of the market, in its order, whose flow passes that.
pub(crate) fn broken_limit<N: Exact>(
    market: &Market,
    carried: &[N],
) -> Result<Option<Reason>, Passed<N>>
    requires { length carried.now ≡ length market.now.lines + length market.now.unit_outages }
    ensures first { (x : Dispatch) → AreCarried market.now x (map N.value carried.now) → IfOk result (λ first. first ≡ limit_reason market.now x) }
    ensures stops { (x : Dispatch) → AreCarried market.now x (map N.value carried.now) → IfErr result (λ passed. IsLimitPair market.now x N.bound (passed_at N.value passed)) }
{
    for row in rows(market) {
        if is_overloaded(market, carried, row)? {
            return Ok(Some(Reason::Limit {
                row: name_at(market, row),
            }));
        }
    }
    Ok(None)
}
