//! The rows that no dual of a certificate names, and whose flow exceeds its limit at a penalty.

ghost use Rattle.std.specs.Prelude.{◌≡◌, ◌<◌, ◌+◌, List, length, map, IfOk, IfErr};
ghost use Rattle.market_model.specs.Dispatch.{Dispatch};
ghost use Rattle.market_model.specs.LimitRows.{IsCauseOf, carried as carried_of};
ghost use Rattle.market_model.specs.PutIn.{AreCarried};
ghost use Rattle.market_model.specs.Stops.{StopsBy};
ghost use Rattle.market_model.specs.SumTables.{IsFlowRefusal};
ghost use Rattle.market_model.specs.Valued.{dual_at, passed_at};
ghost use Rattle.cert_format.specs.Certificates.{NamesNoRowTwice};
ghost use Rattle.cert_verify.specs.Naming.{entry_of};
ghost use Rattle.cert_verify.specs.Reasons.{is_unpriced, unpriced_reason};
ghost use Rattle.cert_verify.specs.Stops.{IsLimitPair};

use crate::Reason;
use crate::comparing::passes;
use crate::naming::{by_name, named_at};
use exact_fraction::{Exact, Passed};
use indexmap::IndexMap;
use limit_rows::{is_soft, limit_at, name_at, row_flow, rows};
use market_model::{Dual, Market, Memory, Row, Stop, datum};
use std::alloc::Global;

/// Whether no dual names a row and its flow exceeds its limit at a penalty; a hard limit has none. Flows are of what is carried, and duals by name.
fn is_unpriced<N: Exact>(
    market: &Market,
    carried: &[N],
    duals: &IndexMap<(u32, u32, u32), Dual<N>>,
    row: Row,
) -> Result<bool, Passed<N>>
    requires carried { length carried.now ≡ length market.now.lines + length market.now.unit_outages }
    requires line { row.line < length market.now.lines }
    requires lost { IsCauseOf market.now row.cause }
    ensures unpriced { (x : Dispatch) (ds : List (Dual N)) → AreCarried market.now x (map N.value carried.now) → duals.now.entries ≡ map entry_of ds → IfOk result (λ unpriced. unpriced ≡ is_unpriced market.now x (map (dual_at N.value) ds) row) }
    ensures stops { (x : Dispatch) → AreCarried market.now x (map N.value carried.now) → IfErr result (λ passed. IsFlowRefusal market.now (carried_of market.now x) row N.bound (passed_at N.value passed)) }
{
    let _lines = market.lines();
    if !is_soft(market, row) {
        return Ok(false);
    }
    if named_at(market, duals, row).is_some() {
        return Ok(false);
    }
    let flow = row_flow(market, carried, row)?;
    Ok(passes(flow, datum(limit_at(market, row))))
}

/// The first such row of the market, in its order.
fn first_unpriced<N: Exact>(
    market: &Market,
    carried: &[N],
    duals: &IndexMap<(u32, u32, u32), Dual<N>>,
) -> Result<Option<Reason>, Passed<N>>
    requires { length carried.now ≡ length market.now.lines + length market.now.unit_outages }
    ensures first { (x : Dispatch) (ds : List (Dual N)) → AreCarried market.now x (map N.value carried.now) → duals.now.entries ≡ map entry_of ds → IfOk result (λ first. first ≡ unpriced_reason market.now x (map (dual_at N.value) ds)) }
    ensures stops { (x : Dispatch) → AreCarried market.now x (map N.value carried.now) → IfErr result (λ passed. IsLimitPair market.now x N.bound (passed_at N.value passed)) }
{
    for row in rows(market) {
        if is_unpriced(market, carried, duals, row)? {
            return Ok(Some(Reason::Slack {
                row: name_at(market, row),
            }));
        }
    }
    Ok(None)
}

/// The same, of duals as they are listed.
pub(crate) fn unpriced_row<N: Exact>(
    alloc: Global,
    market: &Market,
    carried: &[N],
    limits: &[Dual<N>],
) -> Result<Option<Reason>, Stop<N>>
    requires carried { length carried.now ≡ length market.now.lines + length market.now.unit_outages }
    requires distinct { NamesNoRowTwice (map (dual_at N.value) limits.now) }
    ensures first { (x : Dispatch) → AreCarried market.now x (map N.value carried.now) → IfOk result (λ first. first ≡ unpriced_reason market.now x (map (dual_at N.value) limits.now)) }
    ensures stops { (x : Dispatch) → AreCarried market.now x (map N.value carried.now) → IfErr result (StopsBy N.value (IsLimitPair market.now x N.bound)) }
{
    let duals = match by_name(alloc, limits) {
        Ok(duals) => duals,
        Err(Memory) => return Err(Stop::Memory),
    };
    Ok(first_unpriced(market, carried, &duals)?)
}
