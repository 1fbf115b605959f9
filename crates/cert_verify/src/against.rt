//! The first reason against a certificate of either kind, in the order in which reasons are told.

ghost use Rattle.std.specs.Prelude.{◌≡◌, ◌∷◌, ◌++◌, [], List, length, map, not, IfOk, IfErr};
ghost use Rattle.fraction_theory.specs.Fraction.{Fraction};
ghost use Rattle.market_model.specs.declared.answered.Duals.{Duals};
ghost use Rattle.market_model.specs.declared.stops.Stop.TheVariants as stop;
ghost use Rattle.market_model.specs.Dispatch.{places, zero};
ghost use Rattle.market_model.specs.Optimality.{energy_worth};
ghost use Rattle.market_model.specs.Reserves.{reserve};
ghost use Rattle.market_model.specs.Stops.{StopsBy};
ghost use Rattle.market_model.specs.SumTables.{IsRefusedAmong, RoomSum};
ghost use Rattle.market_model.specs.Valued.{dual_at, passed_at};
ghost use Rattle.cert_format.specs.Certificates.{NamesNoRowTwice};
ghost use Rattle.cert_sums.specs.Named.{AreNamed, AreNamedRooms};
ghost use Rattle.cert_sums.specs.Pairs.{IsFarkasPair};
ghost use Rattle.cert_sums.specs.Refusals.{IsWorthRefusal};
ghost use Rattle.cert_verify.specs.Certified.{HasEachQuantity, certified_dispatch, certified_duals};
ghost use Rattle.cert_verify.specs.declared.verdicts.Reason.TheVariants as reason;
ghost use Rattle.cert_verify.specs.Reasons.{NoneOf, bound_reason, dual_reasons, farkas_reasons, first_of, flow_reasons, is_below, need_slack_reason, optimal_reasons, part_reasons, reserve_support_reason, room_slack_reason, support_reason, where_so};
ghost use Rattle.cert_verify.specs.Stops.{IsFarkasStop, IsOptimalStop};

use crate::Reason;
use crate::blocks::{other_count, outside_block, unsupported_block};
use crate::certified::{CertifiedDispatch, CertifiedDuals};
use crate::comparing::is_negative;
use crate::duals::{missing_row, negative_price};
use crate::flows::{carried_by, put_in, wrong_balance, wrong_price};
use crate::limits::broken_limit;
use crate::naming::named_rows;
use crate::offers::{negative_need, outside_offer, short_need, slack_need, unsupported_offer};
use crate::rooms::{missing_unit, named_rooms, negative_room, overfull_room, slack_room};
use cert_sums::{NamedRoom, NamedRow, energy_worth, farkas_bound};
use exact_fraction::{Exact, Passed};
use market_model::{List, Market, Memory, Stop, reserve_in_all};
use std::alloc::Global;

/// What may be wrong with the names and the signs of duals.
fn wrong_dual<N: Exact>(market: &Market, duals: &CertifiedDuals<'_, N>) -> Option<Reason>
    ensures { result ≡ first_of (dual_reasons market.now (certified_duals N.value duals.now)) }
{
    if let Some(reason) = missing_row(market, duals.limits) {
        return Some(reason);
    }
    if let Some(reason) = missing_unit(market, duals.rooms) {
        return Some(reason);
    }
    if let Some(reason) = negative_price(duals.limits) {
        return Some(reason);
    }
    if let Some(reason) = negative_need(duals.reserve_price) {
        return Some(reason);
    }
    negative_room(duals.rooms)
}

/// What may be wrong with the parts of a certificate before any sum is made of them.
fn wrong_part<N: Exact>(
    market: &Market,
    dispatch: &CertifiedDispatch<'_, N>,
    duals: &CertifiedDuals<'_, N>,
) -> Option<Reason>
    ensures { result ≡ first_of (part_reasons market.now (certified_dispatch N.value dispatch.now) (certified_duals N.value duals.now)) }
{
    if let Some(reason) = other_count(market, dispatch) {
        return Some(reason);
    }
    if let Some(reason) = wrong_dual(market, duals) {
        return Some(reason);
    }
    if let Some(reason) = outside_block(market, dispatch.blocks) {
        return Some(reason);
    }
    outside_offer(market, dispatch.quantities)
}

/// What may be wrong with the prices of reserve and of rooms, at what these come to. So much reserve is accepted in all.
fn wrong_slack<N: Exact>(
    market: &Market,
    dispatch: &CertifiedDispatch<'_, N>,
    duals: &CertifiedDuals<'_, N>,
    accepted: N,
) -> Result<Option<Reason>, Passed<N>>
    requires { HasEachQuantity market.now dispatch.now }
    ensures first { let x = certified_dispatch N.value dispatch.now in let d = certified_duals N.value duals.now in
        N.value accepted ≡ reserve market.now x → IfOk result (λ first. first ≡ first_of (need_slack_reason market.now x d.reserve ∷ room_slack_reason market.now x d.rooms ∷ [])) }
    ensures stops { IfErr result (λ passed. IsRefusedAmong (RoomSum market.now (certified_dispatch N.value dispatch.now)) N.bound (passed_at N.value passed)) }
{
    if let Some(reason) = slack_need(market, duals.reserve_price, accepted) {
        return Ok(Some(reason));
    }
    slack_room(market, dispatch, duals.rooms)
}

/// What may be wrong with the balance, the reserve, the flows and the rooms of a dispatch.
fn wrong_flow<N: Exact>(
    alloc: Global,
    market: &Market,
    dispatch: &CertifiedDispatch<'_, N>,
    duals: &CertifiedDuals<'_, N>,
) -> Result<Option<Reason>, Stop<N>>
    requires counted { HasEachQuantity market.now dispatch.now }
    requires distinct { NamesNoRowTwice (map (dual_at N.value) duals.now.limits.now) }
    ensures first { IfOk result (λ first. first ≡ first_of (flow_reasons market.now (certified_dispatch N.value dispatch.now) (certified_duals N.value duals.now))) }
    ensures stops { let x = certified_dispatch N.value dispatch.now in let d = certified_duals N.value duals.now in
        NoneOf (part_reasons market.now x d) → IfErr result (StopsBy N.value (IsOptimalStop market.now x d N.bound)) }
{
    let by_bus = put_in(alloc, market, dispatch.blocks)?;
    if let Some(reason) = wrong_balance(market, &by_bus)? {
        return Ok(Some(reason));
    }
    let accepted = reserve_in_all(dispatch.quantities)?;
    if let Some(reason) = short_need(market, accepted) {
        return Ok(Some(reason));
    }
    let carried = carried_by(alloc, market, dispatch.blocks, &by_bus)?;
    if let Some(reason) = broken_limit(market, &carried)? {
        return Ok(Some(reason));
    }
    if let Some(reason) = overfull_room(market, dispatch)? {
        return Ok(Some(reason));
    }
    if let Some(reason) = wrong_price(alloc, market, &carried, duals.limits)? {
        return Ok(Some(reason));
    }
    Ok(wrong_slack(market, dispatch, duals, accepted)?)
}

/// The rows and the rooms that duals name, in the market's order.
fn named_parts<N: Exact>(
    alloc: Global,
    market: &Market,
    duals: &CertifiedDuals<'_, N>,
) -> Result<(List<NamedRow<N>>, List<NamedRoom<N>>), Stop<N>>
    requires { NamesNoRowTwice (map (dual_at N.value) duals.now.limits.now) }
    ensures rows { IfOk result (λ p. AreNamed N.value market.now (certified_duals N.value duals.now) p.0) }
    ensures rooms { IfOk result (λ p. AreNamedRooms N.value market.now (certified_duals N.value duals.now) p.1) }
    ensures stops { IfErr result (λ why. why ≡ stop.Memory) }
{
    let rows = match named_rows(alloc, market, duals.limits) {
        Ok(rows) => rows,
        Err(Memory) => return Err(Stop::Memory),
    };
    match named_rooms(alloc, market, duals.rooms) {
        Ok(rooms) => Ok((rows, rooms)),
        Err(Memory) => Err(Stop::Memory),
    }
}

/// What a MW of the energy of each unit is worth, at rows and rooms that duals name.
fn energy_worths<N: Exact>(
    alloc: Global,
    market: &Market,
    energy: N,
    rows: &[NamedRow<N>],
    rooms: &[NamedRoom<N>],
) -> Result<List<N>, Stop<N>>
    requires { (d : Duals Fraction) × AreNamed N.value market.now d rows.now }
    ensures worths { (d : Duals Fraction) → N.value energy ≡ d.energy → AreNamed N.value market.now d rows.now → AreNamedRooms N.value market.now d rooms.now
        → IfOk result (λ worths. map N.value worths ≡ map (energy_worth market.now d) (places (length market.now.units))) }
    ensures stops { (d : Duals Fraction) → N.value energy ≡ d.energy → AreNamed N.value market.now d rows.now → AreNamedRooms N.value market.now d rooms.now
        → IfErr result (StopsBy N.value (IsWorthRefusal market.now d N.bound)) }
{
    let mut worths = List::new(alloc);
    for unit in 0..market.units().len() {
        let worth = energy_worth(market, energy, rows, rooms, unit)?;
        if worths.push(worth).is_err() {
            return Err(Stop::Memory);
        }
    }
    Ok(worths)
}

/// The first block, and then the first offer of reserve, that the duals do not support.
fn wrong_support<N: Exact>(
    alloc: Global,
    market: &Market,
    dispatch: &CertifiedDispatch<'_, N>,
    duals: &CertifiedDuals<'_, N>,
) -> Result<Option<Reason>, Stop<N>>
    requires counted { HasEachQuantity market.now dispatch.now }
    requires distinct { NamesNoRowTwice (map (dual_at N.value) duals.now.limits.now) }
    ensures first { let x = certified_dispatch N.value dispatch.now in let d = certified_duals N.value duals.now in
        IfOk result (λ first. first ≡ first_of (support_reason market.now x d ∷ reserve_support_reason market.now x d ∷ [])) }
    ensures stops { IfErr result (StopsBy N.value (IsWorthRefusal market.now (certified_duals N.value duals.now) N.bound)) }
{
    let (rows, named) = named_parts(alloc, market, duals)?;
    let worths = energy_worths(alloc, market, duals.energy, rows.slice(), named.slice())?;
    if let Some(reason) = unsupported_block(market, dispatch.blocks, worths.slice()) {
        return Ok(Some(reason));
    }
    Ok(unsupported_offer(
        market,
        dispatch.quantities,
        duals.reserve_price,
        named.slice(),
    )?)
}

/// The first reason against a dispatch and duals that are to support it.
pub(crate) fn against_optimal<N: Exact>(
    alloc: Global,
    market: &Market,
    dispatch: &CertifiedDispatch<'_, N>,
    duals: &CertifiedDuals<'_, N>,
) -> Result<Option<Reason>, Stop<N>>
    requires { NamesNoRowTwice (map (dual_at N.value) duals.now.limits.now) }
    ensures first { IfOk result (λ first. first ≡ first_of (optimal_reasons market.now (certified_dispatch N.value dispatch.now) (certified_duals N.value duals.now))) }
    ensures stops { IfErr result (StopsBy N.value (IsOptimalStop market.now (certified_dispatch N.value dispatch.now) (certified_duals N.value duals.now) N.bound)) }
{
    if let Some(reason) = wrong_part(market, dispatch, duals) {
        return Ok(Some(reason));
    }
    if let Some(reason) = wrong_flow(alloc, market, dispatch, duals)? {
        return Ok(Some(reason));
    }
    wrong_support(alloc, market, dispatch, duals)
}

/// Whether a bound is not below 0.
fn bound_told<N: Exact>(bound: N) -> Option<Reason>
    ensures { result ≡ where_so (not (is_below (N.value bound) zero)) reason.Bound }
{
    if is_negative(bound) {
        None
    } else {
        Some(Reason::Bound)
    }
}

/// Whether the bound of duals is not below 0.
fn wrong_bound<N: Exact>(
    alloc: Global,
    market: &Market,
    duals: &CertifiedDuals<'_, N>,
) -> Result<Option<Reason>, Stop<N>>
    requires { NamesNoRowTwice (map (dual_at N.value) duals.now.limits.now) }
    ensures first { IfOk result (λ first. first ≡ bound_reason market.now (certified_duals N.value duals.now)) }
    ensures stops { IfErr result (StopsBy N.value (IsFarkasPair market.now (certified_duals N.value duals.now) N.bound)) }
{
    let (rows, named) = named_parts(alloc, market, duals)?;
    let bound = farkas_bound(
        alloc,
        market,
        duals.energy,
        rows.slice(),
        duals.reserve_price,
        named.slice(),
    )?;
    Ok(bound_told(bound))
}

/// The first reason against duals that are to show that nothing is feasible.
pub(crate) fn against_farkas<N: Exact>(
    alloc: Global,
    market: &Market,
    duals: &CertifiedDuals<'_, N>,
) -> Result<Option<Reason>, Stop<N>>
    requires { NamesNoRowTwice (map (dual_at N.value) duals.now.limits.now) }
    ensures first { IfOk result (λ first. first ≡ first_of (farkas_reasons market.now (certified_duals N.value duals.now))) }
    ensures stops { IfErr result (StopsBy N.value (IsFarkasStop market.now (certified_duals N.value duals.now) N.bound)) }
{
    if let Some(reason) = wrong_dual(market, duals) {
        return Ok(Some(reason));
    }
    wrong_bound(alloc, market, duals)
}
