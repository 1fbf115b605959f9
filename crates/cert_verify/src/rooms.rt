//! What may be wrong with the rooms of a certificate, and those that its duals name in the market's order.

ghost use Rattle.std.specs.Prelude.{◌≡◌, ◌<◌, map, Contains, IfOk, IfErr};
ghost use Rattle.fraction_theory.specs.Fraction.{Fraction};
ghost use Rattle.market_model.specs.declared.answered.Duals.{Duals};
ghost use Rattle.market_model.specs.Optimality.{names_room};
ghost use Rattle.market_model.specs.SumTables.{IsRefusedAmong, RoomSum};
ghost use Rattle.market_model.specs.Valued.{passed_at, room_dual_at};
ghost use Rattle.cert_sums.specs.Named.{AreNamedRooms};
ghost use Rattle.cert_verify.specs.Certified.{HasEachQuantity, certified_dispatch};
ghost use Rattle.cert_verify.specs.Naming.{IsPriceOf};
ghost use Rattle.cert_verify.specs.Reasons.{has_offer, has_room_slack, room_reason, room_sign_reason, room_slack_reason, unit_reason};

use crate::Reason;
use crate::certified::CertifiedDispatch;
use crate::comparing::{is_below, is_negative};
use crate::offers::is_slack;
use cert_sums::NamedRoom;
use exact_fraction::{Exact, Passed};
use market_model::{List, Market, Memory, RoomDual, offers_reserve, room_quantity, room_used};
use std::alloc::Global;

/// Whether the unit of that gen row offers reserve.
fn has_offer(market: &Market, row: u32) -> bool
    ensures { result ≡ has_offer market.now row }
{
    for (at, unit) in market.units().slice().iter().enumerate() {
        if unit.row == row && offers_reserve(market, at) {
            return true;
        }
    }
    false
}

/// Whether duals name the room of the unit of that gen row.
fn is_named<N: Exact>(rooms: &[RoomDual<N>], row: u32) -> bool
    ensures { result ≡ names_room (map (room_dual_at N.value) rooms.now) row }
{
    for dual in rooms {
        if dual.unit == row {
            return true;
        }
    }
    false
}

/// The first dual whose unit offers no reserve, or is named again.
pub(crate) fn missing_unit<N: Exact>(market: &Market, rooms: &[RoomDual<N>]) -> Option<Reason>
    ensures { result ≡ unit_reason market.now (map (room_dual_at N.value) rooms.now) }
{
    for (at, dual) in rooms.iter().enumerate() {
        if !has_offer(market, dual.unit) || is_named(&rooms[at + 1..], dual.unit) {
            return Some(Reason::NoUnit { unit: dual.unit });
        }
    }
    None
}

/// The first dual with a price below 0.
pub(crate) fn negative_room<N: Exact>(rooms: &[RoomDual<N>]) -> Option<Reason>
    ensures { result ≡ room_sign_reason (map (room_dual_at N.value) rooms.now) }
{
    for dual in rooms {
        if is_negative(dual.price) {
            return Some(Reason::RoomSign { unit: dual.unit });
        }
    }
    None
}

/// The first unit that offers reserve and uses more than its room.
pub(crate) fn overfull_room<N: Exact>(
    market: &Market,
    dispatch: &CertifiedDispatch<'_, N>,
) -> Result<Option<Reason>, Passed<N>>
    requires { HasEachQuantity market.now dispatch.now }
    ensures first { IfOk result (λ first. first ≡ room_reason market.now (certified_dispatch N.value dispatch.now)) }
    ensures stops { IfErr result (λ passed. IsRefusedAmong (RoomSum market.now (certified_dispatch N.value dispatch.now)) N.bound (passed_at N.value passed)) }
{
    for (at, unit) in market.units().slice().iter().enumerate() {
        if offers_reserve(market, at) {
            let used = room_used(market, at, dispatch.blocks, dispatch.quantities)?;
            if is_below(room_quantity(market, at), used) {
                return Ok(Some(Reason::Room { unit: unit.row }));
            }
        }
    }
    Ok(None)
}

/// Whether a dual has a price above 0, and the room of its unit is not used up.
fn has_room_slack<N: Exact>(
    market: &Market,
    dispatch: &CertifiedDispatch<'_, N>,
    dual: &RoomDual<N>,
) -> Result<bool, Passed<N>>
    requires { HasEachQuantity market.now dispatch.now }
    ensures slack { IfOk result (λ slack. slack ≡ has_room_slack market.now (certified_dispatch N.value dispatch.now) (room_dual_at N.value dual.now)) }
    ensures stops { IfErr result (λ passed. IsRefusedAmong (RoomSum market.now (certified_dispatch N.value dispatch.now)) N.bound (passed_at N.value passed)) }
{
    for (at, unit) in market.units().slice().iter().enumerate() {
        if unit.row == dual.unit && offers_reserve(market, at) {
            let used = room_used(market, at, dispatch.blocks, dispatch.quantities)?;
            if is_slack(dual.price, used, room_quantity(market, at)) {
                return Ok(true);
            }
        }
    }
    Ok(false)
}

/// The first such dual.
pub(crate) fn slack_room<N: Exact>(
    market: &Market,
    dispatch: &CertifiedDispatch<'_, N>,
    rooms: &[RoomDual<N>],
) -> Result<Option<Reason>, Passed<N>>
    requires { HasEachQuantity market.now dispatch.now }
    ensures first { IfOk result (λ first. first ≡ room_slack_reason market.now (certified_dispatch N.value dispatch.now) (map (room_dual_at N.value) rooms.now)) }
    ensures stops { IfErr result (λ passed. IsRefusedAmong (RoomSum market.now (certified_dispatch N.value dispatch.now)) N.bound (passed_at N.value passed)) }
{
    for dual in rooms {
        let slack = has_room_slack(market, dispatch, dual)?;
        if slack {
            return Ok(Some(Reason::RoomSlack { unit: dual.unit }));
        }
    }
    Ok(None)
}

/// The price of the room of the unit of that gen row, where duals name it.
fn price_of<N: Exact>(rooms: &[RoomDual<N>], row: u32) -> Option<N>
    ensures { IsPriceOf N.value (map (room_dual_at N.value) rooms.now) row result }
{
    for dual in rooms {
        if dual.unit == row {
            return Some(dual.price);
        }
    }
    None
}

/// The units that offer reserve and whose rooms duals name, in the market's order, each with the price of its room.
pub(crate) fn named_rooms<N: Exact>(
    alloc: Global,
    market: &Market,
    rooms: &[RoomDual<N>],
) -> Result<List<NamedRoom<N>>, Memory>
    ensures { (d : Duals Fraction) → d.rooms ≡ map (room_dual_at N.value) rooms.now → IfOk result (λ named. AreNamedRooms N.value market.now d named) }
{
    let mut named = List::new(alloc);
    for (at, unit) in market.units().slice().iter().enumerate() {
        if offers_reserve(market, at) {
            if let Some(price) = price_of(rooms, unit.row) {
                named.push(NamedRoom { unit: at, price })?;
            }
        }
    }
    Ok(named)
}
