//! What may be wrong with the reserve that a certificate accepts, and with its price.

ghost use Rattle.std.specs.Prelude.{◌≡◌, List, length, map, IfOk, IfErr};
ghost use Rattle.fraction_theory.specs.Fraction.{Fraction};
ghost use Rattle.market_model.specs.declared.answered.Duals.{Duals};
ghost use Rattle.market_model.specs.Dispatch.{Dispatch, dispatch_with};
ghost use Rattle.market_model.specs.Reserves.{reserve};
ghost use Rattle.market_model.specs.SumTables.{IsRefusedAmong, WorthSum};
ghost use Rattle.market_model.specs.Valued.{passed_at};
ghost use Rattle.cert_sums.specs.Named.{AreNamedRooms};
ghost use Rattle.cert_verify.specs.Reasons.{is_slack, need_reason, need_sign_reason, need_slack_reason, reserve_reason, reserve_support_reason};

use crate::Reason;
use crate::comparing::{breaks_support, differ, is_below, is_negative, is_outside};
use cert_sums::{NamedRoom, reserve_worth};
use exact_fraction::{Exact, Passed};
use market_model::{Market, Side, datum, need_quantity, offer_price, offer_quantity};

/// Whether the price of reserve is below 0.
pub(crate) fn negative_need<N: Exact>(reserve_price: N) -> Option<Reason>
    ensures { result ≡ need_sign_reason (N.value reserve_price) }
{
    if is_negative(reserve_price) {
        Some(Reason::NeedSign)
    } else {
        None
    }
}

/// The first offer whose quantity is below 0 or above what it offers.
pub(crate) fn outside_offer<N: Exact>(market: &Market, quantities: &[N]) -> Option<Reason>
    requires { length quantities.now ≡ length market.now.reserve.offers }
    ensures { (blocks : List Fraction) → result ≡ reserve_reason market.now (dispatch_with blocks (map N.value quantities.now)) }
{
    for (at, offer) in market.reserve().offers.slice().iter().enumerate() {
        if is_outside(quantities[at], offer_quantity(offer)) {
            return Some(Reason::Reserve { n: at + 1 });
        }
    }
    None
}

/// Whether less reserve is accepted in all than is needed.
pub(crate) fn short_need<N: Exact>(market: &Market, accepted: N) -> Option<Reason>
    ensures { (x : Dispatch) → N.value accepted ≡ reserve market.now x → result ≡ need_reason market.now x }
{
    if is_below(accepted, need_quantity(market.reserve())) {
        Some(Reason::Need)
    } else {
        None
    }
}

/// Whether a price is above 0 of what is not used up.
pub(crate) fn is_slack<N: Exact>(price: N, used: N, all: N) -> bool
    ensures { result ≡ is_slack (N.value price) (N.value used) (N.value all) }
{
    is_below(datum(0), price) && differ(used, all)
}

/// Whether reserve has a price, and not just the need is accepted.
pub(crate) fn slack_need<N: Exact>(market: &Market, reserve_price: N, accepted: N) -> Option<Reason>
    ensures { (x : Dispatch) → N.value accepted ≡ reserve market.now x → result ≡ need_slack_reason market.now x (N.value reserve_price) }
{
    if is_slack(reserve_price, accepted, need_quantity(market.reserve())) {
        Some(Reason::NeedSlack)
    } else {
        None
    }
}

/// The first offer that is below what a MW of its unit's reserve is worth and not accepted whole, or above it and accepted. Rooms are those
/// that duals name, in the market's order.
pub(crate) fn unsupported_offer<N: Exact>(
    market: &Market,
    quantities: &[N],
    reserve_price: N,
    rooms: &[NamedRoom<N>],
) -> Result<Option<Reason>, Passed<N>>
    requires { length quantities.now ≡ length market.now.reserve.offers }
    ensures first { (d : Duals Fraction) (blocks : List Fraction) → N.value reserve_price ≡ d.reserve → AreNamedRooms N.value market.now d rooms.now → IfOk result (λ first. first ≡ reserve_support_reason market.now (dispatch_with blocks (map N.value quantities.now)) d) }
    ensures stops { (d : Duals Fraction) → N.value reserve_price ≡ d.reserve → AreNamedRooms N.value market.now d rooms.now → IfErr result (λ passed. IsRefusedAmong (WorthSum market.now d) N.bound (passed_at N.value passed)) }
{
    let _units = market.units();
    for (at, offer) in market.reserve().offers.slice().iter().enumerate() {
        let worth = reserve_worth(reserve_price, rooms, offer.unit)?;
        if breaks_support(
            Side::Sell,
            offer_price(offer),
            worth,
            offer_quantity(offer),
            quantities[at],
        ) {
            return Ok(Some(Reason::ReserveSupport { n: at + 1 }));
        }
    }
    Ok(None)
}
