//! Tests of numbers.

ghost use Rattle.std.specs.Prelude.{◌≡◌, pos};
ghost use Rattle.fraction_theory.specs.Fraction.{whole};
ghost use Rattle.market_data.specs.Participants.{IsDatum};
ghost use Rattle.market_model.specs.Valued.{dual_at};
ghost use Rattle.cert_verify.specs.Reasons.{breaks_support, differ, has_negative, is_below, is_gaining, is_losing, is_outside, passes};

use exact_fraction::Exact;
use market_model::{Dual, Side, datum};
use std::cmp::Ordering;

pub(crate) fn is_below<N: Exact>(left: N, right: N) -> bool
    ensures { result ≡ is_below (N.value left) (N.value right) }
{
    match left.order(right) {
        Ordering::Less => true,
        Ordering::Equal | Ordering::Greater => false,
    }
}

pub(crate) fn differ<N: Exact>(left: N, right: N) -> bool
    ensures { result ≡ differ (N.value left) (N.value right) }
{
    match left.order(right) {
        Ordering::Equal => false,
        Ordering::Less | Ordering::Greater => true,
    }
}

/// Whether a number is below 0.
pub(crate) fn is_negative<N: Exact>(number: N) -> bool
    ensures { result ≡ is_below (N.value number) (whole (pos 0)) }
{
    is_below(number, datum(0))
}

/// Whether a flow passes a limit on either side.
pub(crate) fn passes<N: Exact>(flow: N, limit: N) -> bool
    ensures { result ≡ passes (N.value flow) (N.value limit) }
{
    is_below(flow, limit.neg()) || is_below(limit, flow)
}

/// Whether accepted MW are below 0 or above a quantity.
pub(crate) fn is_outside<N: Exact>(mw: N, quantity: N) -> bool
    ensures { result ≡ is_outside (N.value mw) (N.value quantity) }
{
    is_negative(mw) || is_below(quantity, mw)
}

/// Whether a price of a dual is below 0.
pub(crate) fn has_negative<N: Exact>(dual: &Dual<N>) -> bool
    ensures { result ≡ has_negative (dual_at N.value dual.now) }
{
    is_negative(dual.up) || is_negative(dual.down)
}

/// Whether more of a block of this side and price gains, where the price of its unit is so much.
fn is_gaining<N: Exact>(side: Side, price: N, worth: N) -> bool
    ensures { result ≡ is_gaining side (N.value price) (N.value worth) }
{
    match side {
        Side::Sell => is_below(price, worth),
        Side::Buy => is_below(worth, price),
    }
}

/// Whether any of it loses.
fn is_losing<N: Exact>(side: Side, price: N, worth: N) -> bool
    ensures { result ≡ is_losing side (N.value price) (N.value worth) }
{
    match side {
        Side::Sell => is_below(worth, price),
        Side::Buy => is_below(price, worth),
    }
}

/// Whether a block gains and is not accepted whole, or loses and is accepted.
pub(crate) fn breaks_support<N: Exact>(side: Side, price: N, worth: N, quantity: N, mw: N) -> bool
    ensures { result ≡ breaks_support side (N.value price) (N.value worth) (N.value quantity) (N.value mw) }
{
    (is_gaining(side, price, worth) && differ(mw, quantity))
        || (is_losing(side, price, worth) && differ(mw, datum(0)))
}
