//! The bound of a certificate where the need of reserve cannot be met, worked by hand.

ghost use Rattle.std.specs.Prelude.{◌≤ℤ◌, pos};

use crate::markets::needing;
use cert_sums::{NamedRoom, NamedRow, farkas_bound};
use exact_fraction::Frac;
use market_model::{Market, Stop, datum};
use std::alloc::Global;
use std::test::Fail;

/// The bound of prices of 0 but for a price of reserve of 1.
fn bound_of_the_need(alloc: Global, market: &Market) -> Result<Frac, Stop<Frac>> {
    let named: [NamedRow<Frac>; 0] = [];
    let rooms: [NamedRoom<Frac>; 0] = [];
    farkas_bound(alloc, market, datum(0), &named, datum(1), &rooms)
}

/// The same of the market with this need.
fn bound_at(alloc: Global, need: i64) -> Result<Frac, Stop<Frac>>
    requires { pos 0 ≤ℤ need }
{
    let market = needing(alloc, need)?;
    bound_of_the_need(alloc, &market)
}

/// The offers have 100 MW in all.
#[test]
fn a_need_beyond_all_offers(rt: HostRuntime) -> Result<(), Fail> {
    assert!(rt; bound_at(rt.alloc(), 110)? == datum(-10));
    assert!(rt; bound_at(rt.alloc(), 60)? == datum(40));
    Ok(())
}
