//! `case_maker`: the ring of four buses of a seed, with values of a separate program of the generator's formula.

use case_maker::ring;
use market_model::Market;
use std::process::Abort;
use std::test::Fail;

/// Whether the buses have these loads.
fn has_loads(market: &Market) -> bool {
    match market.buses().slice() {
        [one, two, three, four] => {
            [one.pd, two.pd, three.pd, four.pd].as_slice()
                == [
                    29_000_000_000,
                    25_000_000_000,
                    39_000_000_000,
                    21_000_000_000,
                ]
                .as_slice()
        }
        _ => false,
    }
}

/// Whether the first three units ask these prices, and the fourth this one for its second block.
fn has_prices(market: &Market) -> bool {
    match market.blocks().slice() {
        [a, b, c, d, e, f, _, h] => {
            [
                a.price, b.price, c.price, d.price, e.price, f.price, h.price,
            ]
            .as_slice()
                == [
                    28_000_000,
                    31_000_000,
                    87_000_000,
                    101_000_000,
                    60_000_000,
                    105_000_000,
                    141_000_000,
                ]
                .as_slice()
        }
        _ => false,
    }
}

/// Whether the first three branches have these limits in the base.
fn has_base_limits(market: &Market) -> bool {
    match market.lines().slice() {
        [one, two, three, _] => {
            one.base == Some(53_000_000_000)
                && two.base == Some(24_000_000_000)
                && three.base == Some(55_000_000_000)
        }
        _ => false,
    }
}

/// Whether all branches have these limits after an outage.
fn has_post_limits(market: &Market) -> bool {
    match market.lines().slice() {
        [one, two, three, four] => {
            one.post == Some(73_000_000_000)
                && two.post == Some(44_000_000_000)
                && three.post == Some(75_000_000_000)
                && four.post == Some(42_000_000_000)
        }
        _ => false,
    }
}

/// Compares the market of a ring.
fn compare(rt: &impl Abort, market: &Market) {
    assert!(rt; has_loads(market));
    assert!(rt; has_prices(market));
    assert!(rt; has_base_limits(market));
    assert!(rt; has_post_limits(market));
    assert_eq!(rt; market.outages().slice(), [1, 2, 3, 4].as_slice());
    assert_eq!(rt; market.buses().len(), 4);
    assert_eq!(rt; market.lines().len(), 4);
    assert_eq!(rt; market.shift(2, 3), -250_000_000);
}

#[test]
fn makes_a_ring_of_four(rt: HostRuntime) -> Result<(), Fail> {
    let market = ring(rt.alloc(), 4, 7)?;
    compare(&rt, &market);
    Ok(())
}
