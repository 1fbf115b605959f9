//! `residual_text`: the lines that tell residuals.

use factor_residuals::{Residual, Spot};
use residual_text::residuals_text;
use std::alloc::Global;

/// What a residual comes to whose greatest is the first beyond its bound, or where none is.
fn residual(value: i128, bound: i128, at: u32, is_over: bool) -> Residual {
    let spot = Spot {
        value,
        bound,
        at,
        of: 3,
    };
    Residual {
        most: Some(spot),
        over: if is_over { Some(spot) } else { None },
    }
}

const NONE: Residual = Residual {
    most: None,
    over: None,
};

/// Whether these residuals are told by this text.
fn are_told(alloc: Global, residuals: &[Residual; 4], want: &str) -> bool {
    let [bus, round, outage_bus, outage_round] = residuals;
    match residuals_text(alloc, bus, round, outage_bus, outage_round) {
        Ok(text) => text.as_slice() == want.as_bytes(),
        Err(_) => false,
    }
}

/// The residuals at buses are numbers of 10^-9, those round loops of 10^-27, and their bounds are in tenths of these.
#[test]
fn tells_residuals(rt: HostRuntime) {
    let tenth: i128 = 100_000_000_000_000_000_000_000_000;
    let residuals = [
        residual(10_000_000, 10_000, 1, true),
        residual(-tenth / 100, tenth / 50_000, 3, true),
        residual(-2, 10, 1, true),
        residual(1 - tenth, 5, 2, false),
    ];
    let want = "bus most 0.01 at 1 for 3
bus over 0.01 bound 0.000001 at 1 for 3
loop most -0.001 at 3 for 3
loop over -0.001 bound 0.0000002 at 3 for 3
outage bus most -0.000000002 at 1 for 3
outage bus over -0.000000002 bound 0.000000001 at 1 for 3
outage loop most -0.099999999999999999999999999 at 2 for 3
outage loop within
";
    assert!(rt; are_told(rt.alloc(), &residuals, want));
    let want = "bus none\nloop none\noutage bus none\noutage loop none\n";
    assert!(rt; are_told(rt.alloc(), &[NONE, NONE, NONE, NONE], want));
}
