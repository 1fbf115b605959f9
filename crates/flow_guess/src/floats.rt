//! Floats of whole numbers, and whole numbers of floats.

use std::num::{nearest_i64_to_f64, saturating_f64_to_i64};

/// 2^42, in three steps of which a number of 126 bits is taken apart.
const STEP: f64 = 4398046511104.0;

/// The low 42 bits.
const LOW: i128 = 4398046511103;

fn small(n: i128) -> f64 {
    match i64::try_from(n) {
        Ok(n) => nearest_i64_to_f64(n),
        Err(_) => 0.0,
    }
}

/// The float near a whole number.
pub(crate) fn to_float(n: i128) -> f64 {
    let high = small(n >> 84);
    let middle = small((n >> 42) & LOW);
    let low = small(n & LOW);
    (high * STEP + middle) * STEP + low
}

/// The whole number near a float; any number where 126 bits do not hold it.
pub(crate) fn to_whole(x: f64) -> i128 {
    let high = saturating_f64_to_i64(x / STEP / STEP);
    let rest = x - nearest_i64_to_f64(high) * STEP * STEP;
    let middle = saturating_f64_to_i64(rest / STEP);
    let low = rest - nearest_i64_to_f64(middle) * STEP;
    let half = if low < 0.0 { -0.5 } else { 0.5 };
    let high = i128::from(high).wrapping_mul(LOW + 1);
    let middle = high.wrapping_add(i128::from(middle)).wrapping_mul(LOW + 1);
    middle.wrapping_add(i128::from(saturating_f64_to_i64(low + half)))
}

/// The size of a float.
pub(crate) fn size(x: f64) -> f64 {
    if x < 0.0 { -x } else { x }
}
