//! Whether two lists have the same numbers.

ghost use Rattle.std.specs.Prelude.{◌≡◌, IsTrue, map};

use exact_fraction::Exact;
use std::cmp::Ordering;

/// Whether two lists have the same numbers, place by place.
pub(crate) fn are_same<N: Exact>(one: &[N], other: &[N]) -> bool
    ensures { IsTrue result → map N.value one.now ≡ map N.value other.now }
{
    if one.len() != other.len() {
        return false;
    }
    for place in 0..one.len() {
        match one[place].order(other[place]) {
            Ordering::Equal => {}
            Ordering::Less | Ordering::Greater => return false,
        }
    }
    true
}
