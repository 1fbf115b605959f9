//! Sizes of numbers.
ghost use Rattle.std.specs.Prelude.{◌≡◌};
ghost use Rattle.fraction_theory.specs.Signs.{abs_ℚ};

use crate::{Exact, Sign};

/// The size of a number: its distance from 0.
pub fn size<N: Exact>(x: N) -> N
    ensures { N.value result ≡ abs_ℚ (N.value x) }
{
    match x.sign() {
        Sign::Below => x.neg(),
        Sign::Zero | Sign::Above => x,
    }
}
