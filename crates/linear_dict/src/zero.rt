// Numbers that are 0: a product by one of them is left out.
ghost use Rattle.std.specs.Prelude.{◌≡◌, ◌↔◌, IsTrue, pos};
ghost use Rattle.fraction_theory.specs.Fraction.{whole};

use exact_fraction::{Exact, Sign};

/// Whether a number is 0.
pub(crate) fn is_zero<N: Exact>(number: N) -> bool
    ensures { IsTrue result ↔ (N.value number ≡ whole (pos 0)) }
{
    match number.sign() {
        Sign::Zero => true,
        Sign::Below | Sign::Above => false,
    }
}
