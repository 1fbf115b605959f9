//! One number of units for all that lies in a range.

ghost use Rattle.std.specs.Prelude.{◌≡◌, ℕ, pos, true, ◌<ℤ◌, IfSome};
ghost use Rattle.fraction_theory.specs.Fraction.{Fraction, whole, ◌*ℚ◌};
ghost use Rattle.fraction_theory.specs.Order.{◌≤ℚ◌};
ghost use Rattle.exact_fraction.specs.Nearest.{IsNearest, in_units};
ghost use Rattle.flow_guess.specs.Rounding.{RoundsUpTo, RoundsDownTo};

use crate::bounds::Range;

/// The number of units that the lower end is nearest to, of two that are as near the one farther from 0.
fn units_of(least: i128, part: i128) -> Option<i64>
    requires { pos 0 <ℤ part }
{
    let halves = least.checked_abs()?.checked_mul(2)?.checked_add(part)?;
    let units = i64::try_from(halves / part.checked_mul(2)?).ok()?;
    if least < 0 {
        units.checked_neg()
    } else {
        Some(units)
    }
}

/// Whether a range that begins there is nowhere nearer to fewer units.
fn is_low(units: i64, least: i128, part: i128) -> Option<bool>
    ensures { IfSome result (λ is. is ≡ true → RoundsUpTo units least part) }
{
    let edge = part.checked_mul(i128::from(units) * 2 - 1)?;
    let twice = least.checked_mul(2)?;
    if units > 0 {
        Some(edge <= twice)
    } else {
        Some(edge < twice)
    }
}

/// Whether a range that ends there is nowhere nearer to more units.
fn is_high(units: i64, most: i128, part: i128) -> Option<bool>
    ensures { IfSome result (λ is. is ≡ true → RoundsDownTo units most part) }
{
    let edge = part.checked_mul(i128::from(units) * 2 + 1)?;
    let twice = most.checked_mul(2)?;
    if units < 0 {
        Some(twice <= edge)
    } else {
        Some(twice < edge)
    }
}

/// The nearest number of units of so many parts for all that the range holds, where it is one.
pub(crate) fn nearest(range: &Range, part: i128) -> Option<i64>
    requires { pos 0 <ℤ part }
    ensures { (places : ℕ) (q : Fraction) → whole range.now.least ≤ℚ (whole part *ℚ in_units places q) → (whole part *ℚ in_units places q) ≤ℚ whole range.now.most
        → IfSome result (IsNearest places q) }
{
    let units = units_of(range.least, part)?;
    if is_low(units, range.least, part)? && is_high(units, range.most, part)? {
        Some(units)
    } else {
        None
    }
}
