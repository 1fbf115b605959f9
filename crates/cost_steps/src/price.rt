//! Slopes that are rounded to a whole number of units.

ghost use Rattle.std.specs.Prelude.{◌<◌, ◌≤◌, ◌+◌, ◌*◌, ◌^◌, unsigned_abs, MatchOption};
ghost use Rattle.fraction_theory.specs.Fraction.{over};
ghost use Rattle.cost_steps.specs.Rounding.{IsBeyond, IsRounded};

/// The nearest whole number to a fraction, and whether it is that fraction.
#[derive(Clone, Copy, PartialEq, Eq, Debug)]
pub struct Rounded {
    pub number: i64,
    pub exact: bool,
}

/// The nearest whole number to `size / run`, upward where two are as near.
fn nearest_size(size: u128, run: u128) -> u128
    requires size { size < 2 ^ 127 }
    requires run { 0 < run }
    ensures not_above { 2 * (result * run) ≤ 2 * size + run }
    ensures below_next { 2 * size < 2 * (result * run) + run }
{
    let quotient = size / run;
    let rest = size % run;
    if rest >= run - rest {
        quotient + 1
    } else {
        quotient
    }
}

/// The nearest whole number to `rise / run`, the one farther from 0 where two are as near. Nothing where 63 bits do not hold it.
pub fn nearest(rise: i128, run: u64) -> Option<Rounded>
    requires rise { unsigned_abs rise < 2 ^ 127 }
    requires run { 0 < run }
    ensures { MatchOption result (IsBeyond (over rise run)) (IsRounded (over rise run)) }
{
    let size = rise.unsigned_abs();
    let divisor = u128::from(run);
    let rounded = nearest_size(size, divisor);
    if rounded >= 1 << 63 {
        return None;
    }
    let exact = rounded * divisor == size;
    let number = rounded as i64;
    if rise < 0 {
        Some(Rounded {
            number: -number,
            exact,
        })
    } else {
        Some(Rounded { number, exact })
    }
}
