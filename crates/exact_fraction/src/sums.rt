//! Sums and differences that are refused only where their value is too large.
ghost use Rattle.exact_fraction.specs.declared.Op.TheVariants as Op;
ghost use Rattle.exact_fraction.specs.Passes.{IsExactValue};

use crate::{Exact, Passed};

/// The exact sum, or, exactly where its value passes the bound in lowest terms, the two sides.
pub fn exact_sum<N: Exact>(left: N, right: N) -> Result<N, Passed<N>>
    ensures { IsExactValue N.value N.bound Op.Plus left right result }
{
    match left.plus(right) {
        Ok(sum) => Ok(sum),
        Err(passed) => match left.plus_product(N::of_parts(1, 1), right) {
            Ok(sum) => Ok(sum),
            Err(_) => Err(passed),
        },
    }
}

/// The exact difference, or, exactly where its value passes the bound in lowest terms, the two sides.
pub fn exact_difference<N: Exact>(left: N, right: N) -> Result<N, Passed<N>>
    ensures { IsExactValue N.value N.bound Op.Minus left right result }
{
    match left.minus(right) {
        Ok(difference) => Ok(difference),
        Err(passed) => match left.plus_product(N::of_parts(-1, 1), right) {
            Ok(difference) => Ok(difference),
            Err(_) => Err(passed),
        },
    }
}
