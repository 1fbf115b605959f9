//! Costs that are polynomials, of the second degree at most.

ghost use Rattle.std.specs.Prelude.{◌≡◌, ◌+◌, ◌<◌, ◌≤◌, ◌^◌, MatchResult, None, Some};
ghost use Rattle.cost_reading.specs.CostRows.{HasCount, HasModel, IsCoefficient, IsCostFault, IsCostOf, IsRowFault, degree_column, row_at};
ghost use Rattle.cost_reading.specs.Cells.{AreFactors, AreZeros, IsCoefficientFault, IsHigherFault};

use crate::cells::{COUNT, count, number, sign};
use crate::{CostFault, RowFault};
use case_text::RawCosts;
use cost_steps::{Cost, MOST_SQUARE};
use record_reading::Why;
use scaled_decimal::Sign;

/// How many decimals the square's coefficient has.
const SQUARE_PLACES: u8 = 15;

/// How many decimals the linear coefficient has.
const LINEAR_PLACES: u8 = 12;

/// What a polynomial multiplies an output's square and the output by.
#[derive(Clone, Copy, Debug)]
struct Factors {
    square: i64,
    linear: i64,
}

/// Where the coefficient of a degree is, of so many coefficients.
fn degree_column(count: usize, degree: usize) -> usize
    requires degree { degree ≤ 4 + count }
    requires fits { 4 + count < 2 ^ 64 }
    ensures { result ≡ degree_column count degree }
{
    COUNT + count - degree
}

/// The coefficient of a degree, in units of so many decimals, and 0 where there is none.
fn coefficient(
    costs: &RawCosts<'_>,
    row: usize,
    count: usize,
    degree: usize,
    places: u8,
) -> Result<i64, RowFault>
    requires row { 1 ≤ row }
    requires fits { 4 + count < 2 ^ 64 }
    requires places { places ≤ 18 }
    ensures { MatchResult result (IsCoefficient (row_at costs.now row) count degree places) (IsCoefficientFault (row_at costs.now row) count degree (Some places)) }
{
    if degree >= count {
        return Ok(0);
    }
    number(costs, row, degree_column(count, degree), places)
}

/// Passes over the coefficients of the third degree and of higher ones, which are 0.
fn pass_higher(costs: &RawCosts<'_>, row: usize, count: usize) -> Result<(), RowFault>
    requires row { 1 ≤ row }
    requires fits { 4 + count < 2 ^ 64 }
    ensures { MatchResult result (λ _. AreZeros (row_at costs.now row) count) (IsHigherFault (row_at costs.now row) count) }
{
    for degree in 3..count {
        match sign(costs, row, degree_column(count, degree))? {
            Sign::Zero => {}
            Sign::Below | Sign::Above => return Err(RowFault::Degree),
        }
    }
    Ok(())
}

/// The factors of a polynomial of so many coefficients, whose constant is any number.
fn read_factors(costs: &RawCosts<'_>, row: usize, count: usize) -> Result<Factors, RowFault>
    requires row { 1 ≤ row }
    requires fits { 4 + count < 2 ^ 64 }
    requires model { HasModel (row_at costs.now row) 2 }
    requires count { HasCount (row_at costs.now row) 1 1 count }
    ensures { MatchResult result (λ found. AreFactors (row_at costs.now row) count found.square found.linear) (IsRowFault (row_at costs.now row)) }
{
    pass_higher(costs, row, count)?;
    let square = coefficient(costs, row, count, 2, SQUARE_PLACES)?;
    let linear = coefficient(costs, row, count, 1, LINEAR_PLACES)?;
    let _constant = sign(costs, row, degree_column(count, 0))?;
    Ok(Factors { square, linear })
}

/// The cost of a row whose model is a polynomial.
pub fn polynomial(costs: &RawCosts<'_>, row: usize) -> Result<Cost, CostFault>
    requires row { 1 ≤ row }
    requires model { HasModel (row_at costs.now row) 2 }
    ensures { MatchResult result (IsCostOf (row_at costs.now row)) (IsCostFault (row_at costs.now row)) }
{
    let count = count(costs, row, 1, 1)?;
    let Factors { square, linear } = read_factors(costs, row, count)?;
    if square < 0 {
        return Err(CostFault::Slopes);
    }
    if square > MOST_SQUARE {
        let fault = RowFault::Cell {
            col: degree_column(count, 2),
            why: Why::Bounds,
        };
        return Err(CostFault::Row { fault });
    }
    Ok(Cost::Quadratic { square, linear })
}
