//! What the cells of a row hold.

ghost use Rattle.std.specs.Prelude.{◌↔◌, ◌+◌, ◌*◌, ◌^◌, ◌<◌, ◌≤◌, IfOk, IsTrue, MatchResult, None, Some};
ghost use Rattle.scaled_decimal.specs.Reading.{HasSign};
ghost use Rattle.cost_reading.specs.CostRows.{HasCount, Says, cell, row_at};
ghost use Rattle.cost_reading.specs.Cells.{IsCountFault, IsMisread, IsSign};

use crate::RowFault;
use case_text::RawCosts;
use record_reading::Why;
use scaled_decimal::{Sign, read, sign_of};

/// Where a row says its cost's model.
pub const MODEL: usize = 1;

/// Where a row says how many parameters its cost has. They are in the columns behind this one.
pub const COUNT: usize = 4;

/// The number in a cell, in units of so many decimals.
pub fn number(costs: &RawCosts<'_>, row: usize, col: usize, places: u8) -> Result<i64, RowFault>
    requires place { (1 ≤ row) × (1 ≤ col) }
    requires places { places ≤ 18 }
    ensures { MatchResult result (Says (row_at costs.now row) col places) (IsMisread (row_at costs.now row) col (Some places)) }
{
    match read(costs.cell(row, col), places) {
        Ok(number) => Ok(number),
        Err(fault) => Err(RowFault::Cell {
            col,
            why: Why::Decimal(fault),
        }),
    }
}

/// The sign of the number in a cell.
pub fn sign(costs: &RawCosts<'_>, row: usize, col: usize) -> Result<Sign, RowFault>
    requires { (1 ≤ row) × (1 ≤ col) }
    ensures { MatchResult result (IsSign (row_at costs.now row) col) (IsMisread (row_at costs.now row) col None) }
{
    match sign_of(costs.cell(row, col)) {
        Ok(sign) => Ok(sign),
        Err(fault) => Err(RowFault::Cell {
            col,
            why: Why::Decimal(fault),
        }),
    }
}

/// Whether there are enough parameters, and enough cells for them, each of so many cells.
fn is_count(count: usize, least: usize, width: usize, cells: usize) -> bool
    requires { 1 ≤ width }
    ensures { IsTrue result ↔ (least ≤ count) × (4 + count * width ≤ cells) }
{
    least <= count && COUNT <= cells && count <= (cells - COUNT) / width
}

/// How many parameters a row has, each of so many cells, where there are so many at least.
pub fn count(
    costs: &RawCosts<'_>,
    row: usize,
    least: usize,
    width: usize,
) -> Result<usize, RowFault>
    requires row { 1 ≤ row }
    requires width { 1 ≤ width }
    ensures count { MatchResult result (HasCount (row_at costs.now row) least width) (IsCountFault (row_at costs.now row) least width) }

    // The columns of all of them are counted by 64 bits.
    ensures fits { IfOk result (λ n. 4 + n * width < 2 ^ 64) }
{
    let told = number(costs, row, COUNT, 0)?;
    if told < 0 {
        return Err(RowFault::Count);
    }
    let count = told as usize;
    if is_count(count, least, width, costs.cells(row)) {
        Ok(count)
    } else {
        Err(RowFault::Count)
    }
}
