//! What the cells of a case hold.

ghost use Rattle.std.specs.Prelude.{◌≡◌, ◌≤◌, length, IfOk, IsTrue};
ghost use Rattle.market_data.specs.Participants.{IsDatum};
ghost use Rattle.case_text.specs.Matrices.{matrix_of};
ghost use Rattle.case_text.specs.Names.{is_matrix};
ghost use Rattle.net_case.specs.NetworkReading.{row_at, number_in, sign_at, service_in, few_rows};

use crate::live_parts::NetFault;
use case_text::{Field, RawCase};
use record_reading::Why;
use scaled_decimal::{Sign, read, sign_of};

/// The fault of a cell.
pub fn cell_fault(field: Field, row: usize, col: usize, why: Why) -> NetFault
    ensures { result ≡ NetFault.Cell field row col why }
{
    NetFault::Cell {
        field,
        row,
        col,
        why,
    }
}

/// The number in a cell, in units of so many decimals.
pub fn number(
    case: &RawCase<'_>,
    field: Field,
    row: usize,
    col: usize,
    decimals: u8,
) -> Result<i64, NetFault>
    requires matrix { IsTrue (is_matrix field) }
    requires place { (1 ≤ row) × (1 ≤ col) }
    requires decimals { decimals ≤ 18 }
    ensures datum { IfOk result IsDatum }
    ensures is { result ≡ number_in field row (row_at (matrix_of case.now field) row) col decimals }
{
    match read(case.cell(field, row, col), decimals) {
        Ok(number) => Ok(number),
        Err(fault) => Err(cell_fault(field, row, col, Why::Decimal(fault))),
    }
}

/// The sign of the number in a cell.
pub fn sign(case: &RawCase<'_>, field: Field, row: usize, col: usize) -> Result<Sign, NetFault>
    requires matrix { IsTrue (is_matrix field) }
    requires place { (1 ≤ row) × (1 ≤ col) }
    ensures { result ≡ sign_at field row (row_at (matrix_of case.now field) row) col }
{
    match sign_of(case.cell(field, row, col)) {
        Ok(sign) => Ok(sign),
        Err(fault) => Err(cell_fault(field, row, col, Why::Decimal(fault))),
    }
}

/// Whether the status in a cell is above 0.
pub fn in_service(
    case: &RawCase<'_>,
    field: Field,
    row: usize,
    col: usize,
) -> Result<bool, NetFault>
    requires matrix { IsTrue (is_matrix field) }
    requires place { (1 ≤ row) × (1 ≤ col) }
    ensures { result ≡ service_in field row (row_at (matrix_of case.now field) row) col }
{
    match sign(case, field, row, col)? {
        Sign::Above => Ok(true),
        Sign::Below | Sign::Zero => Ok(false),
    }
}

/// The number of rows of a matrix, which is at most so many.
#[tactic(auto, unfolding(crate::specs::NetworkReading::few_rows))]
pub fn row_count(case: &RawCase<'_>, field: Field, most: usize) -> Result<usize, NetFault>
    requires { IsTrue (is_matrix field) }
    ensures few { IfOk result (λ count. (count ≤ most) × (count ≡ length (matrix_of case.now field))) }
    ensures is { result ≡ few_rows most field (matrix_of case.now field) }
{
    let count = case.rows(field);
    if count > most {
        Err(NetFault::TooMany { field, count })
    } else {
        Ok(count)
    }
}
