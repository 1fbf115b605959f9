//! Known basic variables are exchanged for others that are not known.

ghost use Rattle.std.specs.Prelude.{◌≡◌, ◌≢◌, ◌+◌, ◌<◌, ◌≤◌, List, Bool, IfOk, IfSome, false, length, pos, true};
ghost use Rattle.fraction_theory.specs.Fraction.{whole};
ghost use Rattle.linear_dict.specs.Dictionaries.{Dictionary, IsDictionary};
ghost use Rattle.linear_dict.specs.Tables.{cell};
ghost use Rattle.one_point.specs.Known.{AreAllMarked, IsSolvedBefore, LeavesOnePoint};

use exact_fraction::{Exact, Passed, Sign};
use linear_dict::Dict;

/// Whether a number is not 0.
fn is_not_zero<N: Exact>(number: N) -> bool
    ensures { result ≡ true → N.value number ≢ whole (pos 0) }
{
    match number.sign() {
        Sign::Zero => false,
        Sign::Below | Sign::Above => true,
    }
}

/// The first column place whose variable is not known and has an entry in the row of a place; nothing where there is none.
fn unknown_column<N: Exact>(dict: &Dict<N>, known: &[bool], row: usize) -> Option<usize>
    requires live { dict.now.spent ≡ false }
    requires row { row < length dict.now.basics }
    requires known { length known.now ≡ length dict.now.others }
    ensures { IfSome result (λ column. (column < length dict.now.others) × (cell (length dict.now.others) dict.now.table row column ≢ whole (pos 0))) }
{
    for column in 0..dict.column_count() {
        if !known[column] && is_not_zero(dict.entry(row, column)) {
            return Some(column);
        }
    }
    None
}

/// Exchanges the variable of a row place, which is known, for an other one that is not known, where the row has an entry there. After an error the
/// dictionary is of no use.
fn solve_row<N: Exact>(dict: &mut Dict<N>, known: &mut [bool], row: usize) -> Result<(), Passed<N>>
    requires row { (0 < row) × (row < length dict.old.basics) }
    requires solved { (d : Dictionary) × (marks : List Bool) × IsSolvedBefore d marks row dict.old known.old }
    ensures { (d : Dictionary) (marks : List Bool) → IsSolvedBefore d marks row dict.old known.old
        → IfOk result (λ _. IsSolvedBefore d marks (row + 1) dict.new known.new) }
{
    if let Some(column) = unknown_column(dict, known, row) {
        dict.pivot(row, column)?;
        known[column] = true;
    }
    Ok(())
}

/// Exchanges the variables of all rows behind the first one so.
fn solve<N: Exact>(dict: &mut Dict<N>, known: &mut [bool]) -> Result<(), Passed<N>>
    requires live { dict.old.spent ≡ false }
    requires sound { IsDictionary dict.old }
    requires known { length known.old ≡ length dict.old.others }
    ensures { IfOk result (λ _. IsSolvedBefore dict.old known.old (length dict.old.basics) dict.new known.new) }
{
    for row in 1..dict.row_count() {
        solve_row(dict, known, row)?;
    }
    Ok(())
}

/// Whether all are marked.
fn are_all_marked(known: &[bool]) -> bool
    ensures { result ≡ true → AreAllMarked known.now }
{
    for mark in known {
        if !*mark {
            return false;
        }
    }
    true
}

/// Whether the rows have one point at most where these other variables, by column place, and the basic variables of all rows behind the first one
/// are known. Where a number passes its bound on the way, the answer is no, which promises nothing. The dictionary is of no use afterwards.
pub fn leaves_one_point<N: Exact>(dict: &mut Dict<N>, known: &mut [bool]) -> bool
    requires live { dict.old.spent ≡ false }
    requires sound { IsDictionary dict.old }
    requires known { length known.old ≡ length dict.old.others }
    ensures { result ≡ true → LeavesOnePoint dict.old known.old }
{
    match solve(dict, known) {
        Ok(()) => are_all_marked(known),
        Err(_) => false,
    }
}
