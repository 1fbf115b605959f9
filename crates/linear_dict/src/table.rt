// The pivot of a table in a flat vector, row by row, in place.
ghost use Rattle.std.specs.Prelude.{◌≡◌, ◌≢◌, ℕ, ◌+◌, ◌*◌, ◌<◌, ◌≤◌, length, map, pos, IfErr, IfOk};
ghost use Rattle.std.specs.Vec.{vec_capacity};
ghost use Rattle.fraction_theory.specs.Fraction.{whole};
ghost use Rattle.linear_dict.specs.Causes.{ClearShare, IsRefused, PivotShare, SolveShare};
ghost use Rattle.linear_dict.specs.Changes.{AreChanges, place_of};
ghost use Rattle.linear_dict.specs.Tables.{cell, table_of, pivoted_cell, solved_cell, cleared_cell, Shows};

use crate::changes::{Change, MadeSum, list_changes, sum_at};
use crate::zero::is_zero;
use exact_fraction::{Exact, Passed};

/// Solves a row for the variable of a column: its other entries are divided by the one there and negated, and that one
/// becomes its inverse. Zeros stay.
fn solve_row<N: Exact>(
    table: &mut Vec<N>,
    columns: usize,
    row: usize,
    column: usize,
) -> Result<(), Passed<N>>
    requires room { row * columns + columns ≤ length table.old.items }
    requires within { column < columns }
    requires entry { cell columns (map N.value table.old.items) row column ≢ whole (pos 0) }
    ensures count { length table.new.items ≡ length table.old.items }
    ensures solved { IfOk result (λ _. (rows : ℕ) → length table.old.items ≡ rows * columns
        → Shows rows columns (map N.value table.new.items) (solved_cell (cell columns (map N.value table.old.items)) row column)) }
    ensures stops { IfErr result (λ e. (rows : ℕ) → length table.old.items ≡ rows * columns
        → IsRefused N.value N.bound (SolveShare columns (cell columns (map N.value table.old.items)) row column) e) }
{
    let start = row * columns;
    let inverse = table[start + column].recip();
    for j in 0..columns {
        let entry = table[start + j];
        if j != column && !is_zero(entry) {
            let divided = entry.neg().times(inverse)?;
            table[start + j] = divided;
        }
    }
    table[start + column] = inverse;
    Ok(())
}

/// Puts a solved row into another one: to each entry the one at the column times the solved row's is added, and the one
/// at the column is multiplied by the solved row's. Where either factor is 0, the entry stays.
fn clear_row<N: Exact>(
    table: &mut Vec<N>,
    columns: usize,
    row: usize,
    solved: usize,
    column: usize,
    changes: &mut Vec<Change<N>>,
) -> Result<(), Passed<N>>
    requires room { row * columns + columns ≤ length table.old.items }
    requires solved_room { solved * columns + columns ≤ length table.old.items }
    requires other { row ≢ solved }
    requires within { column < columns }
    requires listed { AreChanges columns column (cell columns (map N.value table.old.items) solved) (map place_of changes.old.items) }
    ensures count { length table.new.items ≡ length table.old.items }
    ensures places { map place_of changes.new.items ≡ map place_of changes.old.items }
    ensures capacity { vec_capacity changes.new ≡ vec_capacity changes.old }
    ensures cleared { IfOk result (λ _. (rows : ℕ) → length table.old.items ≡ rows * columns
        → Shows rows columns (map N.value table.new.items) (cleared_cell (cell columns (map N.value table.old.items)) row solved column)) }
    ensures stops { IfErr result (λ e. (rows : ℕ) → length table.old.items ≡ rows * columns
        → IsRefused N.value N.bound (ClearShare columns (cell columns (map N.value table.old.items)) row solved column) e) }
{
    let start = row * columns;
    let solved_start = solved * columns;
    let factor = table[start + column];
    if is_zero(factor) {
        return Ok(());
    }
    for n in 0..changes.len() {
        let place = changes[n].place;
        let here = start + place;
        let entry = table[here];
        let other = table[solved_start + place];
        let outcome = sum_at(changes, n, entry, factor, other)?;
        changes[n].made = MadeSum {
            entry,
            other,
            outcome,
        };
        table[here] = outcome;
    }
    let last = factor.times(table[solved_start + column])?;
    table[start + column] = last;
    Ok(())
}

/// Exchanges the variables of a row and of a column. After a refusal nothing is known of the entries. It lists in
/// `changes` the columns that it changes, for which there is room, so that no memory is taken.
pub(crate) fn pivot_table<N: Exact>(
    table: &mut Vec<N>,
    rows: usize,
    columns: usize,
    row: usize,
    column: usize,
    changes: &mut Vec<Change<N>>,
    is_widened: bool,
) -> Result<(), Passed<N>>
    requires size { length table.old.items ≡ rows * columns }
    requires row { row < rows }
    requires within { column < columns }
    requires entry { cell columns (map N.value table.old.items) row column ≢ whole (pos 0) }
    requires changes { columns ≤ vec_capacity changes.old }
    ensures count { length table.new.items ≡ length table.old.items }
    ensures capacity { vec_capacity changes.new ≡ vec_capacity changes.old }
    ensures pivoted { IfOk result (λ _. map N.value table.new.items
        ≡ table_of rows columns (pivoted_cell (cell columns (map N.value table.old.items)) row column)) }
    ensures stops { IfErr result (IsRefused N.value N.bound (PivotShare rows columns (cell columns (map N.value table.old.items)) row column)) }
{
    solve_row(table, columns, row, column)?;
    list_changes(changes, table, columns, row, column, is_widened);
    for i in 0..rows {
        if i != row {
            clear_row(table, columns, i, row, column, changes)?;
        }
    }
    Ok(())
}
