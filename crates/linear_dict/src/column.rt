// A table with one more column at its end, of zeros.
ghost use Rattle.std.specs.Prelude.{◌≡◌, ◌+◌, ◌*◌, ◌<◌, ◌≤◌, ℕ, length, map, OnOk};
ghost use Rattle.std.specs.Vec.{vec_capacity, vec_len};
ghost use Rattle.linear_dict.specs.Tables.{cell, widened, widened_cell};

use exact_fraction::Exact;
use plain_list::Memory;

/// Makes room for one more item in each of so many rows. The items stay, whatever the answer.
pub(crate) fn make_room_for_column<N: Exact>(table: &mut Vec<N>, rows: usize) -> Result<(), Memory>
    ensures same { table.new.items ≡ table.old.items }
    ensures room { OnOk result (vec_len table.new + rows ≤ vec_capacity table.new) }
{
    match table.reserve(rows) {
        Ok(()) => Ok(()),
        Err(_) => Err(Memory),
    }
}

/// Moves a row to where it stands with one more column, where the rows behind it have moved, and puts a 0 behind it.
fn move_row<N: Exact>(table: &mut Vec<N>, columns: usize, row: usize)
    requires { row * columns + row + columns < length table.old.items }
    ensures count { length table.new.items ≡ length table.old.items }
    ensures below { (i j : ℕ) → i < row → j < columns → cell columns (map N.value table.new.items) i j ≡ cell columns (map N.value table.old.items) i j }
    ensures here { (j : ℕ) → j < columns + 1
        → cell (columns + 1) (map N.value table.new.items) row j ≡ widened_cell (cell columns (map N.value table.old.items)) columns row j }
    ensures behind { (i j : ℕ) → row < i → j < columns + 1
        → cell (columns + 1) (map N.value table.new.items) i j ≡ cell (columns + 1) (map N.value table.old.items) i j }
{
    let start = row * columns;
    let moved = start + row;
    table.copy_within(start..start + columns, moved);
    table[moved + columns] = N::of_parts(0, 1);
}

/// Puts in one more column at the end, of zeros, for which there is room: rows move from the last to the first.
pub(crate) fn widen_table<N: Exact>(table: &mut Vec<N>, rows: usize, columns: usize)
    requires size { length table.old.items ≡ rows * columns }
    requires room { vec_len table.old + rows ≤ vec_capacity table.old }
    ensures { map N.value table.new.items ≡ widened rows columns (map N.value table.old.items) }
{
    let zero = N::of_parts(0, 1);
    for _ in 0..rows {
        table.push_reserved(zero);
    }
    for k in 0..rows {
        move_row(table, columns, rows - 1 - k);
    }
}
