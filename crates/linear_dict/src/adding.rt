// The table's entries of a row that is put in by its entries over the columns as put in.
ghost use Rattle.std.specs.Prelude.{◌≡◌, ℕ, ◌+◌, ◌*◌, ◌<◌, ◌≤◌, ◌++◌, length, map, IfErr, IfOk, pos};
ghost use Rattle.std.specs.Result.{OnOk};
ghost use Rattle.std.specs.Vec.{vec_len, vec_capacity};
ghost use Rattle.fraction_theory.specs.Fraction.{Fraction, whole, ◌+ℚ◌, ◌*ℚ◌};
ghost use Rattle.fraction_theory.specs.Sums.{sum_by};
ghost use Rattle.linear_dict.specs.Adding.{AreSums, AreInTable, IsWithin, row_term};
ghost use Rattle.linear_dict.specs.Causes.{IsRefused, MultipleShare, OnPassed, RowShare, TermShare};
ghost use Rattle.linear_dict.specs.Tables.{cell};

use crate::index::Variable;
use crate::place::Place;
use crate::zero::is_zero;
use exact_fraction::{Exact, Passed, exact_sum};
use plain_list::Memory;
use std::alloc::Global;

/// Why a row was not added.
#[derive(Clone, Copy, PartialEq, Debug)]
pub enum AddStop<N> {
    /// An operation whose outcome passes the bound of the numbers.
    Passed(Passed<N>),
    Memory,
}

impl<N> From<Memory> for AddStop<N> {
    ghost use Rattle.std.specs.Prelude.{◌≡◌};
    ghost use Rattle.linear_dict.specs.declared.adding.AddStop.TheVariants.{Memory as NoMemory};

    ghost from_gives = { λ _ stop. stop ≡ NoMemory };

    fn from(_: Memory) -> Self {
        AddStop::Memory
    }
}

impl<N> From<Passed<N>> for AddStop<N> {
    ghost use Rattle.std.specs.Prelude.{◌≡◌};
    ghost use Rattle.linear_dict.specs.declared.adding.AddStop.TheVariants.{Passed as StoppedBy};

    ghost from_gives = { λ passed stop. stop ≡ StoppedBy passed };

    fn from(passed: Passed<N>) -> Self {
        AddStop::Passed(passed)
    }
}

/// Makes room for one more name. The names stay, whatever the answer.
pub(crate) fn make_room_for_name(names: &mut Vec<u32>) -> Result<(), Memory>
    ensures same { names.new.items ≡ names.old.items }
    ensures room { OnOk result (vec_len names.new < vec_capacity names.new) }
{
    match names.reserve(1) {
        Ok(()) => Ok(()),
        Err(_) => Err(Memory),
    }
}

/// Makes room for one more row. The items stay, whatever the answer.
pub(crate) fn make_room<N: Exact>(
    rows: &mut Vec<u32>,
    basics: &mut Vec<u32>,
    coefficients: &mut Vec<N>,
    table: &mut Vec<N>,
    columns: usize,
) -> Result<(), Memory>
    ensures same { (rows.new.items ≡ rows.old.items) × (basics.new.items ≡ basics.old.items)
        × (coefficients.new.items ≡ coefficients.old.items) × (table.new.items ≡ table.old.items) }
    ensures room { OnOk result ((vec_len rows.new < vec_capacity rows.new) × (vec_len basics.new < vec_capacity basics.new)
        × (vec_len coefficients.new + columns ≤ vec_capacity coefficients.new) × (vec_len table.new + columns ≤ vec_capacity table.new)) }
{
    make_room_for_name(rows)?;
    make_room_for_name(basics)?;
    match coefficients.reserve(columns) {
        Ok(()) => {}
        Err(_) => return Err(Memory),
    }
    match table.reserve(columns) {
        Ok(()) => Ok(()),
        Err(_) => Err(Memory),
    }
}

/// Adds items at the end, for which there is room.
pub(crate) fn append<N: Exact>(list: &mut Vec<N>, items: &[N])
    requires { vec_len list.old + length items.now ≤ vec_capacity list.old }
    ensures { list.new.items ≡ list.old.items ++ items.now }
{
    if list.extend_from_slice(items).is_err() {
        unreachable!();
    }
}

/// So many zeros.
fn zeros<N: Exact>(alloc: Global, count: usize) -> Result<Vec<N>, Memory>
    ensures { IfOk result (λ sums. AreSums N.value sums.items count (λ _. whole (pos 0))) }
{
    let zero = N::of_parts(0, 1);
    let mut sums = Vec::new(alloc);
    for _ in 0..count {
        match sums.push(zero) {
            Ok(()) => {}
            Err(_) => return Err(Memory),
        }
    }
    Ok(sums)
}

/// Adds a multiple of a table's row, whose zeros add nothing.
fn add_multiple<N: Exact>(
    sums: &mut Vec<N>,
    table: &[N],
    columns: usize,
    row: usize,
    factor: N,
) -> Result<(), Passed<N>>
    requires room { row * columns + columns ≤ length table.now }
    requires count { length sums.old.items ≡ columns }
    ensures count { length sums.new.items ≡ columns }
    ensures added { IfOk result (λ _. (f : ℕ → Fraction) → AreSums N.value sums.old.items columns f
        → AreSums N.value sums.new.items columns (λ c. f c +ℚ N.value factor *ℚ cell columns (map N.value table.now) row c)) }
    ensures stops { IfErr result (λ e. (f : ℕ → Fraction) → AreSums N.value sums.old.items columns f
        → IsRefused N.value N.bound (MultipleShare columns f (N.value factor) (cell columns (map N.value table.now) row)) e) }
{
    let start = row * columns;
    for c in 0..columns {
        let other = table[start + c];
        if !is_zero(other) {
            let sum = sums[c].plus_product(factor, other)?;
            sums[c] = sum;
        }
    }
    Ok(())
}

/// Adds the terms of one variable: of a column its entry as put in, times its entries in the table. An entry of 0 adds
/// nothing.
fn add_term<N: Exact>(
    sums: &mut Vec<N>,
    table: &[N],
    columns: usize,
    entries: &[N],
    variable: Variable<N>,
) -> Result<(), Passed<N>>
    requires within { IsWithin (length table.now) columns (length entries.now) variable }
    requires count { length sums.old.items ≡ columns }
    ensures count { length sums.new.items ≡ columns }
    ensures added { IfOk result (λ _. (f : ℕ → Fraction) → AreSums N.value sums.old.items columns f
        → AreSums N.value sums.new.items columns (λ c. f c +ℚ row_term N.value columns table.now entries.now c variable)) }
    ensures stops { IfErr result (λ e. (f : ℕ → Fraction) → AreSums N.value sums.old.items columns f
        → IsRefused N.value N.bound (TermShare N.value columns table.now entries.now variable f) e) }
{
    match variable.put {
        Place::Row(_) => Ok(()),
        Place::Column(j) => {
            let entry = entries[j];
            if is_zero(entry) {
                return Ok(());
            }
            match variable.place {
                Place::Row(r) => add_multiple(sums, table, columns, r, entry),
                Place::Column(c) => {
                    let sum = exact_sum(sums[c], entry)?;
                    sums[c] = sum;
                    Ok(())
                }
            }
        }
    }
}

/// The table's entries of a row, each the sum of its terms in ascending order of the columns' names.
pub(crate) fn row_entries<N: Exact>(
    alloc: Global,
    variables: &[Variable<N>],
    table: &[N],
    columns: usize,
    entries: &[N],
) -> Result<Vec<N>, AddStop<N>>
    requires within { AreInTable (length table.now) columns (length entries.now) variables.now }
    ensures sums { IfOk result (λ sums. AreSums N.value sums.items columns
        (λ c. sum_by (row_term N.value columns table.now entries.now c) variables.now)) }
    ensures stops { IfErr result (λ stop. OnPassed stop
        (IsRefused N.value N.bound (RowShare N.value columns table.now entries.now variables.now))) }
{
    let mut sums = zeros(alloc, columns)?;
    for k in 0..variables.len() {
        add_term(&mut sums, table, columns, entries, variables[k])?;
    }
    Ok(sums)
}
