// The columns that a pivot changes.
ghost use Rattle.std.specs.Prelude.{◌≡◌, ℕ, ◌+◌, ◌*◌, ◌<◌, ◌≤◌, length, map, slice_index_or, OnOk};
ghost use Rattle.std.specs.Vec.{vec_capacity};
ghost use Rattle.exact_fraction.specs.Passes.{IsExactWith};
ghost use Rattle.linear_dict.specs.Changes.{AreChanges, AreSumsBelow, IsTwin, place_of};
ghost use Rattle.linear_dict.specs.Tables.{cell};

use crate::zero::is_zero;
use exact_fraction::{Exact, Passed};
use plain_list::Memory;

/// A sum `entry + factor * other` that was made, with the factor of the row that is cleared.
#[derive(Clone, Copy)]
pub(crate) struct MadeSum<N> {
    pub(crate) entry: N,
    pub(crate) other: N,
    pub(crate) outcome: N,
}

/// A column that a pivot changes, since the solved row is not 0 there.
#[derive(Clone, Copy)]
pub(crate) struct Change<N> {
    pub(crate) place: usize,
    /// An earlier change where the solved row is the same or the opposite, or one that is not earlier. It is only a
    /// hint: whoever follows it looks whether the sums are the same.
    pub(crate) twin: usize,
    /// What was made here of the row cleared last, and before any is cleared the solved row's entry, as each of the three.
    pub(crate) made: MadeSum<N>,
}

/// Makes room for a list of so many changes. What room there is stays, whatever the answer.
pub(crate) fn make_room_for_changes<N: Exact>(
    changes: &mut Vec<Change<N>>,
    count: usize,
) -> Result<(), Memory>
    ensures kept { vec_capacity changes.old ≤ vec_capacity changes.new }
    ensures room { OnOk result (count ≤ vec_capacity changes.new) }
{
    match changes.reserve(count) {
        Ok(()) => Ok(()),
        Err(_) => Err(Memory),
    }
}

/// The first change where the solved row has this entry or its opposite, or the number of changes where there is none.
fn twin_of<N: Exact>(changes: &[Change<N>], entry: N) -> usize
    ensures { (d : Change N) → result < length changes.now → IsTwin N.value entry (slice_index_or changes.now result d) }
{
    let opposite = entry.neg();
    for (n, change) in changes.iter().enumerate() {
        let other = change.made.other;
        if other.is_same(entry) || other.is_same(opposite) {
            return n;
        }
    }
    changes.len()
}

/// Lists the columns but the pivot's own at which the solved row is not 0, in place of what was listed before. Only a
/// table to which a column was added is searched for twins, since each other one has hardly any.
pub(crate) fn list_changes<N: Exact>(
    changes: &mut Vec<Change<N>>,
    table: &[N],
    columns: usize,
    solved: usize,
    column: usize,
    is_widened: bool,
)
    requires row { solved * columns + columns ≤ length table.now }
    requires room { columns ≤ vec_capacity changes.old }
    ensures capacity { vec_capacity changes.new ≡ vec_capacity changes.old }
    ensures listed { AreChanges columns column (cell columns (map N.value table.now) solved) (map place_of changes.new.items) }
{
    let start = solved * columns;
    changes.clear();
    for place in 0..columns {
        let entry = table[start + place];
        if place != column && !is_zero(entry) {
            let twin = if is_widened {
                twin_of(changes, entry)
            } else {
                changes.len()
            };
            let made = MadeSum {
                entry,
                other: entry,
                outcome: entry,
            };
            changes.push_reserved(Change { place, twin, made });
        }
    }
}

/// `entry + factor * other` at the change of this place in the list. Where both are those of the sum made at its twin,
/// or the opposites of both, the outcome is that one or its opposite, and nothing is multiplied.
pub(crate) fn sum_at<N: Exact>(
    changes: &[Change<N>],
    n: usize,
    entry: N,
    factor: N,
    other: N,
) -> Result<N, Passed<N>>
    requires within { n < length changes.now }
    requires made { AreSumsBelow N.value factor changes.now n }
    ensures { IsExactWith N.value N.bound entry factor other result }
{
    let twin = changes[n].twin;
    if twin < n {
        let made = changes[twin].made;
        if other.is_same(made.other) {
            if entry.is_same(made.entry) {
                return Ok(made.outcome);
            }
        } else if other.neg().is_same(made.other) && entry.neg().is_same(made.entry) {
            return Ok(made.outcome.neg());
        }
    }
    entry.plus_product(factor, other)
}
