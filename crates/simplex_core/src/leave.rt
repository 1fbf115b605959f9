// Which basic variable leaves.
ghost use Rattle.std.specs.Prelude.{◌≡◌, false};
ghost use Rattle.linear_dict.specs.Dictionaries.{IsDictionary};
ghost use Rattle.simplex_core.specs.Searches.{IsSide, IsLeaving};

use exact_fraction::Exact;
use linear_dict::{Dict, Note, Place};
use std::cmp::Ordering;

/// A basic variable that violates a bound.
#[derive(Clone, Copy)]
pub(crate) struct Leaving {
    pub(crate) row: usize,
    pub(crate) name: u32,
    /// Whether it is above its high bound, and not below its low one.
    pub(crate) above: bool,
}

/// On which side a value violates a bound, if it does: whether above the high one.
fn violated_side<N: Exact>(note: &Note<N>) -> Option<bool>
    ensures { IsSide (N.value note.now.low) (N.value note.now.high) (N.value note.now.value) result }
{
    match note.value.order(note.low) {
        Ordering::Less => Some(false),
        Ordering::Equal | Ordering::Greater => match note.value.order(note.high) {
            Ordering::Greater => Some(true),
            Ordering::Less | Ordering::Equal => None,
        },
    }
}

/// The basic variable of the least name that violates a bound.
pub(crate) fn find_leaving<N: Exact>(dict: &Dict<N>) -> Option<Leaving>
    requires live { dict.now.spent ≡ false }
    requires sound { IsDictionary dict.now }
    ensures { IsLeaving dict.now result }
{
    for rank in 0..dict.name_count() {
        if let Place::Row(row) = dict.place_at(rank) {
            if let Some(above) = violated_side(&dict.note_at(rank)) {
                let name = dict.ranked(rank);
                return Some(Leaving { row, name, above });
            }
        }
    }
    None
}
