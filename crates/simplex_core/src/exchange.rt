// A step: the leaving and the entering variable change places, and the notes move by the new table.
ghost use Rattle.std.specs.Prelude.{◌≡◌, ◌<◌, IfErr, IfOk, IsTrue, if◌then◌else◌, false, length, slice_index};
ghost use Rattle.linear_dict.specs.Causes.{IsRefused};
ghost use Rattle.linear_dict.specs.Dictionaries.{IsDictionary, note_of, system_in};
ghost use Rattle.linear_dict.specs.Notes.{noted};
ghost use Rattle.simplex_core.specs.Fixed.{IsFixedPair};
ghost use Rattle.simplex_core.specs.Operations.{MoveShare, MovesShare};
ghost use Rattle.simplex_theory.specs.Steps.{Enters, Leaves};
ghost use Rattle.simplex_core.specs.States.{IsReady, state_of};
ghost use Rattle.simplex_core.specs.Turns.{moved_note, noted_anew, turned};

use crate::enter::Candidate;
use crate::leave::Leaving;
use exact_fraction::{Exact, Passed, Sign, exact_difference};
use linear_dict::{Dict, Note, Place};

/// How the notes move: the leaving variable goes to a bound, and all values and reduced prices with it.
#[derive(Clone, Copy)]
struct Move<N> {
    leaving: u32,
    entering: u32,
    /// Where the two stand after the exchange.
    row: usize,
    column: usize,
    /// Whether the leaving variable goes to its high bound, and not to its low one.
    above: bool,
    bound: N,
    /// How far the leaving variable moves.
    displacement: N,
    /// The reduced price that the entering variable had.
    price: N,
}

/// The note of the variable of a rank after the move, by the table after the exchange.
fn note_after<N: Exact>(dict: &Dict<N>, rank: usize, step: &Move<N>) -> Result<Note<N>, Passed<N>>
    requires live { dict.now.spent ≡ false }
    requires sound { IsDictionary dict.now }
    requires rank { rank < length dict.now.names }
    requires row { step.now.row < length dict.now.basics }
    requires entering { slice_index dict.now.basics step.now.row ≡ step.now.entering }
    requires column { step.now.column < length dict.now.others }
    requires leaving { slice_index dict.now.others step.now.column ≡ step.now.leaving }
    ensures note { IfOk result (λ note. noted N.value note ≡ moved_note dict.now step.now.leaving step.now.entering step.now.above
        (N.value step.now.bound) (N.value step.now.displacement) (N.value step.now.price) (slice_index dict.now.names rank)) }
    ensures stops { IfErr result (IsRefused N.value N.bound
        (MoveShare dict.now step.now.leaving step.now.entering (N.value step.now.displacement) (N.value step.now.price)
        (slice_index dict.now.names rank))) }
{
    let name = dict.ranked(rank);
    let note = dict.note_at(rank);
    match dict.place_at(rank) {
        Place::Row(row) => {
            let entry = dict.entry(row, step.column);
            let value = note.value.plus_product(entry, step.displacement)?;
            let reduced = N::of_parts(0, 1);
            Ok(Note {
                value,
                reduced,
                ..note
            })
        }
        Place::Column(column) => {
            let entry = dict.entry(step.row, column);
            let reduced = note.reduced.plus_product(step.price, entry)?;
            if name == step.leaving {
                let value = step.bound;
                let at_high = step.above;
                Ok(Note {
                    value,
                    reduced,
                    at_high,
                    ..note
                })
            } else {
                Ok(Note { reduced, ..note })
            }
        }
    }
}

/// Whether it is told that the note of the variable of a rank stays as it is: it is an other one, does not leave, and has the entry 0 in
/// the row of the entering one.
fn stays<N: Exact>(dict: &Dict<N>, rank: usize, step: &Move<N>) -> bool
    requires live { dict.now.spent ≡ false }
    requires sound { IsDictionary dict.now }
    requires rank { rank < length dict.now.names }
    requires row { step.now.row < length dict.now.basics }
    requires entering { slice_index dict.now.basics step.now.row ≡ step.now.entering }
    requires column { step.now.column < length dict.now.others }
    requires leaving { slice_index dict.now.others step.now.column ≡ step.now.leaving }
    ensures { IsTrue result → moved_note dict.now step.now.leaving step.now.entering step.now.above
        (N.value step.now.bound) (N.value step.now.displacement) (N.value step.now.price) (slice_index dict.now.names rank) ≡ note_of dict.now (slice_index dict.now.names rank) }
{
    match dict.place_at(rank) {
        Place::Row(_) => false,
        Place::Column(column) => {
            if column == step.column {
                return false;
            }
            match dict.entry(step.row, column).sign() {
                Sign::Zero => true,
                Sign::Below | Sign::Above => false,
            }
        }
    }
}

/// Moves the notes of all variables.
fn move_notes<N: Exact>(dict: &mut Dict<N>, step: &Move<N>) -> Result<(), Passed<N>>
    requires live { dict.old.spent ≡ false }
    requires sound { IsDictionary dict.old }
    requires row { step.now.row < length dict.old.basics }
    requires entering { slice_index dict.old.basics step.now.row ≡ step.now.entering }
    requires column { step.now.column < length dict.old.others }
    requires leaving { slice_index dict.old.others step.now.column ≡ step.now.leaving }
    ensures notes { IfOk result (λ _. dict.new ≡ noted_anew dict.old (moved_note dict.old step.now.leaving step.now.entering step.now.above
        (N.value step.now.bound) (N.value step.now.displacement) (N.value step.now.price))) }
    ensures stops { IfErr result (IsRefused N.value N.bound
        (MovesShare dict.old step.now.leaving step.now.entering (N.value step.now.displacement) (N.value step.now.price))) }
{
    for rank in 0..dict.name_count() {
        if stays(dict, rank, step) {
            continue;
        }
        let note = note_after(dict, rank, step)?;
        dict.set_note_at(rank, note);
    }
    Ok(())
}

/// The high bound of a note, or else the low one.
pub(crate) fn bound_on<N: Exact>(note: &Note<N>, high: bool) -> N
    ensures { result ≡ (if high then note.now.high else note.now.low) }
{
    if high { note.high } else { note.low }
}

/// The leaving variable goes to the bound that it violates, and the entering one takes its place.
pub(crate) fn step<N: Exact>(
    dict: &mut Dict<N>,
    leaving: &Leaving,
    entering: &Candidate<N>,
) -> Result<(), Passed<N>>
    requires live { dict.old.spent ≡ false }
    requires sound { IsDictionary dict.old }
    requires ready { IsReady dict.old }
    requires row { leaving.now.row < length dict.old.basics }
    requires leaving { slice_index dict.old.basics leaving.now.row ≡ leaving.now.name }
    requires column { entering.now.column < length dict.old.others }
    requires entering { slice_index dict.old.others entering.now.column ≡ entering.now.name }
    requires leaves { Leaves (system_in dict.old) (state_of dict.old) leaving.now.name leaving.now.above }
    requires enters { Enters (system_in dict.old) (state_of dict.old) leaving.now.name leaving.now.above entering.now.name }
    ensures turned { IfOk result (λ _. dict.new ≡ turned dict.old leaving.now.name entering.now.name leaving.now.above) }
    ensures pair { IfErr result (IsFixedPair N.value N.bound dict.old) }
{
    let note = dict.note(leaving.name);
    let bound = bound_on(&note, leaving.above);
    let displacement = exact_difference(bound, note.value)?;
    let price = dict.note(entering.name).reduced;
    dict.pivot(leaving.row, entering.column)?;
    let step = Move {
        leaving: leaving.name,
        entering: entering.name,
        row: leaving.row,
        column: entering.column,
        above: leaving.above,
        bound,
        displacement,
        price,
    };
    move_notes(dict, &step)
}
