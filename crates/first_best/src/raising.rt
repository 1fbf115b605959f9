// One column of a face has the most that it can without a run: it stands at its high bound, or goes there at once.
ghost use Rattle.std.specs.Prelude.{◌≡◌, ◌<◌, ◌++◌, ◌∷◌, [], List, ℕ, IfOk, IfSome, IsFalse, IsTrue, None, false, if◌then◌else◌, length, map, slice_index, slice_index_or};
ghost use Rattle.std.specs.List.{Contains};
ghost use Rattle.fraction_theory.specs.Order.{◌≤ℚ◌};
ghost use Rattle.linear_dict.specs.Dictionaries.{IsDictionary, system_in};
ghost use Rattle.linear_dict.specs.Notes.{noted};
ghost use Rattle.simplex_theory.specs.States.{IsWithin};
ghost use Rattle.simplex_core.specs.Turns.{noted_anew};
ghost use Rattle.first_best.specs.Holding.{held_by};
ghost use Rattle.first_best.specs.Outcomes.{HasSystem, IsFace};
ghost use Rattle.first_best.specs.Raising.{AreRaised, StandsHigh, raised_note, raised_value};

use exact_fraction::{Exact, exact_difference};
use linear_dict::{Dict, Note, Place};
use plain_list::Memory;
use std::alloc::Global;
use std::cmp::Ordering;

/// Whether a value is within the bounds of a note.
fn is_within<N: Exact>(note: &Note<N>, value: N) -> bool
    ensures low { IsTrue result → N.value note.now.low ≤ℚ N.value value }
    ensures high { IsTrue result → N.value value ≤ℚ N.value note.now.high }
{
    match value.order(note.low) {
        Ordering::Less => false,
        Ordering::Equal | Ordering::Greater => match value.order(note.high) {
            Ordering::Greater => false,
            Ordering::Less | Ordering::Equal => true,
        },
    }
}

/// The value of the basic variable of a row place where the other one of a column place has risen by so much. Nothing where it would
/// pass a bound, or where an operation is refused.
fn value_raised<N: Exact>(dict: &Dict<N>, row: usize, column: usize, by: N) -> Option<N>
    requires live { dict.now.spent ≡ false }
    requires sound { IsDictionary dict.now }
    requires row { row < length dict.now.basics }
    requires column { column < length dict.now.others }
    ensures value { IfSome result (λ value. N.value value
        ≡ raised_value dict.now (slice_index dict.now.others column) (N.value by) (slice_index dict.now.basics row)) }
    ensures within { IfSome result (λ _. IsWithin (system_in dict.now)
        (raised_value dict.now (slice_index dict.now.others column) (N.value by)) (slice_index dict.now.basics row)) }
{
    let note = dict.note(dict.basics(row));
    match note.value.plus_product(dict.entry(row, column), by) {
        Ok(value) => {
            if is_within(&note, value) {
                Some(value)
            } else {
                None
            }
        }
        Err(_) => None,
    }
}

/// The values of all basic variables by row place, where the other one of a column place has risen by so much. Nothing where one would
/// pass a bound, or where an operation is refused.
fn values_raised<N: Exact>(
    alloc: Global,
    dict: &Dict<N>,
    column: usize,
    by: N,
) -> Result<Option<Vec<N>>, Memory>
    requires live { dict.now.spent ≡ false }
    requires sound { IsDictionary dict.now }
    requires column { column < length dict.now.others }
    ensures { IfOk result (λ found. IfSome found (λ values.
        AreRaised dict.now (slice_index dict.now.others column) (N.value by) dict.now.basics (map N.value values.items))) }
{
    let mut values = Vec::new(alloc);
    for row in 0..dict.row_count() {
        match value_raised(dict, row, column, by) {
            Some(value) => match values.push(value) {
                Ok(()) => {}
                Err(_) => return Err(Memory),
            },
            None => return Ok(None),
        }
    }
    Ok(Some(values))
}

/// The note of the variable of a rank, where that of a name stands at its high bound and the basic ones have these values.
fn note_raised<N: Exact>(dict: &Dict<N>, rank: usize, name: u32, values: &[N]) -> Note<N>
    requires live { dict.now.spent ≡ false }
    requires sound { IsDictionary dict.now }
    requires rank { rank < length dict.now.names }
    requires values { length values.now ≡ length dict.now.basics }
    ensures { noted N.value result ≡ raised_note dict.now name (map N.value values.now) (slice_index dict.now.names rank) }
{
    let note = dict.note_at(rank);
    match dict.place_at(rank) {
        Place::Row(row) => Note {
            value: values[row],
            ..note
        },
        Place::Column(_) => {
            if dict.ranked(rank) == name {
                Note {
                    value: note.high,
                    at_high: true,
                    ..note
                }
            } else {
                note
            }
        }
    }
}

/// Puts the variable of a name at its high bound, and gives the basic ones these values.
fn put_raised<N: Exact>(dict: &mut Dict<N>, name: u32, values: &[N])
    requires live { dict.old.spent ≡ false }
    requires sound { IsDictionary dict.old }
    requires values { length values.now ≡ length dict.old.basics }
    ensures { dict.new ≡ noted_anew dict.old (raised_note dict.old name (map N.value values.now)) }
{
    for rank in 0..dict.name_count() {
        let note = note_raised(dict, rank, name, values);
        dict.set_note_at(rank, note);
    }
}

/// Raises the other variable of a column place to its high bound, if it does not stand there. Answers whether it stands there now:
/// nothing is changed where a basic variable would pass a bound by that, or where an operation is refused.
fn raise<N: Exact>(
    alloc: Global,
    dict: &mut Dict<N>,
    name: u32,
    column: usize,
) -> Result<bool, Memory>
    requires live { dict.old.spent ≡ false }
    requires sound { IsDictionary dict.old }
    requires column { column < length dict.old.others }
    requires name { slice_index dict.old.others column ≡ name }
    ensures high { IfOk result (λ done. IsTrue done → StandsHigh dict.old name dict.new) }
    ensures kept { IfOk result (λ done. IsFalse done → dict.new ≡ dict.old) }
{
    let note = dict.note(name);
    if note.at_high {
        return Ok(true);
    }
    let by = match exact_difference(note.high, note.low) {
        Ok(by) => by,
        Err(_) => return Ok(false),
    };
    match values_raised(alloc, dict, column, by)? {
        Some(values) => {
            put_raised(dict, name, &values);
            Ok(true)
        }
        None => Ok(false),
    }
}

/// The column place of the variable of a rank, if it is an other one and not held.
fn free_column<N: Exact>(dict: &Dict<N>, held: &[Option<bool>], rank: usize) -> Option<usize>
    requires live { dict.now.spent ≡ false }
    requires sound { IsDictionary dict.now }
    requires rank { rank < length dict.now.names }
    ensures column { IfSome result (λ column. column < length dict.now.others) }
    ensures name { IfSome result (λ column. slice_index dict.now.others column ≡ slice_index dict.now.names rank) }
    ensures within { IfSome result (λ _. rank < length held.now) }
    ensures free { IfSome result (λ _. slice_index_or held.now rank None ≡ None) }
{
    if rank >= held.len() || held[rank].is_some() {
        return None;
    }
    match dict.place_at(rank) {
        Place::Row(_) => None,
        Place::Column(column) => Some(column),
    }
}

/// Holds a column at its high bound, where it stands there or goes there at once. Answers whether that was done: of the points of the
/// face those that have the most of it are those that have it there.
pub(crate) fn hold_high<N: Exact>(
    alloc: Global,
    dict: &mut Dict<N>,
    held: &mut [Option<bool>],
    name: u32,
) -> Result<bool, Memory>
    requires face { (names : List ℕ) × IsFace dict.old names (held_by dict.old.names held.old) }
    requires named { Contains dict.old.names name }
    ensures same { IfOk result (λ _. HasSystem dict.old dict.new) }
    ensures face { (names : List ℕ) → IsFace dict.old names (held_by dict.old.names held.old)
        → IfOk result (λ done. IsFace dict.new (if done then names ++ name ∷ [] else names) (held_by dict.new.names held.new)) }
{
    let rank = dict.rank_of(name);
    let column = match free_column(dict, held, rank) {
        Some(column) => column,
        None => return Ok(false),
    };
    if !raise(alloc, dict, name, column)? {
        return Ok(false);
    }
    held[rank] = Some(true);
    Ok(true)
}
