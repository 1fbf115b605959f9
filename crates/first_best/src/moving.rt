// One column of a face has the most that it can.
ghost use Rattle.std.specs.Prelude.{◌≡◌, ◌≢◌, ◌<◌, ◌++◌, ◌∷◌, [], List, ℕ, IfErr, IfOk, false, length, map, slice_index};
ghost use Rattle.std.specs.List.{Contains};
ghost use Rattle.std.specs.Option.{option_map_or};
ghost use Rattle.linear_dict.specs.Dictionaries.{IsDictionary};
ghost use Rattle.linear_dict.specs.Notes.{noted};
ghost use Rattle.simplex_core.specs.Turns.{noted_anew};
ghost use Rattle.first_best.specs.Holding.{back_note, held_by};
ghost use Rattle.first_best.specs.Outcomes.{HasSystem, IsFace, IsPairOn};

use crate::holding::{all_bounds, held_besides, hold_at, prices_of_one};
use crate::stop::FirstStop;
use exact_fraction::{Exact, Passed};
use linear_dict::{Dict, Note};
use plain_list::Memory;
use simplex_core::{Bounds, Run, Solved, pose};
use std::alloc::Global;

/// A solved dictionary, and which of its variables are held, by rank.
#[derive(Drop)]
pub(crate) struct Face<N: Exact> {
    pub(crate) dict: Dict<N>,
    pub(crate) held: Vec<Option<bool>>,
}

/// The notes of all variables, by rank.
fn all_notes<N: Exact>(alloc: Global, dict: &Dict<N>) -> Result<Vec<Note<N>>, Memory>
    requires live { dict.now.spent ≡ false }
    requires sound { IsDictionary dict.now }
    ensures { IfOk result (λ notes. map (noted N.value) notes.items ≡ dict.now.notes) }
{
    let mut notes = Vec::new(alloc);
    for rank in 0..dict.name_count() {
        match notes.push(dict.note_at(rank)) {
            Ok(()) => {}
            Err(_) => return Err(Memory),
        }
    }
    Ok(notes)
}

/// The note of a variable brought back: the one that is kept, with the value of another one, at the bound at which it is held.
fn note_back<N: Exact>(kept: &Note<N>, note: &Note<N>, hold: Option<bool>) -> Note<N>
    ensures { noted N.value result ≡ record (noted N.value kept.now) { value = N.value note.now.value; at_high = option_map_or (λ high. high) hold note.now.at_high } }
{
    let at_high = match hold {
        Some(high) => high,
        None => note.at_high,
    };
    Note {
        value: note.value,
        at_high,
        ..*kept
    }
}

/// Brings the notes back: prices, bounds and reduced prices as they were, and each variable that is held at its bound. The values stay.
fn bring_back<N: Exact>(dict: &mut Dict<N>, notes: &[Note<N>], held: &[Option<bool>])
    requires live { dict.old.spent ≡ false }
    requires sound { IsDictionary dict.old }
    requires count { length notes.now ≡ length dict.old.names }
    ensures { dict.new ≡ noted_anew dict.old
        (back_note (record dict.old { notes = map (noted N.value) notes.now }) (held_by dict.old.names held.now) dict.old) }
{
    for rank in 0..dict.name_count() {
        let note = note_back(&notes[rank], &dict.note_at(rank), hold_at(held, rank));
        dict.set_note_at(rank, note);
    }
}

/// Of the points of a face those that have the most of one column more.
pub(crate) fn moved_first<N: Exact>(
    alloc: Global,
    face: Face<N>,
    name: u32,
) -> Result<Face<N>, FirstStop<N>>
    requires face { (names : List ℕ) × IsFace face.dict names (held_by face.dict.names face.held.items) }
    requires column { Contains face.dict.columns name }
    ensures same { IfOk result (λ next. HasSystem face.dict next.dict) }
    ensures face { (names : List ℕ) → IsFace face.dict names (held_by face.dict.names face.held.items)
        → IfOk result (λ next. IsFace next.dict (names ++ name ∷ []) (held_by next.dict.names next.held.items)) }
    ensures pair { IfErr result (IsPairOn N.value N.bound face.dict) }
{
    let Face { dict, held } = face;
    let notes = all_notes(alloc, &dict)?;
    let prices = prices_of_one(alloc, &dict, name)?;
    let bounds = all_bounds(alloc, &dict, &held)?;
    match pose(dict, &prices, &bounds)?.run() {
        Run::Solved(solved) => {
            let mut dict = solved.into_dict();
            let held = held_besides(alloc, &dict, &held)?;
            bring_back(&mut dict, &notes, &held);
            Ok(Face { dict, held })
        }
        Run::Empty { .. } => unreachable!(),
        Run::Passed(passed) => Err(FirstStop::Passed(passed)),
    }
}
