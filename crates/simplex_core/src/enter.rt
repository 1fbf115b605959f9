// Which other variable enters: the ratio test.
ghost use Rattle.std.specs.Prelude.{◌≡◌, ◌<◌, IfErr, IfOk, false, length, slice_index};
ghost use Rattle.std.specs.List.{Contains};
ghost use Rattle.linear_dict.specs.Dictionaries.{IsDictionary};
ghost use Rattle.simplex_core.specs.Fixed.{IsFixedPair};
ghost use Rattle.simplex_core.specs.States.{IsReady};
ghost use Rattle.simplex_core.specs.Searches.{IsCandidate, IsLesser, IsEntering};

use crate::leave::Leaving;
use exact_fraction::{Exact, Passed, Sign, size};
use linear_dict::{Dict, Place};
use std::cmp::Ordering;

/// An other variable that helps the leaving one.
#[derive(Clone, Copy)]
pub(crate) struct Candidate<N> {
    pub(crate) column: usize,
    pub(crate) name: u32,
    /// Its reduced price over its entry, by size: what the reduced price of the leaving one becomes, by size, where this one enters.
    pub(crate) ratio: N,
}

/// The other variable of a column place, which has this rank, where it can move off its bound and this takes the leaving one
/// towards the bound that that one violates.
fn candidate_at<N: Exact>(
    dict: &Dict<N>,
    leaving: &Leaving,
    column: usize,
    rank: usize,
) -> Result<Option<Candidate<N>>, Passed<N>>
    requires live { dict.now.spent ≡ false }
    requires sound { IsDictionary dict.now }
    requires ready { IsReady dict.now }
    requires row { leaving.now.row < length dict.now.basics }
    requires leaving { slice_index dict.now.basics leaving.now.row ≡ leaving.now.name }
    requires column { column < length dict.now.others }
    requires rank { rank < length dict.now.names }
    requires name { slice_index dict.now.others column ≡ slice_index dict.now.names rank }
    ensures candidate { IfOk result (IsCandidate N.value dict.now leaving.now.name leaving.now.above (slice_index dict.now.names rank)) }
    ensures pair { IfErr result (IsFixedPair N.value N.bound dict.now) }
{
    let entry = dict.entry(leaving.row, column);
    match entry.sign() {
        Sign::Zero => return Ok(None),
        Sign::Below | Sign::Above => {}
    }
    let note = dict.note_at(rank);
    match note.low.order(note.high) {
        Ordering::Less => {}
        Ordering::Equal | Ordering::Greater => return Ok(None),
    }
    let towards = if leaving.above == note.at_high {
        entry
    } else {
        entry.neg()
    };
    match towards.sign() {
        Sign::Above => Ok(Some(Candidate {
            column,
            name: dict.ranked(rank),
            ratio: size(note.reduced).times(towards.recip())?,
        })),
        Sign::Below | Sign::Zero => Ok(None),
    }
}

/// Of the best candidate so far and one of a later name the better: the later one only where its ratio is below.
fn lesser<N: Exact>(best: Option<Candidate<N>>, next: Candidate<N>) -> Candidate<N>
    ensures { IsLesser N.value best next result }
{
    match best {
        Some(kept) => match next.ratio.order(kept.ratio) {
            Ordering::Less => next,
            Ordering::Equal | Ordering::Greater => kept,
        },
        None => next,
    }
}

/// The other variable that enters: of those that help the one with the least ratio of price to entry, and of several the
/// one of the least name.
pub(crate) fn find_entering<N: Exact>(
    dict: &Dict<N>,
    leaving: &Leaving,
) -> Result<Option<Candidate<N>>, Passed<N>>
    requires live { dict.now.spent ≡ false }
    requires sound { IsDictionary dict.now }
    requires ready { IsReady dict.now }
    requires row { leaving.now.row < length dict.now.basics }
    requires leaving { slice_index dict.now.basics leaving.now.row ≡ leaving.now.name }
    ensures found { IfOk result (IsEntering dict.now leaving.now.name leaving.now.above) }
    ensures pair { IfErr result (IsFixedPair N.value N.bound dict.now) }
{
    let mut best = None;
    for rank in 0..dict.name_count() {
        if let Place::Column(column) = dict.place_at(rank) {
            if let Some(next) = candidate_at(dict, leaving, column, rank)? {
                best = Some(lesser(best, next));
            }
        }
    }
    Ok(best)
}
