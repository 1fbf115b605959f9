// Which variables are held, by rank, and the prices and bounds that they are posed at.
ghost use Rattle.std.specs.Prelude.{◌≡◌, ◌≢◌, ℕ, ◌<◌, ◌++◌, IfOk, IsTrue, None, Some, false, if◌then◌else◌, is_some, length, map, pos, slice_index, slice_index_or};
ghost use Rattle.std.specs.List.{Contains};
ghost use Rattle.std.specs.Option.{option_map_or};
ghost use Rattle.fraction_theory.specs.Fraction.{Fraction, whole};
ghost use Rattle.fraction_theory.specs.Signs.{sign_of};
ghost use Rattle.linear_dict.specs.Dictionaries.{IsDictionary, choice_of, system_in};
ghost use Rattle.optimal_face.specs.Faces.{IsStill, held_at, holds, more_held, price_of_one};
ghost use Rattle.optimal_face.specs.Laws.{CanNotMove};
ghost use Rattle.simplex_core.specs.States.{state_of};
ghost use Rattle.first_best.specs.Holding.{held_by};

use exact_fraction::{Exact, Sign};
use linear_dict::{Dict, Note, Place};
use plain_list::Memory;
use simplex_core::Bounds;
use std::alloc::Global;
use std::cmp::Ordering;

/// At which bound the variable of a rank is held, if it is: the high one, where that is said, or the low one.
pub(crate) fn hold_at(held: &[Option<bool>], rank: usize) -> Option<bool>
    ensures { result ≡ slice_index_or held.now rank None }
{
    match held.get(rank) {
        Some(hold) => *hold,
        None => None,
    }
}

/// How a variable is held besides: as it was, or where it stands, if its reduced price is not 0.
fn hold_besides<N: Exact>(note: &Note<N>, hold: Option<bool>) -> Option<bool>
    ensures { result ≡ (if is_some hold then hold else if holds (sign_of (N.value note.now.reduced)) then Some note.now.at_high else None) }
{
    match hold {
        Some(high) => Some(high),
        None => match note.reduced.sign() {
            Sign::Zero => None,
            Sign::Below | Sign::Above => Some(note.at_high),
        },
    }
}

/// What is held besides that which was: the variables whose reduced price is not 0, each where it stands.
pub(crate) fn held_besides<N: Exact>(
    alloc: Global,
    dict: &Dict<N>,
    held: &[Option<bool>],
) -> Result<Vec<Option<bool>>, Memory>
    requires live { dict.now.spent ≡ false }
    requires sound { IsDictionary dict.now }
    ensures { IfOk result (λ more. held_by dict.now.names more.items ≡ more_held (held_by dict.now.names held.now) (state_of dict.now)) }
{
    let mut more = Vec::new(alloc);
    for rank in 0..dict.name_count() {
        let hold = hold_besides(&dict.note_at(rank), hold_at(held, rank));
        match more.push(hold) {
            Ok(()) => {}
            Err(_) => return Err(Memory),
        }
    }
    Ok(more)
}

/// The bounds of a variable that is held so: twice the one at which it is.
fn held_bounds<N: Exact>(note: &Note<N>, hold: Option<bool>) -> Bounds<N>
    ensures low { result.low ≡ option_map_or (λ high. if high then note.now.high else note.now.low) hold note.now.low }
    ensures high { result.high ≡ option_map_or (λ high. if high then note.now.high else note.now.low) hold note.now.high }
{
    match hold {
        Some(high) => {
            let bound = if high { note.high } else { note.low };
            Bounds {
                low: bound,
                high: bound,
            }
        }
        None => Bounds {
            low: note.low,
            high: note.high,
        },
    }
}

/// The bounds that the variable of a name has, as it is held.
fn bounds_of<N: Exact>(dict: &Dict<N>, held: &[Option<bool>], name: u32) -> Bounds<N>
    requires live { dict.now.spent ≡ false }
    requires sound { IsDictionary dict.now }
    requires named { Contains dict.now.names name }
    ensures low { (price : ℕ → Fraction) → N.value result.low ≡ (held_at (system_in dict.now) (held_by dict.now.names held.now) price).low name }
    ensures high { (price : ℕ → Fraction) → N.value result.high ≡ (held_at (system_in dict.now) (held_by dict.now.names held.now) price).high name }
{
    let rank = dict.rank_of(name);
    held_bounds(&dict.note_at(rank), hold_at(held, rank))
}

/// The bounds of the columns and then of the rows, each in the order in which they were put in, as they are held.
pub(crate) fn all_bounds<N: Exact>(
    alloc: Global,
    dict: &Dict<N>,
    held: &[Option<bool>],
) -> Result<Vec<Bounds<N>>, Memory>
    requires live { dict.now.spent ≡ false }
    requires sound { IsDictionary dict.now }
    ensures lows { IfOk result (λ bounds. (price : ℕ → Fraction) → map (λ b. N.value b.low) bounds.items
        ≡ map (held_at (system_in dict.now) (held_by dict.now.names held.now) price).low (dict.now.columns ++ dict.now.rows)) }
    ensures highs { IfOk result (λ bounds. (price : ℕ → Fraction) → map (λ b. N.value b.high) bounds.items
        ≡ map (held_at (system_in dict.now) (held_by dict.now.names held.now) price).high (dict.now.columns ++ dict.now.rows)) }
{
    let mut bounds = Vec::new(alloc);
    for place in 0..dict.column_count() {
        match bounds.push(bounds_of(dict, held, dict.column_name(place))) {
            Ok(()) => {}
            Err(_) => return Err(Memory),
        }
    }
    for place in 0..dict.row_count() {
        match bounds.push(bounds_of(dict, held, dict.row_name(place))) {
            Ok(()) => {}
            Err(_) => return Err(Memory),
        }
    }
    Ok(bounds)
}

/// A price of 1 for the column of a name, and 0 for another one.
fn price_for<N: Exact>(name: u32, column: u32) -> N
    ensures { N.value result ≡ price_of_one name column }
{
    if column == name {
        N::of_parts(1, 1)
    } else {
        N::of_parts(0, 1)
    }
}

/// These prices of all columns, in the order in which they were put in.
pub(crate) fn prices_of_one<N: Exact>(
    alloc: Global,
    dict: &Dict<N>,
    name: u32,
) -> Result<Vec<N>, Memory>
    requires live { dict.now.spent ≡ false }
    requires sound { IsDictionary dict.now }
    ensures { IfOk result (λ prices. map N.value prices.items ≡ map (price_of_one name) dict.now.columns) }
{
    let mut prices = Vec::new(alloc);
    for place in 0..dict.column_count() {
        match prices.push(price_for(name, dict.column_name(place))) {
            Ok(()) => {}
            Err(_) => return Err(Memory),
        }
    }
    Ok(prices)
}

/// Whether the variable of a rank can't move: it is held, or its bounds are equal.
fn is_still<N: Exact>(dict: &Dict<N>, held: &[Option<bool>], rank: usize) -> bool
    requires live { dict.now.spent ≡ false }
    requires sound { IsDictionary dict.now }
    requires within { rank < length dict.now.names }
    ensures { IsTrue result → IsStill (system_in dict.now) (held_by dict.now.names held.now) (slice_index dict.now.names rank) }
{
    if hold_at(held, rank).is_some() {
        return true;
    }
    let note = dict.note_at(rank);
    match note.low.order(note.high) {
        Ordering::Equal => true,
        Ordering::Less | Ordering::Greater => false,
    }
}

/// Whether the basic variable of a row place can't move: its entries are 0 but at variables that can't.
fn is_row_still<N: Exact>(dict: &Dict<N>, held: &[Option<bool>], row: usize) -> bool
    requires live { dict.now.spent ≡ false }
    requires sound { IsDictionary dict.now }
    requires row { row < length dict.now.basics }
    ensures { IsTrue result → (w : ℕ) → Contains dict.now.others w → (choice_of dict.now).entry (slice_index dict.now.basics row) w ≢ whole (pos 0)
        → IsStill (system_in dict.now) (held_by dict.now.names held.now) w }
{
    for column in 0..dict.column_count() {
        match dict.entry(row, column).sign() {
            Sign::Zero => continue,
            Sign::Below | Sign::Above => {}
        }
        if !is_still(dict, held, dict.rank_of(dict.others(column))) {
            return false;
        }
    }
    true
}

/// Whether the variable of a name can't move.
pub(crate) fn can_not_move<N: Exact>(dict: &Dict<N>, held: &[Option<bool>], name: u32) -> bool
    requires live { dict.now.spent ≡ false }
    requires sound { IsDictionary dict.now }
    requires named { Contains dict.now.names name }
    ensures { IsTrue result → CanNotMove (system_in dict.now) (held_by dict.now.names held.now) (choice_of dict.now) name }
{
    let rank = dict.rank_of(name);
    match dict.place_at(rank) {
        Place::Row(row) => is_row_still(dict, held, row),
        Place::Column(_) => is_still(dict, held, rank),
    }
}
