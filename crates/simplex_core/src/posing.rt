// Prices and bounds for a dictionary.
ghost use Rattle.std.specs.Prelude.{◌≡◌, ℕ, ◌+◌, ◌<◌, ◌≤◌, IfErr, IfOk, IsTrue, pos, false, length, slice_index};
ghost use Rattle.std.specs.List.{All, Contains};
ghost use Rattle.fraction_theory.specs.Fraction.{whole};
ghost use Rattle.fraction_theory.specs.Order.{◌≤ℚ◌};
ghost use Rattle.linear_dict.specs.Causes.{IsRefused};
ghost use Rattle.linear_dict.specs.Dictionaries.{IsDictionary, note_of, system_in};
ghost use Rattle.linear_dict.specs.Notes.{noted};
ghost use Rattle.linear_dict.specs.ReducedPrices.{HasReducedPrices};
ghost use Rattle.simplex_core.specs.Fixed.{IsFixedPair, IsFixedPairPosed};
ghost use Rattle.simplex_core.specs.Operations.{BoundShare, PriceShare};
ghost use Rattle.simplex_core.specs.Posings.{HasNotes, IsPairPosed, IsPosing, IsPriced, KeepsPrice, KeepsPrices, asked_note, bound_added, column_note, kept_column, kept_row, price_added, reduced_note, row_note, term_note, value_note};
ghost use Rattle.simplex_core.specs.Turns.{noted_anew};

use crate::bounds::Bounds;
use crate::exchange::bound_on;
use crate::solving::Posed;
use exact_fraction::{Exact, Passed, Sign, exact_sum};
use linear_dict::{Dict, Note, Place};
use std::cmp::Ordering;

/// The note of a variable that does not stand at a bound yet.
fn term<N: Exact>(price: N, bounds: Bounds<N>) -> Note<N>
    ensures { noted N.value result ≡ term_note (N.value price) (N.value bounds.low) (N.value bounds.high) }
{
    let zero = N::of_parts(0, 1);
    Note {
        price,
        low: bounds.low,
        high: bounds.high,
        value: zero,
        reduced: zero,
        at_high: false,
    }
}

/// Notes prices and bounds of the columns.
fn put_columns<N: Exact>(dict: &mut Dict<N>, prices: &[N], bounds: &[Bounds<N>])
    requires live { dict.old.spent ≡ false }
    requires sound { IsDictionary dict.old }
    requires prices { length prices.now ≡ length dict.old.columns }
    requires bounds { length dict.old.columns ≤ length bounds.now }
    ensures { HasNotes dict.old dict.old.columns (column_note N.value prices.now bounds.now) dict.new }
{
    for k in 0..prices.len() {
        let note = term(prices[k], bounds[k]);
        let name = dict.column_name(k);
        dict.set_note(name, note);
    }
}

/// Notes bounds of the rows, which have no price. They stand behind the first `columns` of the bounds.
fn put_rows<N: Exact>(dict: &mut Dict<N>, columns: usize, bounds: &[Bounds<N>])
    requires live { dict.old.spent ≡ false }
    requires sound { IsDictionary dict.old }
    requires bounds { length bounds.now ≡ columns + length dict.old.rows }
    ensures { HasNotes dict.old dict.old.rows (row_note N.value columns bounds.now) dict.new }
{
    for k in 0..dict.row_count() {
        let note = term(N::of_parts(0, 1), bounds[columns + k]);
        let name = dict.row_name(k);
        dict.set_note(name, note);
    }
}

/// Adds to each other variable's reduced price what the price of the basic variable of a row place makes there.
fn add_basic_price<N: Exact>(
    dict: &mut Dict<N>,
    row: usize,
    name: u32,
    price: N,
) -> Result<(), Passed<N>>
    requires live { dict.old.spent ≡ false }
    requires sound { IsDictionary dict.old }
    requires row { row < length dict.old.basics }
    requires name { slice_index dict.old.basics row ≡ name }
    requires price { N.value price ≡ (system_in dict.old).price name }
    ensures notes { IfOk result (λ _. dict.new ≡ noted_anew dict.old (price_added dict.old name)) }
    ensures stops { IfErr result (IsRefused N.value N.bound (PriceShare dict.old name)) }
{
    for column in 0..dict.column_count() {
        let entry = dict.entry(row, column);
        match entry.sign() {
            Sign::Zero => continue,
            Sign::Below | Sign::Above => {}
        }
        let other = dict.others(column);
        let rank = dict.rank_of(other);
        let note = dict.note_at(rank);
        let reduced = note.reduced.plus_product(price, entry)?;
        dict.set_note_at(rank, Note { reduced, ..note });
    }
    Ok(())
}

/// Adds to each other variable's reduced price what the price of a variable makes there.
fn add_price<N: Exact>(dict: &mut Dict<N>, name: u32) -> Result<(), Passed<N>>
    requires live { dict.old.spent ≡ false }
    requires sound { IsDictionary dict.old }
    requires named { Contains dict.old.names name }
    ensures notes { IfOk result (λ _. dict.new ≡ noted_anew dict.old (price_added dict.old name)) }
    ensures stops { IfErr result (IsRefused N.value N.bound (PriceShare dict.old name)) }
{
    let note = dict.note(name);
    match note.price.sign() {
        Sign::Zero => return Ok(()),
        Sign::Below | Sign::Above => {}
    }
    match dict.place(name) {
        Place::Row(row) => add_basic_price(dict, row, name, note.price),
        Place::Column(_) => {
            let reduced = exact_sum(note.reduced, note.price)?;
            dict.set_note(name, Note { reduced, ..note });
            Ok(())
        }
    }
}

/// Gives each other variable its reduced price: how much the objective rises where it rises by 1.
fn put_reduced<N: Exact>(dict: &mut Dict<N>) -> Result<(), Passed<N>>
    requires live { dict.old.spent ≡ false }
    requires sound { IsDictionary dict.old }
    requires unpriced { (w : ℕ) → Contains dict.old.rows w → (system_in dict.old).price w ≡ whole (pos 0) }
    requires blank { (w : ℕ) → Contains dict.old.others w → (note_of dict.old w).reduced ≡ whole (pos 0) }
    ensures notes { IfOk result (λ _. dict.new ≡ noted_anew dict.old (reduced_note dict.old)) }
    ensures pair { IfErr result (IsFixedPair N.value N.bound dict.old) }
{
    for rank in 0..dict.name_count() {
        let name = dict.ranked(rank);
        add_price(dict, name)?;
    }
    Ok(())
}

/// Puts each other variable at the bound that its reduced price asks for.
fn put_others<N: Exact>(dict: &mut Dict<N>)
    requires live { dict.old.spent ≡ false }
    requires sound { IsDictionary dict.old }
    ensures { dict.new ≡ noted_anew dict.old (asked_note dict.old) }
{
    for column in 0..dict.column_count() {
        let name = dict.others(column);
        let note = dict.note(name);
        let at_high = matches!(note.reduced.sign(), Sign::Above);
        let value = bound_on(&note, at_high);
        let asked = Note {
            value,
            at_high,
            ..note
        };
        dict.set_note(name, asked);
    }
}

/// Adds to each basic variable's value what the bound of the other variable of a column place makes there.
fn add_bound<N: Exact>(dict: &mut Dict<N>, column: usize, name: u32) -> Result<(), Passed<N>>
    requires live { dict.old.spent ≡ false }
    requires sound { IsDictionary dict.old }
    requires column { column < length dict.old.others }
    requires name { slice_index dict.old.others column ≡ name }
    ensures notes { IfOk result (λ _. dict.new ≡ noted_anew dict.old (bound_added dict.old name)) }
    ensures stops { IfErr result (IsRefused N.value N.bound (BoundShare dict.old name)) }
{
    let at = dict.note(name);
    let bound = bound_on(&at, at.at_high);
    match bound.sign() {
        Sign::Zero => return Ok(()),
        Sign::Below | Sign::Above => {}
    }
    for row in 0..dict.row_count() {
        let entry = dict.entry(row, column);
        match entry.sign() {
            Sign::Zero => continue,
            Sign::Below | Sign::Above => {}
        }
        let basic = dict.basics(row);
        let rank = dict.rank_of(basic);
        let note = dict.note_at(rank);
        let value = note.value.plus_product(entry, bound)?;
        dict.set_note_at(rank, Note { value, ..note });
    }
    Ok(())
}

/// Gives each basic variable the value that follows from the others.
fn put_basics<N: Exact>(dict: &mut Dict<N>) -> Result<(), Passed<N>>
    requires live { dict.old.spent ≡ false }
    requires sound { IsDictionary dict.old }
    requires blank { (b : ℕ) → Contains dict.old.basics b → (note_of dict.old b).value ≡ whole (pos 0) }
    ensures notes { IfOk result (λ _. dict.new ≡ noted_anew dict.old (value_note dict.old)) }
    ensures pair { IfErr result (IsFixedPair N.value N.bound dict.old) }
{
    for rank in 0..dict.name_count() {
        let name = dict.ranked(rank);
        if let Place::Column(column) = dict.place(name) {
            add_bound(dict, column, name)?;
        }
    }
    Ok(())
}

/// Whether the price of a column may be changed with no other reduced price than its own: it stays, or the column is not basic and had
/// neither a price nor a reduced price.
fn keeps_price<N: Exact>(dict: &Dict<N>, column: usize, price: N) -> bool
    requires live { dict.now.spent ≡ false }
    requires sound { IsDictionary dict.now }
    requires column { column < length dict.now.columns }
    ensures { IsTrue result → KeepsPrice dict.now (slice_index dict.now.columns column) (N.value price) }
{
    let name = dict.column_name(column);
    let rank = dict.rank_of(name);
    let note = dict.note_at(rank);
    if let Ordering::Equal = note.price.order(price) {
        return true;
    }
    match (dict.place_at(rank), note.price.sign(), note.reduced.sign()) {
        (Place::Column(_), Sign::Zero, Sign::Zero) => true,
        _ => false,
    }
}

/// Whether all prices may be.
fn keeps_prices<N: Exact>(dict: &Dict<N>, prices: &[N]) -> bool
    requires live { dict.now.spent ≡ false }
    requires sound { IsDictionary dict.now }
    requires prices { length prices.now ≡ length dict.now.columns }
    ensures { IsTrue result → KeepsPrices N.value dict.now prices.now }
{
    for k in 0..prices.len() {
        if !keeps_price(dict, k, prices[k]) {
            return false;
        }
    }
    true
}

/// Notes prices and bounds of the columns, and takes up the reduced prices where these are those of the table.
fn keep_columns<N: Exact>(dict: &mut Dict<N>, prices: &[N], bounds: &[Bounds<N>])
    requires live { dict.old.spent ≡ false }
    requires sound { IsDictionary dict.old }
    requires prices { length prices.now ≡ length dict.old.columns }
    requires bounds { length dict.old.columns ≤ length bounds.now }
    requires priced { HasReducedPrices dict.old }
    requires kept { KeepsPrices N.value dict.old prices.now }
    ensures { HasNotes dict.old dict.old.columns (kept_column N.value dict.old prices.now bounds.now) dict.new }
{
    for k in 0..prices.len() {
        let price = prices[k];
        let name = dict.column_name(k);
        let note = dict.note(name);
        let reduced = match note.price.order(price) {
            Ordering::Equal => note.reduced,
            Ordering::Less | Ordering::Greater => price,
        };
        let blank = term(price, bounds[k]);
        dict.set_note(name, Note { reduced, ..blank });
    }
}

/// Notes bounds of the rows, and takes up their reduced prices. They stand behind the first `columns` of the bounds.
fn keep_rows<N: Exact>(dict: &mut Dict<N>, columns: usize, bounds: &[Bounds<N>])
    requires live { dict.old.spent ≡ false }
    requires sound { IsDictionary dict.old }
    requires bounds { length bounds.now ≡ columns + length dict.old.rows }
    ensures { HasNotes dict.old dict.old.rows (kept_row N.value dict.old bounds.now columns) dict.new }
{
    for k in 0..dict.row_count() {
        let name = dict.row_name(k);
        let reduced = dict.note(name).reduced;
        let blank = term(N::of_parts(0, 1), bounds[columns + k]);
        dict.set_note(name, Note { reduced, ..blank });
    }
}

/// Notes prices and bounds, and gives each variable its reduced price: it is taken up where it is known and stays, and else made anew.
fn put_prices<N: Exact>(
    dict: &mut Dict<N>,
    prices: &[N],
    bounds: &[Bounds<N>],
) -> Result<(), Passed<N>>
    requires live { dict.old.spent ≡ false }
    requires sound { IsDictionary dict.old }
    requires prices { length prices.now ≡ length dict.old.columns }
    requires bounds { length bounds.now ≡ length dict.old.columns + length dict.old.rows }
    requires ordered { All (λ b. N.value b.low ≤ℚ N.value b.high) bounds.now }
    ensures priced { IfOk result (λ _. IsPriced N.value dict.old prices.now bounds.now dict.new) }
    ensures pair { IfErr result (IsFixedPairPosed N.value N.bound dict.old prices.now bounds.now) }
{
    if dict.has_reduced_prices() && keeps_prices(dict, prices) {
        keep_columns(dict, prices, bounds);
        keep_rows(dict, prices.len(), bounds);
        return Ok(());
    }
    put_columns(dict, prices, bounds);
    put_rows(dict, prices.len(), bounds);
    put_reduced(dict)
}

/// Poses a dictionary at these prices of its columns and these bounds of its columns and then of its rows, each in the
/// order in which they were put in. Nothing is asked of the values: they follow.
pub fn pose<N: Exact>(
    dict: Dict<N>,
    prices: &[N],
    bounds: &[Bounds<N>],
) -> Result<Posed<N>, Passed<N>>
    requires live { dict.spent ≡ false }
    requires prices { length prices.now ≡ length dict.columns }
    requires bounds { length bounds.now ≡ length dict.columns + length dict.rows }
    requires ordered { All (λ b. N.value b.low ≤ℚ N.value b.high) bounds.now }
    ensures posed { IfOk result (IsPosing N.value dict prices.now bounds.now) }
    ensures pair { IfErr result (IsPairPosed N.value N.bound dict prices.now bounds.now) }
    ensures fixed { IfErr result (IsFixedPairPosed N.value N.bound dict prices.now bounds.now) }
{
    let mut dict = dict;
    let live = !dict.spent();
    prove!(live);
    put_prices(&mut dict, prices, bounds)?;
    put_others(&mut dict);
    put_basics(&mut dict)?;
    Ok(Posed { dict })
}
