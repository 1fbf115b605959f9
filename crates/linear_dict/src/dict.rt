ghost use Rattle.std.specs.Prelude.{◌≡◌, ◌≢◌, ◌<◌, pos, true, IfErr, IfOk, MatchResult, ◌∷◌, [], ℕ, IsTrue, List, length, map, false, slice_index};
ghost use Rattle.std.specs.List.{AllPairs, Contains};
ghost use Rattle.linear_dict.specs.Indexes.{IsStartedIndex, name_of};
ghost use Rattle.linear_system.specs.Choices.{IsChoice};
ghost use Rattle.fraction_theory.specs.Fraction.{whole};
ghost use Rattle.linear_dict.specs.Causes.{AddShare, IsPairOf, IsPairWith, IsRefused, OnPassed, PivotShare};
ghost use Rattle.linear_dict.specs.Dictionaries.{AddsColumn, AddsRow, IsDictionary, IsStart, choice_of, note_of, pivoted, system_in, with_note};
ghost use Rattle.linear_dict.specs.Notes.{noted};
ghost use Rattle.linear_dict.specs.Places.{StandsAt};
ghost use Rattle.linear_dict.specs.ReducedPrices.{HasReducedPrices};
ghost use Rattle.linear_dict.specs.Tables.{cell};

use crate::adding::{AddStop, append, make_room, make_room_for_name, row_entries};
use crate::changes::{Change, make_room_for_changes};
use crate::column::{make_room_for_column, widen_table};
use crate::index::{Variable, add_variable, rank};
use crate::note::{Note, blank_note};
use crate::place::Place;
use crate::table::pivot_table;
use exact_fraction::{Exact, Passed};
use plain_list::Memory;
use std::alloc::Global;
use std::marker::Model;

/// A dictionary over variables named by distinct numbers.
#[derive(Drop)]
pub struct Dict<N: Exact> {
    columns: Vec<u32>,
    rows: Vec<u32>,
    coefficients: Vec<N>,
    others: Vec<u32>,
    basics: Vec<u32>,
    table: Vec<N>,
    /// The names of the variables, for a search of little memory.
    names: Vec<u32>,
    variables: Vec<Variable<N>>,
    spent: bool,
    /// Where a pivot lists the columns that it changes: there is room for each.
    changes: Vec<Change<N>>,
    /// Whether a column was ever added, without which a pivot finds hardly two alike.
    is_widened: bool,
    /// Whether it is known that the reduced prices that are noted are those of the table.
    is_priced: bool,
}

impl<N: Exact> Model for Dict<N> {
    ghost use Rattle.std.specs.Prelude.{◌≡◌, ◌≤◌, IsTrue, length, map};
    ghost use Rattle.std.specs.Vec.{vec_capacity};
    ghost use Rattle.linear_dict.specs.Dictionaries.{Dictionary, IsDictionary, dictionary_code, seen};
    ghost use Rattle.linear_dict.specs.Indexes.{IsIndex, name_of};
    ghost use Rattle.linear_dict.specs.ReducedPrices.{HasReducedPrices};

    ghost Value = { Dictionary };

    ghost coded = { dictionary_code };

    ghost view = { λ d. seen N.value d.columns.items d.rows.items d.coefficients.items d.others.items d.basics.items d.table.items
        d.variables.items d.spent };

    ghost invariant = { λ d. IsIndex d.variables.items d.basics.items d.others.items d.rows.items d.columns.items
        × IsDictionary (seen N.value d.columns.items d.rows.items d.coefficients.items d.others.items d.basics.items
        d.table.items d.variables.items d.spent)
        × (d.names.items ≡ map name_of d.variables.items)
        × (length d.others.items ≤ vec_capacity d.changes)
        × (IsTrue d.is_priced → HasReducedPrices (seen N.value d.columns.items d.rows.items d.coefficients.items d.others.items
        d.basics.items d.table.items d.variables.items d.spent)) };
}

/// A copy of the items.
fn copied<T: Copy>(alloc: Global, items: &[T]) -> Result<Vec<T>, Memory>
    ensures { IfOk result (λ copy. copy.items ≡ items.now) }
{
    match Vec::from_slice(alloc, items) {
        Ok(copy) => Ok(copy),
        Err(_) => Err(Memory),
    }
}

/// The index of a row and of columns as put in, with blank notes: all names, and the variables.
fn started<N: Exact>(
    alloc: Global,
    columns: &[u32],
    row: u32,
) -> Result<(Vec<u32>, Vec<Variable<N>>), Memory>
    requires distinct { AllPairs (λ x y. x ≢ y) columns.now }
    requires absent { ¬ (Contains columns.now row) }
    ensures index { IfOk result (λ index. IsStartedIndex N.value index.1.items row columns.now) }
    ensures named { IfOk result (λ index. index.0.items ≡ map name_of index.1.items) }
{
    let note = blank_note();
    let mut names = Vec::new(alloc);
    let mut variables = Vec::new(alloc);
    let place = Place::Row(0);
    add_variable(
        &mut names,
        &mut variables,
        Variable {
            name: row,
            place,
            put: place,
            note,
        },
    )?;
    for c in 0..columns.len() {
        let place = Place::Column(c);
        add_variable(
            &mut names,
            &mut variables,
            Variable {
                name: columns[c],
                place,
                put: place,
                note,
            },
        )?;
    }
    Ok((names, variables))
}

impl<N: Exact> Dict<N> {
    /// A dictionary of one row, `entries` times the columns, which is basic.
    pub fn start(alloc: Global, columns: &[u32], row: u32, entries: &[N]) -> Result<Dict<N>, Memory>
        requires distinct { AllPairs (λ x y. x ≢ y) columns.now }
        requires absent { ¬ (Contains columns.now row) }
        requires entries { length entries.now ≡ length columns.now }
        ensures { IfOk result (IsStart N.value columns.now row entries.now) }
    {
        let (names, variables) = started(alloc, columns, row)?;
        let rows = [row];
        let Ok(changes) = Vec::with_capacity(alloc, columns.len()) else {
            return Err(Memory);
        };
        Ok(Dict {
            columns: copied(alloc, columns)?,
            rows: copied(alloc, &rows)?,
            coefficients: copied(alloc, entries)?,
            others: copied(alloc, columns)?,
            basics: copied(alloc, &rows)?,
            table: copied(alloc, entries)?,
            names,
            variables,
            spent: false,
            changes,
            is_widened: false,
            is_priced: false,
        })
    }

    /// Whether a pivot was refused, after which nothing else can be asked.
    pub fn spent(&self) -> bool
        ensures answer { result ≡ self.now.spent }
        ensures sound { IsDictionary self.now }
    {
        self.spent
    }

    pub fn row_count(&self) -> usize
        requires { self.now.spent ≡ false }
        ensures { result ≡ length self.now.basics }
    {
        self.basics.len()
    }

    pub fn column_count(&self) -> usize
        requires { self.now.spent ≡ false }
        ensures { result ≡ length self.now.others }
    {
        self.others.len()
    }

    /// How many variables there are.
    pub fn name_count(&self) -> usize
        requires { self.now.spent ≡ false }
        ensures { result ≡ length self.now.names }
    {
        self.names.len()
    }

    /// The basic variable of a row place.
    pub fn basics(&self, r: usize) -> u32
        requires live { self.now.spent ≡ false }
        requires within { r < length self.now.basics }
        ensures { result ≡ slice_index self.now.basics r }
    {
        self.basics[r]
    }

    /// The other variable of a column place.
    pub fn others(&self, c: usize) -> u32
        requires live { self.now.spent ≡ false }
        requires within { c < length self.now.others }
        ensures { result ≡ slice_index self.now.others c }
    {
        self.others[c]
    }

    /// The name of a column, in the order in which they were put in.
    pub fn column_name(&self, place: usize) -> u32
        requires live { self.now.spent ≡ false }
        requires within { place < length self.now.columns }
        ensures { result ≡ slice_index self.now.columns place }
    {
        self.columns[place]
    }

    /// The name of a row, in the order in which they were put in.
    pub fn row_name(&self, place: usize) -> u32
        requires live { self.now.spent ≡ false }
        requires within { place < length self.now.rows }
        ensures { result ≡ slice_index self.now.rows place }
    {
        self.rows[place]
    }

    /// The name of a rank: the first is the least of all names.
    pub fn ranked(&self, rank: usize) -> u32
        requires live { self.now.spent ≡ false }
        requires within { rank < length self.now.names }
        ensures { result ≡ slice_index self.now.names rank }
    {
        self.names[rank]
    }

    /// The rank of a name, by a search; all that is asked by rank is read at once.
    pub fn rank_of(&self, name: u32) -> usize
        requires live { self.now.spent ≡ false }
        requires named { Contains self.now.names name }
        ensures within { result < length self.now.names }
        ensures name { slice_index self.now.names result ≡ name }
    {
        rank(&self.names, name)
    }

    /// Where the variable of a rank stands in the table.
    pub fn place_at(&self, rank: usize) -> Place
        requires live { self.now.spent ≡ false }
        requires within { rank < length self.now.names }
        ensures { StandsAt self.now.basics self.now.others (slice_index self.now.names rank) result }
    {
        self.variables[rank].place
    }

    /// Where a variable stands in the table.
    pub fn place(&self, name: u32) -> Place
        requires live { self.now.spent ≡ false }
        requires named { Contains self.now.names name }
        ensures { StandsAt self.now.basics self.now.others name result }
    {
        self.place_at(self.rank_of(name))
    }

    /// By how much the basic variable of a row place rises where the other one of a column place rises by 1.
    pub fn entry(&self, r: usize, c: usize) -> N
        requires live { self.now.spent ≡ false }
        requires row { r < length self.now.basics }
        requires column { c < length self.now.others }
        ensures value { N.value result ≡ cell (length self.now.others) self.now.table r c }
        ensures entry { N.value result ≡ (choice_of self.now).entry (slice_index self.now.basics r) (slice_index self.now.others c) }
        ensures choice { IsChoice (system_in self.now) (choice_of self.now) }
    {
        self.table[r * self.others.len() + c]
    }

    /// What the layer above last noted of the variable of a rank.
    pub fn note_at(&self, rank: usize) -> Note<N>
        requires live { self.now.spent ≡ false }
        requires within { rank < length self.now.names }
        ensures { noted N.value result ≡ note_of self.now (slice_index self.now.names rank) }
    {
        self.variables[rank].note
    }

    /// What the layer above last noted of a variable.
    pub fn note(&self, name: u32) -> Note<N>
        requires live { self.now.spent ≡ false }
        requires named { Contains self.now.names name }
        ensures { noted N.value result ≡ note_of self.now name }
    {
        self.note_at(self.rank_of(name))
    }

    /// Notes this of the variable of a rank, and changes nothing else.
    pub fn set_note_at(&mut self, rank: usize, note: Note<N>)
        requires live { self.old.spent ≡ false }
        requires within { rank < length self.old.names }
        ensures { self.new ≡ with_note self.old (slice_index self.old.names rank) (noted N.value note) }
    {
        self.is_priced = false;
        self.variables[rank].note = note;
    }

    /// Notes this of a variable, and changes nothing else.
    pub fn set_note(&mut self, name: u32, note: Note<N>)
        requires live { self.old.spent ≡ false }
        requires named { Contains self.old.names name }
        ensures { self.new ≡ with_note self.old name (noted N.value note) }
    {
        let rank = self.rank_of(name);
        self.set_note_at(rank, note);
    }

    /// Whether it is known that the reduced prices that are noted are those of the table, since they were and only rows and columns
    /// were put in. Otherwise they may be so or not.
    pub fn has_reduced_prices(&self) -> bool
        ensures { IsTrue result → HasReducedPrices self.now }
    {
        self.is_priced
    }

    /// Keeps in mind that they are, until a note is changed or a variable exchanged.
    pub fn keep_reduced_prices(&mut self)
        requires { HasReducedPrices self.old }
        ensures { self.new ≡ self.old }
    {
        self.is_priced = true;
    }

    /// Adds a row, `entries` times the columns as put in, which is basic at a new last row place. All is as before after
    /// a refusal, and where there is no memory.
    pub fn add_row(&mut self, row: u32, entries: &[N]) -> Result<(), AddStop<N>>
        requires live { self.old.spent ≡ false }
        requires absent { ¬ (Contains self.old.names row) }
        requires entries { length entries.now ≡ length self.old.columns }
        ensures added { MatchResult result (λ _. AddsRow N.value self.old row entries.now self.new) (λ _. self.new ≡ self.old) }
        ensures stops { IfErr result (λ stop. OnPassed stop (IsRefused N.value N.bound (AddShare self.old (map N.value entries.now)))) }
        ensures pair { IfErr result (λ stop. OnPassed stop (IsPairWith N.value N.bound self.old row entries.now)) }
    {
        let alloc = *self.table.allocator();
        let fresh = row_entries(
            alloc,
            &self.variables,
            &self.table,
            self.others.len(),
            entries,
        )?;
        make_room(
            &mut self.rows,
            &mut self.basics,
            &mut self.coefficients,
            &mut self.table,
            entries.len(),
        )?;
        let variable = Variable {
            name: row,
            place: Place::Row(self.basics.len()),
            put: Place::Row(self.rows.len()),
            note: blank_note(),
        };
        add_variable(&mut self.names, &mut self.variables, variable)?;
        self.rows.push_reserved(row);
        self.basics.push_reserved(row);
        append(&mut self.coefficients, entries);
        append(&mut self.table, &fresh);
        Ok(())
    }

    /// Adds a column at a new last column place, whose entries are 0 in all rows, so that no solution changes. All is as
    /// before where there is no memory.
    pub fn add_column(&mut self, column: u32) -> Result<(), Memory>
        requires live { self.old.spent ≡ false }
        requires absent { ¬ (Contains self.old.names column) }
        ensures { MatchResult result (λ _. AddsColumn self.old column self.new) (λ _. self.new ≡ self.old) }
    {
        let (rows, columns) = (self.rows.len(), self.columns.len());
        let (basics, others) = (self.basics.len(), self.others.len());
        make_room_for_changes(&mut self.changes, others + 1)?;
        make_room_for_column(&mut self.coefficients, rows)?;
        make_room_for_column(&mut self.table, basics)?;
        make_room_for_name(&mut self.columns)?;
        make_room_for_name(&mut self.others)?;
        let variable = Variable {
            name: column,
            place: Place::Column(others),
            put: Place::Column(columns),
            note: blank_note(),
        };
        add_variable(&mut self.names, &mut self.variables, variable)?;
        self.columns.push_reserved(column);
        self.others.push_reserved(column);
        widen_table(&mut self.coefficients, rows, columns);
        widen_table(&mut self.table, basics, others);
        self.is_widened = true;
        Ok(())
    }

    /// Exchanges the variables of a row place and a column place, in place and without memory. After a refusal the
    /// dictionary is spent.
    pub fn pivot(&mut self, r: usize, c: usize) -> Result<(), Passed<N>>
        requires live { self.old.spent ≡ false }
        requires row { r < length self.old.basics }
        requires column { c < length self.old.others }
        requires entry { cell (length self.old.others) self.old.table r c ≢ whole (pos 0) }
        ensures pivoted { MatchResult result (λ _. self.new ≡ pivoted self.old r c) (λ _. self.new.spent ≡ true) }
        ensures stops { IfErr result (IsRefused N.value N.bound (PivotShare (length self.old.basics) (length self.old.others) (cell (length self.old.others) self.old.table) r c)) }
        ensures pair { IfErr result (IsPairOf N.value N.bound (system_in self.old)) }
        ensures sound { IsDictionary self.new }
    {
        self.spent = true;
        self.is_priced = false;
        pivot_table(
            &mut self.table,
            self.basics.len(),
            self.others.len(),
            r,
            c,
            &mut self.changes,
            self.is_widened,
        )?;
        let leaving = self.basics[r];
        let entering = self.others[c];
        let leaving_rank = rank(&self.names, leaving);
        let entering_rank = rank(&self.names, entering);
        self.variables[leaving_rank].place = Place::Column(c);
        self.variables[entering_rank].place = Place::Row(r);
        self.basics[r] = entering;
        self.others[c] = leaving;
        self.spent = false;
        Ok(())
    }
}
