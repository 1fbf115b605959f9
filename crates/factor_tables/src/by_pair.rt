//! Factors by pair.

ghost use Rattle.std.specs.Prelude.{◌≡◌, ℕ, ◌≤◌, ◌<◌, ◌+◌, ◌^◌, ◌++◌, ◌∷◌, [], List, unsigned_abs, length, get_or, slice_get, slice_set, IfOk, IfSome, Some, is_some, nat_lt, false, true};
ghost use Rattle.market_data.specs.Scales.{most_factor};
ghost use Rattle.factor_tables.specs.Factors.{Entry, ArePairFactors, FactorRecords, IsFactorOfPair, factor_at, has_pair, has_row, listed_entry, marked_row};

use indexmap::IndexMap;
use market_data::FactorPlaces;
use plain_list::Memory;
use std::alloc::Global;
use std::marker::{Model, PhantomData};

/// What the second column of a table of factors names.
#[derive(Clone, Copy, Debug, PartialEq, Eq)]
pub enum Column {
    Bus,
    Outage,
}

// The row of a pair that the table is asked for: the branch of a shift table, the outage of an outage table.
pub(crate) fn marked_row(column: Column, pair: (u32, u32)) -> u32
    ensures { result ≡ marked_row column pair }
{
    match column {
        Column::Bus => pair.0,
        Column::Outage => pair.1,
    }
}

/// A record of a table of factors.
#[derive(Clone, Copy, Debug, PartialEq, Eq)]
pub struct ListedFactor {
    /// The row of the branch.
    pub branch: u32,
    /// The number of a bus, or the row of an outage's branch.
    pub of: u32,
    /// In 10^-9.
    pub factor: i64,
}

/// Factors by pair, and which rows have been marked.
#[derive(Drop)]
pub(crate) struct Pairs {
    pub(crate) by_pair: IndexMap<(u32, u32), i64>,
    pub(crate) marked: Vec<bool>,
}

impl Pairs {
    // No factors, and no row of so many marked. It holds as many factors as its capacity before it takes more memory.
    pub(crate) fn new(alloc: Global, rows: usize, capacity: usize) -> Result<Pairs, Memory>
        requires { rows + 1 < 2 ^ 64 }
        ensures none { IfOk result (λ pairs. pairs.by_pair.entries ≡ []) }
        ensures unmarked { IfOk result (λ pairs. (row : ℕ) → get_or pairs.marked.items row false ≡ false) }
        ensures rows { IfOk result (λ pairs. length pairs.marked.items ≡ rows + 1) }
    {
        let Ok(marked) = vec![in alloc; false; rows + 1] else {
            return Err(Memory);
        };
        let Ok(by_pair) = IndexMap::with_capacity(alloc, capacity) else {
            return Err(Memory);
        };
        Ok(Pairs { by_pair, marked })
    }

    // Whether a pair has a factor.
    pub(crate) fn has(&self, pair: (u32, u32)) -> bool
        ensures { result ≡ has_pair self.now.by_pair.entries pair }
    {
        self.by_pair.contains_key(&pair)
    }

    // Whether a row is marked.
    pub(crate) fn is_marked(&self, row: u32) -> bool
        ensures { result ≡ get_or self.now.marked.items row false }
    {
        self.marked.get(row as usize).copied().unwrap_or(false)
    }

    // The factor of a pair, 0 where it has none.
    pub(crate) fn factor(&self, pair: (u32, u32)) -> i64
        ensures { result ≡ factor_at self.now.by_pair.entries pair }
    {
        self.by_pair.get(&pair).copied().unwrap_or(0)
    }

    // The same, where the record at a place is looked at first, and the place behind the record that is found.
    pub(crate) fn factor_near(&self, place: usize, pair: (u32, u32)) -> (i64, usize)
        ensures { result.0 ≡ factor_at self.now.by_pair.entries pair }
    {
        match self.by_pair.get_index(place) {
            Some((here, factor)) if *here == pair => (*factor, place.wrapping_add(1)),
            _ => match self.by_pair.get_full(&pair) {
                Some((found, _, factor)) => (*factor, found.wrapping_add(1)),
                None => (0, place),
            },
        }
    }

    // How many records there are.
    pub(crate) fn len(&self) -> usize
        ensures { result ≡ length self.now.by_pair.entries }
    {
        self.by_pair.len()
    }

    // The record at a place, in the order in which they were added.
    pub(crate) fn record(&self, place: usize) -> Option<ListedFactor>
        ensures there { is_some result ≡ nat_lt place (length self.now.by_pair.entries) }
        ensures is { IfSome result (λ listed. slice_get self.now.by_pair.entries place ≡ Some (listed_entry listed)) }
    {
        let (pair, factor) = self.by_pair.get_index(place)?;
        Some(ListedFactor {
            branch: pair.0,
            of: pair.1,
            factor: *factor,
        })
    }

    // Adds the factor of a pair that has none, and marks a row.
    pub(crate) fn add(&mut self, pair: (u32, u32), factor: i64, row: u32) -> Result<(), Memory>
        requires new { has_pair self.old.by_pair.entries pair ≡ false }
        requires row { row < length self.old.marked.items }
        ensures entries { IfOk result (λ _. self.new.by_pair.entries ≡ self.old.by_pair.entries ++ (pair, factor) ∷ []) }
        ensures marked { IfOk result (λ _. self.new.marked.items ≡ slice_set self.old.marked.items row true) }
    {
        if self.by_pair.insert(pair, factor).is_err() {
            return Err(Memory);
        }
        self.marked[row as usize] = true;
        Ok(())
    }
}

/// A kind of tables of factors, by what the second column names.
pub trait TableKind {
    ghost use Rattle.factor_tables.specs.declared.by_pair.Column.{Column};

    ghost column: { Column };
}

/// The column names buses, by their numbers.
pub struct ByBus;

impl TableKind for ByBus {
    ghost use Rattle.factor_tables.specs.declared.by_pair.Column.TheVariants as names;

    ghost column = { names.Bus };
}

/// The column names outages, by the rows of their branches.
pub struct ByOutage;

impl TableKind for ByOutage {
    ghost use Rattle.factor_tables.specs.declared.by_pair.Column.TheVariants as names;

    ghost column = { names.Outage };
}

/// A table of factors of one kind, in 10^-9. Contracts see it as how many places its factors may have and the list of its records, also
/// of those that are not used.
#[derive(Drop)]
pub struct FactorTable<K: TableKind> {
    pub(crate) places: FactorPlaces,
    pub(crate) pairs: Pairs,
    pub(crate) kind: PhantomData<K>,
}

/// A shift table: what flows over a branch for each MW put in at a bus.
pub type Shift = FactorTable<ByBus>;

/// An outage table: how much of a lost branch's flow goes over another.
pub type Loss = FactorTable<ByOutage>;

impl<K: TableKind> Model for FactorTable<K> {
    ghost use Rattle.factor_tables.specs.Factors.{ArePairFactors, FactorRecords};

    ghost Value = { FactorRecords };

    ghost view = { λ table. record { places = table.places; entries = table.pairs.by_pair.entries } };

    ghost invariant = { λ table. ArePairFactors K.column table.pairs };
}

impl<K: TableKind> FactorTable<K> {
    /// How many places the table was read with.
    pub fn places(&self) -> FactorPlaces
        ensures { result ≡ self.now.places }
    {
        self.places
    }

    /// How many records the table has.
    pub fn len(&self) -> usize
        ensures { result ≡ length self.now.entries }
    {
        self.pairs.len()
    }

    /// The record at a place, the first being 0; none beyond the last.
    pub fn record(&self, place: usize) -> Option<ListedFactor>
        ensures there { is_some result ≡ nat_lt place (length self.now.entries) }
        ensures is { IfSome result (λ listed. slice_get self.now.entries place ≡ Some (listed_entry listed)) }
    {
        self.pairs.record(place)
    }

    /// The factor of a branch's row and a number of the second column, 0 where they have no record.
    pub fn factor(&self, branch: u32, of: u32) -> i64
        ensures size { unsigned_abs result ≤ most_factor }
        ensures means { IsFactorOfPair self.now.entries (branch, of) result }
        ensures is { result ≡ factor_at self.now.entries (branch, of) }
    {
        self.pairs.factor((branch, of))
    }

    /// The same, and the place behind the record of the factor, or `place` where there is none. The record at `place` is looked at
    /// before all others: where factors are asked for in the order of the records, each is found at once.
    pub fn factor_near(&self, place: usize, branch: u32, of: u32) -> (i64, usize)
        ensures size { unsigned_abs result.0 ≤ most_factor }
        ensures means { IsFactorOfPair self.now.entries (branch, of) result.0 }
        ensures is { result.0 ≡ factor_at self.now.entries (branch, of) }
    {
        self.pairs.factor_near(place, (branch, of))
    }

    /// Whether some record is of this row: that of a branch in a shift table, that of an outage in an outage table.
    pub fn has(&self, row: u32) -> bool
        ensures { result ≡ has_row K.column self.now.entries row }
    {
        self.pairs.is_marked(row)
    }
}
