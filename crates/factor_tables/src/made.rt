//! Tables of factors that are made of numbers, and not read.

ghost use Rattle.std.specs.Prelude.{◌≡◌, ◌≤◌, All, map, IfOk};
ghost use Rattle.factor_tables.specs.Factors.{ArePairFactors, marked_row};
ghost use Rattle.factor_tables.specs.Made.{AreApart, AreInBounds, made_entry, made_pair, made_table};

use crate::by_pair::{ByBus, ByOutage, Column, FactorTable, Loss, Pairs, Shift, marked_row};
use market_data::FactorPlaces;
use plain_list::Memory;
use std::alloc::Global;
use std::marker::PhantomData;

/// A record of a table that is made.
#[derive(Clone, Copy, Debug, PartialEq, Eq)]
pub struct MadeFactor {
    /// The row of the branch.
    pub branch: u32,
    /// The number of a bus, or the row of an outage's branch.
    pub of: u32,
    /// The factor in units of the last of the table's places.
    pub units: i64,
}

/// The pair of a record.
fn made_pair(made: &MadeFactor) -> (u32, u32)
    ensures { result ≡ made_pair made.now }
{
    (made.branch, made.of)
}

/// The greatest row that a table of this kind has to mark for these records, 0 where there are none.
fn greatest_row(column: Column, records: &[MadeFactor]) -> u32
    ensures { All (λ made. marked_row column (made_pair made) ≤ result) records.now }
{
    let mut greatest = 0;
    for record in records {
        greatest = marked_row(column, made_pair(record)).max(greatest);
    }
    greatest
}

/// The factors of these records, in 10^-9.
fn pairs_of(
    alloc: Global,
    column: Column,
    places: FactorPlaces,
    records: &[MadeFactor],
) -> Result<Pairs, Memory>
    requires once { AreApart records.now }
    requires sizes { AreInBounds places records.now }
    ensures kept { IfOk result (ArePairFactors column) }
    ensures is { IfOk result (λ pairs. pairs.by_pair.entries ≡ map (made_entry places) records.now) }
{
    let rows = greatest_row(column, records);
    let mut pairs = Pairs::new(alloc, rows as usize, records.len())?;
    for record in records {
        let pair = made_pair(record);
        pairs.add(pair, record.units * places.step(), marked_row(column, pair))?;
    }
    Ok(pairs)
}

impl FactorTable<ByBus> {
    /// The shift table of these records, whose factors are in units of the last of so many places. The second column names buses. It
    /// has a mark for each row up to the greatest branch of a record.
    pub fn of(alloc: Global, places: FactorPlaces, records: &[MadeFactor]) -> Result<Shift, Memory>
        requires once { AreApart records.now }
        requires sizes { AreInBounds places records.now }
        ensures { IfOk result (λ table. table ≡ made_table places records.now) }
    {
        let pairs = pairs_of(alloc, Column::Bus, places, records)?;
        Ok(FactorTable {
            places,
            pairs,
            kind: PhantomData,
        })
    }
}

impl FactorTable<ByOutage> {
    /// The outage table of these records, whose factors are in units of the last of so many places. The second column names outages by
    /// the rows of their branches. It has a mark for each row up to the greatest outage of a record.
    pub fn of(alloc: Global, places: FactorPlaces, records: &[MadeFactor]) -> Result<Loss, Memory>
        requires once { AreApart records.now }
        requires sizes { AreInBounds places records.now }
        ensures { IfOk result (λ table. table ≡ made_table places records.now) }
    {
        let pairs = pairs_of(alloc, Column::Outage, places, records)?;
        Ok(FactorTable {
            places,
            pairs,
            kind: PhantomData,
        })
    }
}
