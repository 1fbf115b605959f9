//! The numbers in the cells of a record.

ghost use Rattle.std.specs.Prelude.{◌≡◌, ◌+◌, ◌<◌, ◌≤◌, ◌^◌, unsigned_abs, length, get_or, [], IfOk, IfSome};
ghost use Rattle.market_data.specs.Scales.{most_factor};
ghost use Rattle.factor_tables.specs.Records.{FactorIsRead, OffsetIsRead, PenaltyIsRead, factor_cell, factor_of_units, offset_in, penalty_in, post_in, record_in};

use crate::TableFault;
use crate::penalty_list::Softness;
use csv_table::Table;
use market_data::{FactorPlaces, MOST_FACTOR, MW_PLACES, PRICE_PLACES};
use record_reading::{FrameFault, Why};

/// A record of a table of factors as it is written.
#[derive(Clone, Copy, Debug)]
pub(crate) struct FactorRecord {
    pub(crate) branch: i64,
    /// The number of a bus, or of an outage's branch.
    pub(crate) of: i64,
    /// In 10^-9.
    pub(crate) factor: i64,
}

/// A record of the table of offsets as it is written.
#[derive(Clone, Copy, Debug)]
pub(crate) struct OffsetRecord {
    pub(crate) branch: i64,
    /// In 10^-9 MW.
    pub(crate) mw: i64,
}

/// A record of the table of penalties as it is written.
#[derive(Clone, Copy, Debug)]
pub(crate) struct PenaltyRecord {
    pub(crate) branch: i64,
    /// Whether it is of the limit after an outage.
    pub(crate) post: bool,
    pub(crate) softness: Softness,
}

/// The factor that is so many units of the last place, in 10^-9; none where its size is above 1000.
fn factor_of_units(places: FactorPlaces, units: i64) -> Option<i64>
    ensures size { IfSome result (λ factor. unsigned_abs factor ≤ most_factor) }
    ensures is { result ≡ factor_of_units places units }
{
    let most = MOST_FACTOR / places.step().unsigned_abs();
    if units.unsigned_abs() > most {
        None
    } else {
        Some(units * places.step())
    }
}

/// The factor in the third cell of a record, in 10^-9.
#[tactic(auto, unfolding(crate::specs::Records::factor_cell))]
fn factor_of(table: &Table, place: usize, places: FactorPlaces) -> Result<i64, TableFault>
    requires { (place < length table.now) × (place + 2 < 2 ^ 64) }
    ensures size { IfOk result (λ factor. unsigned_abs factor ≤ most_factor) }
    ensures is { result ≡ factor_cell places (place + 2) (get_or table.now place []) }
{
    let units = table.number(place, 2, places.count())?;
    match factor_of_units(places, units) {
        Some(factor) => Ok(factor),
        None => Err(TableFault::Frame(FrameFault::Cell {
            line: place + 2,
            col: 3,
            why: Why::Bounds,
        })),
    }
}

/// The numbers of a record, from left to right.
#[tactic(auto, unfolding(crate::specs::Records::record_in))]
pub(crate) fn record_of(
    table: &Table,
    place: usize,
    places: FactorPlaces,
) -> Result<FactorRecord, TableFault>
    requires { (place < length table.now) × (place + 2 < 2 ^ 64) }
    ensures read { IfOk result FactorIsRead }
    ensures is { result ≡ record_in places (place + 2) (get_or table.now place []) }
{
    let branch = table.number(place, 0, 0)?;
    let of = table.number(place, 1, 0)?;
    let factor = factor_of(table, place, places)?;
    Ok(FactorRecord { branch, of, factor })
}

/// The numbers of a record of the table of offsets.
#[tactic(auto, unfolding(crate::specs::Records::offset_in))]
pub(crate) fn offset_of(table: &Table, place: usize) -> Result<OffsetRecord, TableFault>
    requires { (place < length table.now) × (place + 2 < 2 ^ 64) }
    ensures read { IfOk result OffsetIsRead }
    ensures is { result ≡ offset_in (place + 2) (get_or table.now place []) }
{
    let branch = table.number(place, 0, 0)?;
    let mw = table.number(place, 1, MW_PLACES)?;
    Ok(OffsetRecord { branch, mw })
}

/// Whether the second cell of a record of penalties names the limit after an outage, or that in the base.
#[tactic(auto, unfolding(crate::specs::Records::post_in))]
fn post_of(table: &Table, place: usize) -> Result<bool, TableFault>
    requires { (place < length table.now) × (place + 2 < 2 ^ 64) }
    ensures { result ≡ post_in (place + 2) (get_or table.now place []) }
{
    let kind = table.cell(place, 1);
    if kind == b"base".as_slice() {
        Ok(false)
    } else if kind == b"post".as_slice() {
        Ok(true)
    } else {
        Err(TableFault::Kind { line: place + 2 })
    }
}

/// Which limit a record of the table of penalties names, and then its numbers.
#[tactic(auto, unfolding(crate::specs::Records::penalty_in))]
pub(crate) fn penalty_of(table: &Table, place: usize) -> Result<PenaltyRecord, TableFault>
    requires { (place < length table.now) × (place + 2 < 2 ^ 64) }
    ensures read { IfOk result PenaltyIsRead }
    ensures is { result ≡ penalty_in (place + 2) (get_or table.now place []) }
{
    let post = post_of(table, place)?;
    let branch = table.number(place, 0, 0)?;
    let price = table.number(place, 2, PRICE_PLACES)?;
    let excess = table.number(place, 3, MW_PLACES)?;
    Ok(PenaltyRecord {
        branch,
        post,
        softness: Softness {
            price,
            most_excess: excess,
        },
    })
}
