//! The numbers of the outages that are asked for.

ghost use Rattle.std.specs.Prelude.{◌≡◌, ◌≢◌, ℕ, ◌+◌, ◌<◌, ◌≤◌, ◌^◌, length, get_or, [], Ok, Err, IfOk, All, unsigned_abs};
ghost use Rattle.record_reading.specs.Gathering.{read_records};
ghost use Rattle.market_data.specs.Scales.{most_outages};
ghost use Rattle.factor_tables.specs.OutageNumbers.{outage_number, outage_rows_of};

use crate::TableFault;
use csv_table::{Table, read_table};
use market_data::MOST_OUTAGES;
use plain_list::List;
use std::alloc::Global;

/// Numbers that are to name branches, one for each record.
pub type OutageRows = List<i64>;

/// The header of the table of outages.
pub const OUTAGE_HEADER: &[&str] = &["branch"];

/// The numbers of a table's records.
fn numbers_of(alloc: Global, table: &Table) -> Result<List<i64>, TableFault>
    ensures count { IfOk result (λ numbers. length numbers ≤ length table.now) }
    ensures is { result ≢ Err TableFault.Memory → result ≡ read_records outage_number [] 2 table.now }
{
    let mut numbers = List::new(alloc);
    for place in 0..table.len() {
        let number = table.number(place, 0, 0)?;
        numbers.push(number)?;
    }
    Ok(numbers)
}

/// Reads the table of outages. Whether its numbers name branches is asked elsewhere.
pub fn outage_rows(alloc: Global, bytes: &[u8]) -> Result<OutageRows, TableFault>
    ensures few { IfOk result (λ rows. length rows ≤ most_outages) }
    ensures is { result ≢ Err TableFault.Memory → result ≡ outage_rows_of bytes.now }
{
    let table = read_table(alloc, bytes, OUTAGE_HEADER, Some(MOST_OUTAGES))??;
    numbers_of(alloc, &table)
}
