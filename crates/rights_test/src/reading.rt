//! The table of transmission rights.

ghost use Rattle.std.specs.Prelude.{◌≡◌, ◌≢◌, ◌+◌, ◌<◌, ◌≤◌, ◌^◌, length, get_or, All, [], Err, IfOk, IfSome};
ghost use Rattle.market_data.specs.Participants.{IsDatum};
ghost use Rattle.market_model.specs.Rights.{IsTransmissionRight};
ghost use Rattle.market_model.specs.Dispatch.{place_of_bus};
ghost use Rattle.record_reading.specs.Gathering.{read_records};
ghost use Rattle.rights_test.specs.RightsTable.{most_rights, place_in, record_in, right_in, rights_of_table};

use crate::right_parts::{Rights, RightsFault};
use csv_table::{Table, read_table};
use market_model::{Bus, List, MW_PLACES, Market, TransmissionRight};
use std::alloc::Global;

/// The header of the table.
pub const RIGHT_HEADER: &[&str] = &["from", "to", "mw"];

/// The most records of the table.
pub const MOST_RIGHTS: usize = 1000;

/// A record as it is written.
#[derive(Clone, Copy, Debug)]
struct RightRecord {
    /// The numbers of the buses where the right begins and ends.
    from: i64,
    to: i64,
    /// In 10^-9 MW.
    mw: i64,
}

/// The numbers of a record, from left to right.
#[tactic(auto, unfolding(crate::specs::RightsTable::record_in))]
fn record_of(table: &Table, place: usize) -> Result<RightRecord, RightsFault>
    requires { (place < length table.now) × (place + 2 < 2 ^ 64) }
    ensures datum { IfOk result (λ numbers. IsDatum numbers.mw) }
    ensures is { result ≡ record_in (place + 2) (get_or table.now place []) }
{
    let from = table.number(place, 0, 0)?;
    let to = table.number(place, 1, 0)?;
    let mw = table.number(place, 2, MW_PLACES)?;
    Ok(RightRecord { from, to, mw })
}

/// The place of the live bus of a number, where there is one.
#[tactic(auto, unfolding(market_model::specs::Dispatch::place_of_bus))]
fn bus_place(buses: &[Bus], number: i64) -> Option<usize>
    ensures live { IfSome result (λ place. place < length buses.now) }
    ensures is { result ≡ place_of_bus buses.now number }
{
    buses.iter().position(|bus| i64::from(bus.number) == number)
}

/// The place of the live bus that a record names.
fn place_of(buses: &[Bus], number: i64, line: usize) -> Result<usize, RightsFault>
    ensures live { IfOk result (λ place. place < length buses.now) }
    ensures is { result ≡ place_in buses.now line number }
{
    match bus_place(buses, number) {
        Some(place) => Ok(place),
        None => Err(RightsFault::NoBus { line }),
    }
}

/// The right of a record.
#[tactic(auto, unfolding(crate::specs::RightsTable::right_in))]
fn right_of(buses: &[Bus], table: &Table, place: usize) -> Result<TransmissionRight, RightsFault>
    requires { (place < length table.now) × (place + 2 < 2 ^ 64) }
    ensures kept { IfOk result (IsTransmissionRight (length buses.now)) }
    ensures is { result ≡ right_in buses.now (place + 2) (get_or table.now place []) }
{
    let numbers = record_of(table, place)?;
    let from = place_of(buses, numbers.from, place + 2)?;
    let to = place_of(buses, numbers.to, place + 2)?;
    if numbers.mw < 0 {
        return Err(RightsFault::Negative { line: place + 2 });
    }
    Ok(TransmissionRight {
        from,
        to,
        mw: numbers.mw,
    })
}

/// The rights of a table's records.
fn rights_of(alloc: Global, buses: &[Bus], table: &Table) -> Result<Rights, RightsFault>
    ensures count { IfOk result (λ rights. length rights ≤ length table.now) }
    ensures kept { IfOk result (All (IsTransmissionRight (length buses.now))) }
    ensures is { result ≢ Err RightsFault.Memory → result ≡ read_records (λ done. right_in buses.now) [] 2 table.now }
{
    let mut rights = List::new(alloc);
    for place in 0..table.len() {
        let right = right_of(buses, table, place)?;
        rights.push(right)?;
    }
    Ok(rights)
}

/// Reads the table of rights between live buses of a market.
pub fn rights(alloc: Global, market: &Market, bytes: &[u8]) -> Result<Rights, RightsFault>
    ensures count { IfOk result (λ rights. length rights ≤ most_rights) }
    ensures kept { IfOk result (All (IsTransmissionRight (length market.now.buses))) }
    ensures is { result ≢ Err RightsFault.Memory → result ≡ rights_of_table market.now bytes.now }
{
    let table = read_table(alloc, bytes, RIGHT_HEADER, Some(MOST_RIGHTS))??;
    rights_of(alloc, market.buses().slice(), &table)
}
