//! Reading the bus rows of a case.

ghost use Rattle.std.specs.Prelude.{◌≡◌, ◌≢◌, ◌+◌, ◌≤◌, ◌==◌, [], ◌∷◌, ◌++◌, length, IfOk, IfErr, MatchResult, None, Err};
ghost use Rattle.std.specs.Map.{lookup};
ghost use Rattle.market_data.specs.Participants.{IsBus};
ghost use Rattle.record_reading.specs.Gathering.{listed};
ghost use Rattle.net_case.specs.NetworkReading.{row_at, counted_in, demands_in, row_of_type, next_place, reference_after, bus_row_after, bus_rows, place_of_number, named_place};
ghost use Rattle.net_case.specs.Networks.{IsBusNumber};
ghost use Rattle.net_case.specs.BusReading.{IsBusRow, AreRead, AreLive, HoldBusRows};

use crate::cells::{cell_fault, number};
use crate::columns::{BUS_I, BUS_TYPE, GS, PD};
use crate::limits::MOST_BUS_NUMBER;
use crate::live_parts::{NetFault, Places, noted_place};
use case_text::{Field, RawCase};
use indexmap::IndexMap;
use market_data::{Bus, MW_PLACES};
use plain_list::List;
use record_reading::{Why, push_some};
use std::alloc::Global;

/// A bus row: its number, whether it is a reference, and the bus where it is live.
#[derive(Clone, Copy)]
pub struct BusRow {
    pub number: u32,
    pub is_reference: bool,
    pub live: Option<Bus>,
}

/// The whole number in a bus row's cell, from 1 to the most that its column takes.
#[tactic(auto, unfolding(crate::specs::NetworkReading::counted_in))]
fn counted(case: &RawCase<'_>, row: usize, col: usize, most: u32) -> Result<u32, NetFault>
    requires { (1 ≤ row) × (1 ≤ col) }
    ensures range { IfOk result (λ number. (1 ≤ number) × (number ≤ most)) }
    ensures is { result ≡ counted_in row (row_at case.now.bus row) col most }
{
    let number = number(case, Field::Bus, row, col, 0)?;
    if 1 <= number && number <= i64::from(most) {
        Ok(number as u32)
    } else {
        Err(cell_fault(Field::Bus, row, col, Why::Bounds))
    }
}

/// The demands of a live bus.
#[tactic(auto, unfolding(crate::specs::NetworkReading::demands_in))]
fn live_bus(case: &RawCase<'_>, row: usize, bus: u32) -> Result<Bus, NetFault>
    requires { 1 ≤ row }
    ensures bus { IfOk result IsBus }
    ensures number { IfOk result (λ live. live.number ≡ bus) }
    ensures is { result ≡ demands_in row (row_at case.now.bus row) bus }
{
    let pd = number(case, Field::Bus, row, PD, MW_PLACES)?;
    let gs = number(case, Field::Bus, row, GS, MW_PLACES)?;
    Ok(Bus {
        number: bus,
        pd,
        gs,
    })
}

/// The row of a bus of a type: 3 is the reference, 4 is isolated.
#[tactic(auto, unfolding(crate::specs::NetworkReading::row_of_type))]
fn typed_row(case: &RawCase<'_>, row: usize, number: u32, code: u32) -> Result<BusRow, NetFault>
    requires row { 1 ≤ row }
    requires number { IsBusNumber number }
    ensures bus { IfOk result IsBusRow }
    ensures is { result ≡ row_of_type row (row_at case.now.bus row) number code }
    ensures number { IfOk result (λ bus. bus.number ≡ number) }
{
    if code == 4 {
        return Ok(BusRow {
            number,
            is_reference: false,
            live: None,
        });
    }
    match live_bus(case, row, number) {
        Ok(bus) => Ok(BusRow {
            number,
            is_reference: code == 3,
            live: Some(bus),
        }),
        Err(fault) => Err(fault),
    }
}

/// The live buses so far, with all bus rows by number, and the place of the first reference.
#[derive(Drop)]
pub struct BusRows {
    pub buses: List<Bus>,
    pub places: Places,
    pub reference: Option<usize>,
}

/// The live buses of a case, with all bus rows by number, and the place of the reference.
#[derive(Drop)]
pub struct LiveBuses {
    pub buses: List<Bus>,
    pub places: Places,
    pub reference: usize,
}

/// Notes that a row has this number, and its place among the live buses where it is live.
fn note_place(places: &mut Places, number: u32, place: Option<usize>) -> Result<(), NetFault>
    requires { lookup (λ other. number == other) places.old.entries ≡ None }
    ensures noted { IfOk result (λ _. places.new.entries ≡ places.old.entries ++ (number, place) ∷ []) }
    ensures fault { IfErr result (λ fault. fault ≡ NetFault.Memory) }
{
    match places.insert(number, place) {
        Ok(_) => Ok(()),
        Err(_) => Err(NetFault::Memory),
    }
}

/// Reads one more bus row.
#[tactic(auto, unfolding(crate::specs::NetworkReading::bus_row_after))]
fn read_bus(places: &Places, case: &RawCase<'_>, row: usize) -> Result<BusRow, NetFault>
    requires { 1 ≤ row }
    ensures bus { IfOk result IsBusRow }
    ensures new { IfOk result (λ bus. lookup (λ other. bus.number == other) places.now.entries ≡ None) }
    ensures is { result ≡ bus_row_after places.now.entries row (row_at case.now.bus row) }
{
    let number = counted(case, row, BUS_I, MOST_BUS_NUMBER)?;
    if noted_place(places, number).is_some() {
        return Err(NetFault::BusTwice { row });
    }
    let code = counted(case, row, BUS_TYPE, 4)?;
    typed_row(case, row, number, code)
}

/// The place of a bus behind so many live ones, where it is live.
fn place_after(count: usize, live: Option<Bus>) -> Option<usize>
    ensures { result ≡ next_place count live }
{
    match live {
        Some(_) => Some(count),
        None => None,
    }
}

/// The place of the first reference, with one row more behind so many live buses.
fn first_reference(reference: Option<usize>, count: usize, is_reference: bool) -> Option<usize>
    ensures { result ≡ reference_after reference count is_reference }
{
    match reference {
        None if is_reference => Some(count),
        _ => reference,
    }
}

/// Keeps a bus row that was read.
fn keep_bus(rows: &mut BusRows, bus: BusRow) -> Result<(), NetFault>
    requires new { lookup (λ other. bus.number == other) rows.old.places.entries ≡ None }
    ensures buses { IfOk result (λ _. rows.new.buses ≡ rows.old.buses ++ listed bus.live) }
    ensures places { IfOk result (λ _. rows.new.places.entries ≡ rows.old.places.entries ++ (bus.number, next_place (length rows.old.buses) bus.live) ∷ []) }
    ensures reference { rows.new.reference ≡ reference_after rows.old.reference (length rows.old.buses) bus.is_reference }
    ensures fault { IfErr result (λ fault. fault ≡ NetFault.Memory) }
{
    let count = rows.buses.len();
    rows.reference = first_reference(rows.reference, count, bus.is_reference);
    push_some(&mut rows.buses, bus.live)?;
    note_place(&mut rows.places, bus.number, place_after(count, bus.live))
}

/// The live buses, with all bus rows by number.
pub fn read_buses(alloc: Global, case: &RawCase<'_>) -> Result<LiveBuses, NetFault>
    ensures rows { IfOk result AreLive }
    ensures count { IfOk result (λ rows. length rows.buses ≤ length case.now.bus) }
    ensures is { MatchResult result (HoldBusRows case.now.bus) (λ fault. fault ≢ NetFault.Memory → bus_rows case.now.bus ≡ Err fault) }
{
    let mut rows = BusRows {
        buses: List::new(alloc),
        places: IndexMap::new(alloc),
        reference: None,
    };
    for row in 0..case.rows(Field::Bus) {
        let bus = read_bus(&rows.places, case, row + 1)?;
        keep_bus(&mut rows, bus)?;
    }
    match rows.reference {
        Some(reference) => Ok(LiveBuses {
            buses: rows.buses,
            places: rows.places,
            reference,
        }),
        None => Err(NetFault::NoReference),
    }
}

/// The place of a bus that a row names, where that is live.
pub fn named_place(
    place: Option<Option<usize>>,
    field: Field,
    row: usize,
) -> Result<Option<usize>, NetFault>
    ensures { result ≡ named_place field row place }
{
    match place {
        Some(place) => Ok(place),
        None => Err(NetFault::NoBus { field, row }),
    }
}
