//! The table of reserves: what units offer of spinning reserve, and how much is needed.

ghost use Rattle.std.specs.Prelude.{◌≡◌, ◌≢◌, ℕ, ◌+◌, ◌^◌, ◌≤◌, ◌<◌, length, get_or, [], Ok, Err, IfOk, IfErr, IfSome};
ghost use Rattle.market_data.specs.Scales.{most_units};
ghost use Rattle.market_model.specs.Market.{IsReserve};
ghost use Rattle.offer_book.specs.Reserving.{AreFound, IsEntry, OfferIsWritten, entry_in, found_from, found_with, is_empty, kind_in, live_entry, need_entry, nothing_found, offer_entry, place_in, reserve_of_table, written_in};

use crate::offer_table::place_of;
use csv_table::{Table, read_table};
use market_data::MOST_RESERVES;
use market_model::{
    List, MW_PLACES, Memory, PRICE_PLACES, Reserve, ReserveOffer, UnitList, is_offered,
};
use record_reading::FrameFault;
use std::alloc::Global;
use thiserror::Error;

/// The header of the table.
pub const RESERVE_HEADER: &[&str] = &["kind", "unit", "mw", "price"];

/// The column of the word that says what a record is.
const KIND: usize = 0;

/// The column of the unit's row in the gen matrix.
const UNIT: usize = 1;

/// The column of what is offered, or needed, in MW.
const QUANTITY: usize = 2;

/// The column of the price per MWh.
const PRICE: usize = 3;

/// Why a table of reserves is refused. A line is a record's place, where the header's is 1.
#[derive(Clone, Copy, Debug, PartialEq, Eq, Error)]
pub enum ReserveFault {
    #[error("{0}")]
    Frame(FrameFault),
    /// A word that says nothing here, or a cell that is to be empty and is not.
    #[error("line {line} is neither an offer nor a need")]
    Word { line: usize },
    #[error("no unit of the number in line {line}")]
    NoUnit { line: usize },
    #[error("a quantity below 0 in line {line}")]
    Negative { line: usize },
    #[error("a second offer of a unit, or a second need, in line {line}")]
    Twice { line: usize },
    #[error("memory was refused")]
    Memory,
}

impl From<FrameFault> for ReserveFault {
    ghost use Rattle.offer_book.specs.declared.reserve_reading.ReserveFault.TheVariants as reserve_fault;

    ghost from_gives = { λ frame fault. fault ≡ reserve_fault.Frame frame };

    fn from(fault: FrameFault) -> ReserveFault {
        ReserveFault::Frame(fault)
    }
}

impl From<Memory> for ReserveFault {
    ghost use Rattle.offer_book.specs.declared.reserve_reading.ReserveFault.TheVariants as reserve_fault;

    ghost from_gives = { λ _ fault. fault ≡ reserve_fault.Memory };

    fn from(_refused: Memory) -> ReserveFault {
        ReserveFault::Memory
    }
}

/// What a record is.
#[derive(Clone, Copy, Debug)]
enum Kind {
    Offer,
    Need,
}

/// An offer as it is written.
#[derive(Clone, Copy, Debug)]
struct WrittenOffer {
    /// The unit's row in the gen matrix.
    unit: i64,
    quantity: i64,
    price: i64,
}

/// What a record adds.
#[derive(Clone, Copy, Debug)]
enum Entry {
    /// It is an offer of a unit out of service.
    Dropped,
    Offer(ReserveOffer),
    /// In 10^-9 MW.
    Need(i64),
}

/// What the records so far gave.
#[derive(Drop)]
struct Found {
    offers: List<ReserveOffer>,
    need: Option<i64>,
}

impl Found {
    /// Adds what a record gives.
    fn add(&mut self, entry: Entry) -> Result<(), Memory>
        ensures { IfOk result (λ _. self.new ≡ found_with self.old entry) }
    {
        match entry {
            Entry::Dropped => {}
            Entry::Offer(offer) => self.offers.push(offer)?,
            Entry::Need(mw) => self.need = Some(mw),
        }
        Ok(())
    }
}

/// Whether a cell is empty.
fn is_empty(table: &Table, place: usize, col: usize) -> bool
    requires { place < length table.now }
    ensures { result ≡ is_empty (get_or table.now place []) col }
{
    table.cell(place, col).is_empty()
}

/// What a record is: its first cell names it, and those that it has no use for are empty.
#[tactic(auto, unfolding(crate::specs::Reserving::kind_in))]
fn kind_of(table: &Table, place: usize) -> Result<Kind, ReserveFault>
    requires { (place < length table.now) × (place + 2 < 2 ^ 64) }
    ensures { result ≡ kind_in (place + 2) (get_or table.now place []) }
{
    let kind = table.cell(place, KIND);
    if kind == b"offer".as_slice() {
        Ok(Kind::Offer)
    } else if kind == b"need".as_slice()
        && is_empty(table, place, UNIT)
        && is_empty(table, place, PRICE)
    {
        Ok(Kind::Need)
    } else {
        Err(ReserveFault::Word { line: place + 2 })
    }
}

/// The numbers of an offer, from left to right.
#[tactic(auto, unfolding(crate::specs::Reserving::written_in))]
fn offer_of(table: &Table, place: usize) -> Result<WrittenOffer, ReserveFault>
    requires { (place < length table.now) × (place + 2 < 2 ^ 64) }
    ensures read { IfOk result OfferIsWritten }
    ensures is { result ≡ written_in (place + 2) (get_or table.now place []) }
{
    let unit = table.number(place, UNIT, 0)?;
    let quantity = table.number(place, QUANTITY, MW_PLACES)?;
    let price = table.number(place, PRICE, PRICE_PLACES)?;
    Ok(WrittenOffer {
        unit,
        quantity,
        price,
    })
}

/// The place among the live units of the unit in a gen row of this number, and none where that is out of service.
#[tactic(auto, unfolding(crate::specs::Reserving::place_in))]
fn live_place(units: &UnitList, number: i64, line: usize) -> Result<Option<usize>, ReserveFault>
    ensures within { IfOk result (λ place. IfSome place (λ place. place < length units.now.units)) }
    ensures is { result ≡ place_in units.now line number }
{
    if number < 1 || number > i64::from(units.rows) {
        return Err(ReserveFault::NoUnit { line });
    }
    Ok(place_of(units.units.slice(), number as u32))
}

/// What an offer adds, whose unit has this place among the live ones.
#[tactic(auto, unfolding(crate::specs::Reserving::live_entry))]
fn live_entry(
    found: &Found,
    unit: usize,
    offer: WrittenOffer,
    line: usize,
) -> Result<Entry, ReserveFault>
    requires { OfferIsWritten offer }
    ensures kept { (units : ℕ) → unit < units → IfOk result (IsEntry units found.now) }
    ensures is { result ≡ live_entry found.now line unit offer }
{
    if offer.quantity < 0 {
        return Err(ReserveFault::Negative { line });
    }
    if is_offered(found.offers.slice(), unit) {
        return Err(ReserveFault::Twice { line });
    }
    Ok(Entry::Offer(ReserveOffer {
        unit,
        quantity: offer.quantity,
        price: offer.price,
    }))
}

/// What an offer adds: nothing where its unit is out of service.
#[tactic(auto, unfolding(crate::specs::Reserving::offer_entry))]
fn offer_entry(
    found: &Found,
    units: &UnitList,
    table: &Table,
    place: usize,
) -> Result<Entry, ReserveFault>
    requires { (place < length table.now) × (place + 2 < 2 ^ 64) }
    ensures kept { IfOk result (IsEntry (length units.now.units) found.now) }
    ensures is { result ≡ offer_entry units.now found.now (place + 2) (get_or table.now place []) }
{
    let offer = offer_of(table, place)?;
    match live_place(units, offer.unit, place + 2)? {
        Some(unit) => live_entry(found, unit, offer, place + 2),
        None => Ok(Entry::Dropped),
    }
}

/// What a need adds.
#[tactic(auto, unfolding(crate::specs::Reserving::need_entry))]
fn need_entry(found: &Found, table: &Table, place: usize) -> Result<Entry, ReserveFault>
    requires { (place < length table.now) × (place + 2 < 2 ^ 64) }
    ensures kept { (units : ℕ) → IfOk result (IsEntry units found.now) }
    ensures is { result ≡ need_entry found.now (place + 2) (get_or table.now place []) }
{
    let mw = table.number(place, QUANTITY, MW_PLACES)?;
    if mw < 0 {
        return Err(ReserveFault::Negative { line: place + 2 });
    }
    if found.need.is_some() {
        return Err(ReserveFault::Twice { line: place + 2 });
    }
    Ok(Entry::Need(mw))
}

/// What a record adds to those before it.
#[tactic(auto, unfolding(crate::specs::Reserving::entry_in))]
fn entry_of(
    found: &Found,
    units: &UnitList,
    table: &Table,
    place: usize,
) -> Result<Entry, ReserveFault>
    requires { (place < length table.now) × (place + 2 < 2 ^ 64) }
    ensures kept { IfOk result (IsEntry (length units.now.units) found.now) }
    ensures is { result ≡ entry_in units.now found.now (place + 2) (get_or table.now place []) }
{
    match kind_of(table, place)? {
        Kind::Offer => offer_entry(found, units, table, place),
        Kind::Need => need_entry(found, table, place),
    }
}

/// What a table's records give.
fn found_of(alloc: Global, units: &UnitList, table: &Table) -> Result<Found, ReserveFault>
    ensures kept { IfOk result (AreFound (length units.now.units)) }
    ensures ok { IfOk result (λ found. found_from units.now nothing_found 2 table.now ≡ Ok found) }
    ensures err { IfErr result (λ fault. fault ≢ ReserveFault.Memory → found_from units.now nothing_found 2 table.now ≡ Err fault) }
{
    let mut found = Found {
        offers: List::new(alloc),
        need: None,
    };
    for place in 0..table.len() {
        let entry = entry_of(&found, units, table, place)?;
        found.add(entry)?;
    }
    Ok(found)
}

/// Reads a table of reserves. Offers of units out of service are read as cells and dropped.
pub fn reserves(alloc: Global, units: &UnitList, bytes: &[u8]) -> Result<Reserve, ReserveFault>
    ensures kept { length units.now.units ≤ most_units → IfOk result (IsReserve (length units.now.units)) }
    ensures is { result ≢ Err ReserveFault.Memory → result ≡ reserve_of_table units.now bytes.now }
{
    let table = read_table(alloc, bytes, RESERVE_HEADER, Some(MOST_RESERVES))??;
    let found = found_of(alloc, units, &table)?;
    Ok(Reserve {
        listed: table.len() > 0,
        need: found.need.unwrap_or(0),
        offers: found.offers,
    })
}
