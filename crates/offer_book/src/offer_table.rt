//! The table of offers and bids.

ghost use Rattle.std.specs.Prelude.{◌≡◌, ◌≢◌, ℕ, ◌+◌, ◌*◌, ◌^◌, ◌≤◌, ◌<◌, ◌↔◌, ◌==◌, pos, ◌≤ℤ◌, ◌+ℤ◌, unsigned_abs, length, get_or, [], ◌∷◌, ◌++◌, Some, Ok, Err, All, IsTrue, IfOk, IfErr, IfSome, if◌then◌else◌};
ghost use Rattle.std.specs.List.{position};
ghost use Rattle.market_data.specs.Participants.{IsDatum};
ghost use Rattle.market_data.specs.Scales.{most_blocks, most_units};
ghost use Rattle.market_model.specs.Market.{IsBlock, HaveRoom};
ghost use Rattle.record_reading.specs.Gathering.{gather, listed};
ghost use Rattle.market_model.specs.Stairs.{is_on_stair, stair_in, room_of};
ghost use Rattle.offer_book.specs.OfferTable.{side_in, offer_in, ends_of, follows, block_after, block_where, row_in, block_in, blocks_of_table};
ghost use Rattle.offer_book.specs.Offers.{AreBlocks, HasSides, MayFollow, OfferIsRead, StairIsBounded};

use csv_table::{Table, read_table};
use market_data::MOST_BLOCKS;
use market_model::{Block, List, MW_PLACES, Memory, PRICE_PLACES, Side, Unit, UnitList};
use record_reading::{FrameFault, push_some};
use std::alloc::Global;
use thiserror::Error;

/// The header of the table.
const OFFER_HEADER: &[&str] = &["unit", "side", "mw", "price"];

/// Why a table of offers is refused. A line is a record's place, where the header's is 1.
#[derive(Clone, Copy, Debug, PartialEq, Eq, Error)]
pub enum OfferFault {
    #[error("{0}")]
    Frame(FrameFault),
    #[error("no side in line {line}")]
    Side { line: usize },
    #[error("no unit of the number in line {line}")]
    NoUnit { line: usize },
    #[error("a quantity below 0 in line {line}")]
    Negative { line: usize },
    #[error("the price in line {line} breaks its unit's stair")]
    OutOfOrder { line: usize },
    #[error("the unit has no room for line {line}")]
    OverCapacity { line: usize },
    #[error("memory was refused")]
    Memory,
}

impl From<FrameFault> for OfferFault {
    ghost use Rattle.offer_book.specs.declared.offer_table.OfferFault.TheVariants as offer_fault;

    ghost from_gives = { λ frame fault. fault ≡ offer_fault.Frame frame };

    fn from(fault: FrameFault) -> OfferFault {
        OfferFault::Frame(fault)
    }
}

impl From<Memory> for OfferFault {
    ghost use Rattle.offer_book.specs.declared.offer_table.OfferFault.TheVariants as offer_fault;

    ghost from_gives = { λ _ fault. fault ≡ offer_fault.Memory };

    fn from(_refused: Memory) -> OfferFault {
        OfferFault::Memory
    }
}

/// A record as it is written.
#[derive(Clone, Copy, Debug)]
struct Offer {
    /// The unit's row in the gen matrix.
    unit: i64,
    side: Side,
    quantity: i64,
    price: i64,
}

/// The side that a cell names.
fn side_of(text: &[u8], line: usize) -> Result<Side, OfferFault>
    ensures { result ≡ side_in line text.now }
{
    if text == b"sell".as_slice() {
        Ok(Side::Sell)
    } else if text == b"buy".as_slice() {
        Ok(Side::Buy)
    } else {
        Err(OfferFault::Side { line })
    }
}

/// What a record says: its numbers from left to right, then its side.
#[tactic(auto, unfolding(crate::specs::OfferTable::offer_in))]
fn offer_of(table: &Table, place: usize) -> Result<Offer, OfferFault>
    requires { (place < length table.now) × (place + 2 < 2 ^ 64) }
    ensures read { IfOk result OfferIsRead }
    ensures is { result ≡ offer_in (place + 2) (get_or table.now place []) }
{
    let unit = table.number(place, 0, 0)?;
    let quantity = table.number(place, 2, MW_PLACES)?;
    let price = table.number(place, 3, PRICE_PLACES)?;
    let side = side_of(table.cell(place, 1), place + 2)?;
    Ok(Offer {
        unit,
        side,
        quantity,
        price,
    })
}

/// The blocks so far of one unit and side: their sum, and the price of the last.
#[derive(Clone, Copy)]
pub(crate) struct Stair {
    pub(crate) sum: i128,
    pub(crate) last: Option<i64>,
}

/// Whether a block is of this unit and side.
fn is_of(block: &Block, unit: usize, side: Side) -> bool
    ensures { result ≡ is_on_stair unit side block.now }
{
    block.unit == unit && block.side == side
}

pub(crate) fn stair_of(blocks: &[Block], unit: usize, side: Side) -> Stair
    requires { length blocks.now ≤ most_blocks }
    ensures bound { StairIsBounded most_blocks result }
    ensures is { result ≡ ends_of (stair_in unit side blocks.now) }
{
    let mut stair = Stair { sum: 0, last: None };
    for block in blocks {
        stair = stair_with(stair, block, is_of(block, unit, side));
    }
    stair
}

/// The stair with one block more, where that is of its unit and side.
fn stair_with(stair: Stair, block: &Block, belongs: bool) -> Stair
    requires { unsigned_abs stair.sum < 2 ^ 100 }
    ensures bound { unsigned_abs result.sum ≤ unsigned_abs stair.sum + 2 ^ 64 }
    ensures is { result ≡ (if belongs then (record { sum = stair.sum +ℤ block.now.quantity; last = Some block.now.price }) else stair) }
{
    if belongs {
        Stair {
            sum: stair.sum + i128::from(block.quantity),
            last: Some(block.price),
        }
    } else {
        stair
    }
}

/// Whether a price may follow the last one of its stair: a sell's may not be below it, a buy's
/// not above.
pub(crate) fn may_follow(side: Side, last: Option<i64>, price: i64) -> bool
    ensures may { IsTrue result ↔ MayFollow side last price }
    ensures is { result ≡ follows side last price }
{
    match last {
        None => true,
        Some(last) => match side {
            Side::Sell => last <= price,
            Side::Buy => price <= last,
        },
    }
}

/// How much the blocks of a side may offer in all.
pub(crate) fn room(unit: Unit, side: Side) -> i64
    ensures { result ≡ room_of side unit }
{
    match side {
        Side::Sell => unit.up,
        Side::Buy => unit.down,
    }
}

/// The block of a live unit's offer, after the blocks before it.
#[tactic(auto, unfolding(crate::specs::OfferTable::block_after))]
fn next_block(
    unit: Unit,
    blocks: &[Block],
    place: usize,
    offer: Offer,
    line: usize,
) -> Result<Block, OfferFault>
    requires few { length blocks.now ≤ most_blocks }
    requires offer { OfferIsRead offer }
    ensures block { (units : ℕ) → place < units → IfOk result (IsBlock units) }
    ensures is { result ≡ block_after unit (stair_in place offer.side blocks.now) place line offer }
{
    if offer.quantity < 0 {
        return Err(OfferFault::Negative { line });
    }
    let stair = stair_of(blocks, place, offer.side);
    if !may_follow(offer.side, stair.last, offer.price) {
        return Err(OfferFault::OutOfOrder { line });
    }
    if i128::from(room(unit, offer.side)) < stair.sum + i128::from(offer.quantity) {
        return Err(OfferFault::OverCapacity { line });
    }
    Ok(Block {
        unit: place,
        side: offer.side,
        quantity: offer.quantity,
        price: offer.price,
    })
}

/// The block of an offer, where its unit has a place among the live ones.
fn live_block(
    units: &[Unit],
    blocks: &[Block],
    place: Option<usize>,
    offer: Offer,
    line: usize,
) -> Result<Option<Block>, OfferFault>
    requires place { IfSome place (λ place. place < length units.now) }
    requires few { length blocks.now ≤ most_blocks }
    requires offer { OfferIsRead offer }
    ensures block { IfOk result (λ block. IfSome block (IsBlock (length units.now))) }
    ensures is { result ≡ block_where units.now blocks.now line offer place }
{
    match place {
        Some(place) => match next_block(units[place], blocks, place, offer, line) {
            Ok(block) => Ok(Some(block)),
            Err(fault) => Err(fault),
        },
        None => Ok(None),
    }
}

/// Reads a table of offers. Those of units out of service are read as cells and dropped.
pub fn blocks(alloc: Global, units: &UnitList, bytes: &[u8]) -> Result<List<Block>, OfferFault>
    ensures blocks { IfOk result (AreBlocks (length units.now.units)) }
    ensures room { All HasSides units.now.units → IfOk result (HaveRoom units.now.units) }
    ensures is { result ≢ Err OfferFault.Memory → result ≡ blocks_of_table units.now bytes.now }
{
    let table = read_table(alloc, bytes, OFFER_HEADER, Some(MOST_BLOCKS))??;
    blocks_of(alloc, units, &table)
}

/// The gen row of a number, from 1 to the number of rows.
#[tactic(auto, unfolding(crate::specs::OfferTable::row_in))]
fn gen_row(rows: u32, number: i64, line: usize) -> Result<u32, OfferFault>
    ensures { result ≡ row_in rows line number }
{
    if number < 1 || number > i64::from(rows) {
        Err(OfferFault::NoUnit { line })
    } else {
        Ok(number as u32)
    }
}

/// The place of the live unit of a gen row.
pub(crate) fn place_of(units: &[Unit], row: u32) -> Option<usize>
    ensures within { IfSome result (λ place. place < length units.now) }
    ensures is { result ≡ position (λ unit. unit.row == row) units.now }
{
    units.iter().position(|unit| unit.row == row)
}

/// The block of a record, where its unit is live.
#[tactic(auto, unfolding(crate::specs::OfferTable::block_in))]
fn record_block(
    blocks: &[Block],
    units: &UnitList,
    table: &Table,
    place: usize,
) -> Result<Option<Block>, OfferFault>
    requires place { (place < length table.now) × (place + 2 < 2 ^ 64) }
    requires few { length blocks.now ≤ most_blocks }
    ensures block { IfOk result (λ block. IfSome block (IsBlock (length units.now.units))) }
    ensures is { result ≡ block_in units.now blocks.now (place + 2) (get_or table.now place []) }
{
    let offer = offer_of(table, place)?;
    let gen_row = gen_row(units.rows, offer.unit, place + 2)?;
    let live = units.units.slice();
    live_block(live, blocks, place_of(live, gen_row), offer, place + 2)
}

/// The blocks of a table's records.
fn blocks_of(alloc: Global, units: &UnitList, table: &Table) -> Result<List<Block>, OfferFault>
    requires { length table.now ≤ most_blocks }
    ensures blocks { IfOk result (AreBlocks (length units.now.units)) }
    ensures is { result ≢ Err OfferFault.Memory → result ≡ gather (block_in units.now) [] 2 table.now }
{
    let mut blocks = List::new(alloc);
    for place in 0..table.len() {
        let block = record_block(blocks.slice(), units, table, place)?;
        push_some(&mut blocks, block)?;
    }
    Ok(blocks)
}
