//! Writing tables of offers.

ghost use Rattle.std.specs.Prelude.{◌≡◌, ◌<◌, ◌++◌, codes, length, All, IfOk};
ghost use Rattle.std.specs.List.{flat_map};
ghost use Rattle.line_text.specs.Decimals.{decimal_text};
ghost use Rattle.market_data.specs.Scales.{mw_places, price_places};
ghost use Rattle.prepared_text.specs.OfferText.{offer_line, offer_text, side_word, step_line};

use crate::begun::begun;
use line_text::Text;
use market_data::{MW_PLACES, PRICE_PLACES, UnitList};
use market_model::{Block, Side};
use plain_list::{List, Memory};
use std::alloc::Global;

/// The header of the table.
const OFFER_HEADER: &[&str] = &["unit", "side", "mw", "price"];

/// The word of a side.
fn put_side(text: &mut Text, side: Side) -> Result<(), Memory>
    ensures { IfOk result (λ _. text.new ≡ text.old ++ side_word side) }
{
    match side {
        Side::Sell => text.word(b"sell"),
        Side::Buy => text.word(b"buy"),
    }
}

/// A quantity and its price.
#[tactic(auto, using(std::proofs::Common::append_assoc))]
fn put_amounts(text: &mut Text, quantity: i64, price: i64) -> Result<(), Memory>
    ensures { IfOk result (λ _. text.new ≡ text.old ++ decimal_text mw_places quantity ++ codes "," ++ decimal_text price_places price) }
{
    text.decimal(quantity as i128, MW_PLACES)?;
    text.word(b",")?;
    text.decimal(price as i128, PRICE_PLACES)
}

/// The line of a block of the unit of a gen row.
#[tactic(auto, using(std::proofs::Common::append_assoc))]
fn put_step(text: &mut Text, row: u32, block: Block) -> Result<(), Memory>
    ensures { IfOk result (λ _. text.new ≡ text.old ++ step_line row block) }
{
    text.number(row as usize)?;
    text.word(b",")?;
    put_side(text, block.side)?;
    text.word(b",")?;
    put_amounts(text, block.quantity, block.price)?;
    text.word(b"\n")
}

/// The line of a block.
#[tactic(auto, unfolding(crate::specs::OfferText::offer_line))]
fn put_offer(text: &mut Text, list: &UnitList, block: Block) -> Result<(), Memory>
    requires { block.unit < length list.now.units }
    ensures { IfOk result (λ _. text.new ≡ text.old ++ offer_line list.now block) }
{
    let unit = list.units.slice()[block.unit];
    put_step(text, unit.row, block)
}

/// The lines of blocks.
fn put_offers(text: &mut Text, list: &UnitList, blocks: &[Block]) -> Result<(), Memory>
    requires { All (λ block. block.unit < length list.now.units) blocks.now }
    ensures { IfOk result (λ _. text.new ≡ text.old ++ flat_map (offer_line list.now) blocks.now) }
{
    for block in blocks {
        put_offer(text, list, *block)?;
    }
    Ok(())
}

/// The text of a table of offers: the header, then a line for each block in order, with its unit's row in the gen matrix, its side, its
/// quantity in MW and its price, both as decimals without zeros at their end. Lines end with a line feed.
#[tactic(auto, unfolding(crate::specs::OfferText::offer_text))]
pub fn offers_text(alloc: Global, list: &UnitList, blocks: &List<Block>) -> Result<Vec<u8>, Memory>
    requires { All (λ block. block.unit < length list.now.units) blocks.now }
    ensures { IfOk result (λ text. text.items ≡ offer_text list.now blocks.now) }
{
    let mut text = begun(alloc, OFFER_HEADER)?;
    put_offers(&mut text, list, blocks.slice())?;
    Ok(text.into_bytes())
}
