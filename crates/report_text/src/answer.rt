//! The report of a cleared market.

ghost use Rattle.std.specs.Prelude.{◌≡◌, ◌<◌, ◌++◌, length, option_map, IfOk};
ghost use Rattle.report_text.specs.Reports.{side_text, alike, block_number, head_text};
ghost use Rattle.report_text.specs.Reports.{bus_text, block_text, own_of, own_text, unit_text, load_text};
ghost use Rattle.report_text.specs.Reports.{lines_of_buses, lines_of_blocks, lines_of_units, lines_of_loads, cleared_text};
ghost use Rattle.market_model.specs.Valued.{price_at, unit_pay_at, load_at, answer_at};
ghost use Rattle.market_model.specs.Changes.{with_need};
ghost use Rattle.market_model.specs.Fitting.{FitsMarket};

use crate::limits::rent_lines;
use crate::reserve::{need_line, offer_lines, room_lines};
use exact_fraction::Exact;
use line_text::Text;
use market_model::{
    Answer, Block, Bus, Load, MONEY_PLACES, MW_PLACES, Market, Memory, PRICE_PLACES, Price, Side,
    UnitPay,
};
use std::alloc::Global;

fn side_word(side: Side) -> &'static [u8]
    ensures { result.now ≡ side_text side }
{
    match side {
        Side::Sell => b" sell ",
        Side::Buy => b" buy ",
    }
}

/// Whether two blocks are of one unit and side.
fn is_alike(block: &Block, other: &Block) -> bool
    ensures { result ≡ alike block.now other.now }
{
    block.unit == other.unit && block.side == other.side
}

/// The place of a block among those of its unit and side, from 1.
fn number_of(market: &Market, place: usize) -> u32
    requires { place < length market.now.blocks }
    ensures { result ≡ block_number market.now place }
{
    let blocks = market.blocks().slice();
    let mut number = 1;
    for other in &blocks[..place] {
        if is_alike(other, &blocks[place]) {
            number += 1;
        }
    }
    number
}

/// The price of a bus.
fn bus_line<N: Exact>(text: &mut Text, bus: &Bus, price: &Price<N>) -> Result<(), Memory>
    ensures { IfOk result (λ _. text.new ≡ text.old ++ bus_text bus.now.number (price_at N.value price.now)) }
{
    text.word(b"bus ")?;
    text.number(bus.number as usize)?;
    text.named(b" price ", price.total, PRICE_PLACES)?;
    text.named(b" congestion ", price.congestion, PRICE_PLACES)?;
    text.word(b"\n")
}

/// The accepted MW of a block, the so-manieth of its unit and side.
fn block_line<N: Exact>(
    text: &mut Text,
    row: u32,
    side: Side,
    number: u32,
    mw: N,
) -> Result<(), Memory>
    ensures { IfOk result (λ _. text.new ≡ text.old ++ block_text row side number (N.value mw)) }
{
    text.word(b"block ")?;
    text.number(row as usize)?;
    text.word(side_word(side))?;
    text.number(number as usize)?;
    text.named(b" mw ", mw, MW_PLACES)?;
    text.word(b"\n")
}

/// The own price of the unit at a place, where an outage loses it.
fn own_of<N: Exact>(market: &Market, answer: &Answer<N>, place: usize) -> Option<N>
    requires { FitsMarket market.now answer.now }
    ensures { option_map N.value result ≡ own_of market.now (answer_at N.value answer.now) place }
{
    for (outage, lost) in market.unit_outages().slice().iter().enumerate() {
        if *lost == place {
            return Some(*answer.money.own.at(outage));
        }
    }
    None
}

/// An own price, where there is one.
fn own_words<N: Exact>(text: &mut Text, own: Option<N>) -> Result<(), Memory>
    ensures { IfOk result (λ _. text.new ≡ text.old ++ own_text (option_map N.value own)) }
{
    match own {
        Some(price) => text.named(b" own ", price, PRICE_PLACES),
        None => Ok(()),
    }
}

/// A unit's output and what it is paid, with its own price where an outage loses it.
fn unit_line<N: Exact>(
    text: &mut Text,
    row: u32,
    pay: &UnitPay<N>,
    own: Option<N>,
) -> Result<(), Memory>
    ensures { IfOk result (λ _. text.new ≡ text.old ++ unit_text row (unit_pay_at N.value pay.now) (option_map N.value own)) }
{
    text.word(b"unit ")?;
    text.number(row as usize)?;
    text.named(b" mw ", pay.mw, MW_PLACES)?;
    text.named(b" paid ", pay.paid, MONEY_PLACES)?;
    own_words(text, own)?;
    text.word(b"\n")
}

/// A bus's demand and what it pays.
fn load_line<N: Exact>(text: &mut Text, number: u32, load: &Load<N>) -> Result<(), Memory>
    ensures { IfOk result (λ _. text.new ≡ text.old ++ load_text number (load_at N.value load.now)) }
{
    text.word(b"load ")?;
    text.number(number as usize)?;
    text.named(b" mw ", load.mw, MW_PLACES)?;
    text.named(b" pays ", load.pays, MONEY_PLACES)?;
    text.word(b"\n")
}

fn bus_lines<N: Exact>(text: &mut Text, market: &Market, answer: &Answer<N>) -> Result<(), Memory>
    requires { FitsMarket market.now answer.now }
    ensures { IfOk result (λ _. text.new ≡ text.old ++ lines_of_buses market.now (answer_at N.value answer.now)) }
{
    for (place, bus) in market.buses().slice().iter().enumerate() {
        bus_line(text, bus, answer.prices.at(place))?;
    }
    Ok(())
}

fn block_lines<N: Exact>(text: &mut Text, market: &Market, answer: &Answer<N>) -> Result<(), Memory>
    requires { FitsMarket market.now answer.now }
    ensures { IfOk result (λ _. text.new ≡ text.old ++ lines_of_blocks market.now (answer_at N.value answer.now)) }
{
    let blocks = market.blocks().slice();
    let units = market.units().slice();
    for (place, block) in blocks.iter().enumerate() {
        let row = units[block.unit].row;
        let number = number_of(market, place);
        block_line(text, row, block.side, number, *answer.dispatch.at(place))?;
    }
    Ok(())
}

fn unit_lines<N: Exact>(text: &mut Text, market: &Market, answer: &Answer<N>) -> Result<(), Memory>
    requires { FitsMarket market.now answer.now }
    ensures { IfOk result (λ _. text.new ≡ text.old ++ lines_of_units market.now (answer_at N.value answer.now)) }
{
    for (place, unit) in market.units().slice().iter().enumerate() {
        let own = own_of(market, answer, place);
        unit_line(text, unit.row, answer.money.units.at(place), own)?;
    }
    Ok(())
}

fn load_lines<N: Exact>(text: &mut Text, market: &Market, answer: &Answer<N>) -> Result<(), Memory>
    requires { FitsMarket market.now answer.now }
    ensures { IfOk result (λ _. text.new ≡ text.old ++ lines_of_loads market.now (answer_at N.value answer.now)) }
{
    for (place, bus) in market.buses().slice().iter().enumerate() {
        load_line(text, bus.number, answer.money.loads.at(place))?;
    }
    Ok(())
}

/// That the market is cleared, its welfare and the price of energy.
fn head_lines<N: Exact>(text: &mut Text, answer: &Answer<N>) -> Result<(), Memory>
    ensures { IfOk result (λ _. text.new ≡ text.old
        ++ head_text (N.value answer.now.welfare) (N.value answer.now.duals.energy)) }
{
    text.named(b"cleared\nwelfare ", answer.welfare, MONEY_PLACES)?;
    text.named(b"\nenergy ", answer.duals.energy, PRICE_PLACES)?;
    text.word(b"\n")?;
    Ok(())
}

/// The report of a cleared market with this need of reserve, in 10^-9 MW.
pub fn cleared<N: Exact>(
    alloc: Global,
    market: &Market,
    need: i64,
    answer: &Answer<N>,
) -> Result<Vec<u8>, Memory>
    requires { FitsMarket market.now answer.now }
    ensures { IfOk result (λ bytes. bytes.items ≡ cleared_text (with_need market.now need) (answer_at N.value answer.now)) }
{
    let mut text = Text::new(alloc);
    head_lines(&mut text, answer)?;
    need_line(
        &mut text,
        market.reserve().listed,
        need,
        answer.duals.reserve,
    )?;
    bus_lines(&mut text, market, answer)?;
    block_lines(&mut text, market, answer)?;
    rent_lines(&mut text, answer)?;
    room_lines(&mut text, &answer.duals.rooms, PRICE_PLACES)?;
    unit_lines(&mut text, market, answer)?;
    offer_lines(&mut text, market, answer)?;
    load_lines(&mut text, market, answer)?;
    text.named(b"surplus ", answer.money.surplus, MONEY_PLACES)?;
    text.word(b"\n")?;
    Ok(text.into_bytes())
}
