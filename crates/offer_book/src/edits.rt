//! Edits of a market.

ghost use Rattle.std.specs.Prelude.{◌≡◌, ◌<◌, ◌^◌, pos, ◌≤ℤ◌, ◌+ℤ◌, ◌-ℤ◌, unsigned_abs, length, true, IfSome, IsSome};
ghost use Rattle.std.specs.List.{slice_get};
ghost use Rattle.market_data.specs.Participants.{IsDatum};
ghost use Rattle.market_model.specs.Dispatch.{line_at, place_of_bus};
ghost use Rattle.market_data.specs.Scales.{most_blocks};
ghost use Rattle.market_model.specs.LimitRows.{has_limit};
ghost use Rattle.offer_book.specs.Edits.{answer, blocks_of_side, over_capacity, is_block_of, judge, number_of, place_of_block, place_of_limit, price_of_block, rival, rival_of, step_of};
ghost use Rattle.offer_book.specs.declared.edit_parts.Edit.TheVariants as edit;

use crate::edit_parts::{Edit, EditFault};
use crate::offer_table::{may_follow, room, stair_of};
use market_model::{Line, Market, Side};

/// Whether the block at a place is of the unit of a gen row, on a side.
fn is_block_of(market: &Market, place: usize, row: i64, side: Side) -> bool
    requires { place < length market.now.blocks }
    ensures { result ≡ is_block_of market.now row side place }
{
    let block = market.blocks().at(place);
    i64::from(market.units().at(block.unit).row) == row && block.side == side
}

/// The place of such a block behind so many others.
fn block_behind(market: &Market, row: i64, side: Side, count: usize) -> Option<usize>
    ensures within { IfSome result (λ place. place < length market.now.blocks) }
    ensures few { IsSome result → count < most_blocks }
    ensures is { result ≡ slice_get (blocks_of_side market.now row side) count }
{
    let mut left = count;
    for place in 0..market.blocks().len() {
        if is_block_of(market, place, row, side) {
            if left == 0 {
                return Some(place);
            }
            left -= 1;
        }
    }
    None
}

/// The place of the block of a number.
#[tactic(auto, unfolding(crate::specs::Edits::place_of_block))]
fn place_of_block(market: &Market, row: i64, side: Side, number: i64) -> Option<usize>
    ensures within { IfSome result (λ place. place < length market.now.blocks) }
    ensures number { IsSome result → (pos 1 ≤ℤ number) × (number ≤ℤ pos most_blocks) }
    ensures is { result ≡ place_of_block market.now row side number }
{
    if number < 1 {
        None
    } else {
        block_behind(market, row, side, (number - 1) as usize)
    }
}

/// The price of the block of a number.
fn price_of_block(market: &Market, row: i64, side: Side, number: i64) -> Option<i64>
    ensures { result ≡ price_of_block market.now row side number }
{
    match place_of_block(market, row, side, number) {
        Some(place) => Some(market.blocks().at(place).price),
        None => None,
    }
}

/// The price of the block before or after that another price between them breaks the stair against.
#[tactic(auto, unfolding(crate::specs::Edits::rival))]
fn rival(side: Side, before: Option<i64>, price: i64, after: Option<i64>) -> Option<i64>
    ensures { result ≡ rival side before price after }
{
    if !may_follow(side, before, price) {
        return before;
    }
    match after {
        Some(after) if !may_follow(side, Some(price), after) => Some(after),
        _ => None,
    }
}

/// The price that a new price of a block breaks the stair against.
#[tactic(auto, unfolding(crate::specs::Edits::rival_of))]
fn rival_of(market: &Market, row: i64, side: Side, number: i64, price: i64) -> Option<i64>
    requires { (pos 1 ≤ℤ number) × (number ≤ℤ pos most_blocks) }
    ensures { result ≡ rival_of market.now row side number price }
{
    let before = price_of_block(market, row, side, number - 1);
    let after = price_of_block(market, row, side, number + 1);
    rival(side, before, price, after)
}

fn edit_price(
    market: &mut Market,
    row: i64,
    side: Side,
    number: i64,
    price: i64,
) -> Result<(), EditFault>
    requires { IsDatum price }
    ensures judged { result ≡ answer (judge market.old (edit.Price row side number price)) }
    ensures changed { market.new ≡ step_of market.old (edit.Price row side number price) }
{
    let Some(place) = place_of_block(market, row, side, number) else {
        return Err(EditFault::NoBlock);
    };
    if let Some(other) = rival_of(market, row, side, number, price) {
        return Err(EditFault::OutOfOrder { other });
    }
    market.set_price(place, price);
    Ok(())
}

/// By how much a sum with one part replaced by another exceeds a room.
fn over_capacity_with(sum: i128, old: i64, new: i64, room: i64) -> i128
    requires { unsigned_abs sum < 2 ^ 80 }
    ensures { result ≡ ((sum -ℤ old) +ℤ new) -ℤ room }
{
    sum - i128::from(old) + i128::from(new) - i128::from(room)
}

/// By how much a side's blocks would exceed the room of their unit, if the block at a place offered so much.
#[tactic(auto, unfolding(crate::specs::Edits::over_capacity))]
fn over_capacity(market: &Market, place: usize, mw: i64) -> i128
    requires { place < length market.now.blocks }
    ensures { result ≡ over_capacity market.now place mw }
{
    let block = *market.blocks().at(place);
    let unit = *market.units().at(block.unit);
    let stair = stair_of(market.blocks().slice(), block.unit, block.side);
    over_capacity_with(stair.sum, block.quantity, mw, room(unit, block.side))
}

fn edit_quantity(
    market: &mut Market,
    row: i64,
    side: Side,
    number: i64,
    mw: i64,
) -> Result<(), EditFault>
    requires { IsDatum mw }
    ensures judged { result ≡ answer (judge market.old (edit.Quantity row side number mw)) }
    ensures changed { market.new ≡ step_of market.old (edit.Quantity row side number mw) }
{
    let Some(place) = place_of_block(market, row, side, number) else {
        return Err(EditFault::NoBlock);
    };
    if mw < 0 {
        return Err(EditFault::Negative);
    }
    let over = over_capacity(market, place, mw);
    if over > 0 {
        return Err(EditFault::OverCapacity { over });
    }
    market.set_quantity(place, mw);
    Ok(())
}

/// The place of the live bus of a number.
#[tactic(auto, unfolding(market_model::specs::Dispatch::place_of_bus))]
fn place_of_bus(market: &Market, number: i64) -> Option<usize>
    ensures within { IfSome result (λ place. place < length market.now.buses) }
    ensures is { result ≡ place_of_bus market.now.buses number }
{
    let buses = market.buses().slice();
    buses.iter().position(|bus| i64::from(bus.number) == number)
}

fn edit_demand(market: &mut Market, number: i64, mw: i64) -> Result<(), EditFault>
    requires { IsDatum mw }
    ensures judged { result ≡ answer (judge market.old (edit.Demand number mw)) }
    ensures changed { market.new ≡ step_of market.old (edit.Demand number mw) }
{
    let Some(place) = place_of_bus(market, number) else {
        return Err(EditFault::NoBus);
    };
    market.set_demand(place, mw);
    Ok(())
}

/// Whether a line has a limit after an outage, or in the base.
fn has_limit(line: &Line, post: bool) -> bool
    ensures { result ≡ has_limit post line.now }
{
    line.limit(post).is_some()
}

/// The place of the line of a branch row that has such a limit.
#[tactic(auto, unfolding(crate::specs::Edits::place_of_limit))]
fn place_of_limit(market: &Market, row: i64, post: bool) -> Option<usize>
    ensures within { IfSome result (λ place. place < length market.now.lines) }
    ensures limit { IfSome result (λ place. has_limit post (line_at market.now place) ≡ true) }
    ensures is { result ≡ place_of_limit market.now row post }
{
    let lines = market.lines().slice();
    lines
        .iter()
        .position(|line| i64::from(line.row) == row && has_limit(line, post))
}

fn edit_limit(market: &mut Market, row: i64, post: bool, mw: i64) -> Result<(), EditFault>
    requires { IsDatum mw }
    ensures judged { result ≡ answer (judge market.old (edit.Limit row post mw)) }
    ensures changed { market.new ≡ step_of market.old (edit.Limit row post mw) }
{
    let Some(place) = place_of_limit(market, row, post) else {
        return Err(EditFault::NoLimit);
    };
    if mw < 0 {
        return Err(EditFault::Negative);
    }
    market.set_limit(place, post, mw);
    Ok(())
}

fn edit_need(market: &mut Market, mw: i64) -> Result<(), EditFault>
    requires { IsDatum mw }
    ensures judged { result ≡ answer (judge market.old (edit.Need mw)) }
    ensures changed { market.new ≡ step_of market.old (edit.Need mw) }
{
    if !market.reserve().listed {
        return Err(EditFault::NoReserve);
    }
    if mw < 0 {
        return Err(EditFault::Negative);
    }
    market.set_need(mw);
    Ok(())
}

/// Sets the one number that an edit names, or says why it is refused and changes nothing. The first cause is told, in this order: no
/// such block, bus or limit, or no reserve; a negative number; a stair that breaks or a room that is exceeded. It takes no memory.
pub fn edit(market: &mut Market, edit: &Edit) -> Result<(), EditFault>
    requires { IsDatum (number_of edit.now) }
    ensures judged { result ≡ answer (judge market.old edit.now) }
    ensures changed { market.new ≡ step_of market.old edit.now }
{
    match *edit {
        Edit::Price {
            unit,
            side,
            block,
            price,
        } => edit_price(market, unit, side, block, price),
        Edit::Quantity {
            unit,
            side,
            block,
            mw,
        } => edit_quantity(market, unit, side, block, mw),
        Edit::Demand { bus, mw } => edit_demand(market, bus, mw),
        Edit::Limit { branch, post, mw } => edit_limit(market, branch, post, mw),
        Edit::Need { mw } => edit_need(market, mw),
    }
}
