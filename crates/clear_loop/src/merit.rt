//! Where a clear without limits begins: near its end, by merit order. A guess, which the runs after it set right.

ghost use Rattle.std.specs.Prelude.{[], IfOk, IfErr};
ghost use Rattle.market_dict.specs.Findings.{IsPairOver};
ghost use Rattle.market_dict.specs.Holding.{HoldsMarket};

use exact_fraction::{Exact, Sign};
use linear_dict::Dict;
use market_dict::start;
use market_model::{Market, Side, Stop};
use plain_list::Memory;
use std::alloc::Global;

/// The blocks by price, the least first, each with its place and its quantity.
fn by_price(alloc: Global, market: &Market) -> Result<Vec<(i64, usize, i64)>, Memory> {
    let mut order = Vec::new(alloc);
    for (place, block) in market.blocks().slice().iter().enumerate() {
        match order.push((block.price, place, block.quantity)) {
            Ok(()) => {}
            Err(_) => return Err(Memory),
        }
    }
    order.sort_unstable();
    Ok(order)
}

/// What the blocks are to supply, in 10^-9 MW, where each buy counts as accepted, and as supply once it is given up.
fn demand(market: &Market) -> i128 {
    let mut demand: i128 = 0;
    for bus in market.buses().slice() {
        demand = demand
            .wrapping_add(bus.pd as i128)
            .wrapping_add(bus.gs as i128);
    }
    for unit in market.units().slice() {
        demand = demand.wrapping_sub(unit.fixed as i128);
    }
    for block in market.blocks().slice() {
        match block.side {
            Side::Sell => {}
            Side::Buy => demand = demand.wrapping_add(block.quantity as i128),
        }
    }
    demand
}

/// The place of the block at which supply in the order of prices meets the demand.
fn marginal(alloc: Global, market: &Market) -> Result<Option<usize>, Memory> {
    let order = by_price(alloc, market)?;
    let mut left = demand(market);
    for (_, place, quantity) in &order {
        left = left.wrapping_sub(*quantity as i128);
        if left <= 0 {
            return Ok(Some(*place));
        }
    }
    Ok(None)
}

/// A dictionary of the market over none of its limits and rooms, in which the balance has given its place to the marginal block, where
/// there is one.
pub(crate) fn start_at_margin<N: Exact>(alloc: Global, market: &Market) -> Result<Dict<N>, Stop<N>>
    ensures holds { IfOk result (HoldsMarket market.now []) }
    ensures pair { IfErr result (IsPairOver N.value N.bound market.now []) }
{
    let mut dict: Dict<N> = start(alloc, market)?;
    let Some(column) = marginal(alloc, market)? else {
        return Ok(dict);
    };
    if dict.row_count() == 0 || column >= dict.column_count() {
        return Ok(dict);
    }
    match dict.entry(0, column).sign() {
        Sign::Zero => return Ok(dict),
        Sign::Below | Sign::Above => {}
    }
    match dict.pivot(0, column) {
        Ok(()) => Ok(dict),
        Err(_) => start(alloc, market),
    }
}
