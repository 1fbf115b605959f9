//! The names that the variables of the system of prices have in its dictionary: their places among all. The prices of energy and of reserve
//! come first, then those of limits in the market's order, two for each, and those of the rooms of the units that offer reserve; behind them
//! the rows: the sum, the blocks and the offers of reserve.

ghost use Rattle.std.specs.Prelude.{◌≡◌, ◌≤◌, ◌<◌, ◌+◌, filter, length, map, Contains, IfOk};
ghost use Rattle.market_model.specs.Dispatch.{places};
ghost use Rattle.market_model.specs.LimitRows.{rows};
ghost use Rattle.market_model.specs.Reserves.{offers_reserve as offers_reserve_of, reserve_units};
ghost use Rattle.price_system.specs.PriceSystem.{name as name_in, room_place, sum_name, up_name, variables, worths};
ghost use Rattle.price_dict.specs.Reached.{AreColumns};

use limit_rows::place_of;
use market_model::{Market, Row, offers_reserve};
use plain_list::{List, Memory};
use price_system::Variable;
use std::alloc::Global;

/// The name of the price of a limit's upper side. That of the lower side is the next.
fn up_name(market: &Market, row: Row) -> usize
    requires { Contains (rows market.now) row }
    ensures { result ≡ up_name market.now row }
{
    let _lines = market.lines();
    2 + 2 * place_of(market, row)
}

/// How many of the units before a place offer reserve.
fn reserve_units_before(market: &Market, place: usize) -> usize
    requires { place ≤ length market.now.units }
    ensures count { result ≡ length (filter (offers_reserve_of market.now) (places place)) }
    ensures few { result ≤ place }
{
    let mut count = 0;
    for unit in 0..place {
        if offers_reserve(market, unit) {
            count += 1;
        }
    }
    count
}

/// The place of a unit among those that offer reserve.
fn room_place(market: &Market, unit: usize) -> usize
    requires { Contains (reserve_units market.now) unit }
    ensures place { result ≡ room_place market.now unit }
    ensures few { result ≤ length market.now.units }
{
    let _lines = market.lines();
    reserve_units_before(market, unit)
}

/// The name of the sum of prices, the first of the rows, in a market of so many limits.
pub(crate) fn sum_name(market: &Market, limits: usize) -> usize
    requires { limits ≡ length (rows market.now) }
    ensures { result ≡ sum_name market.now }
{
    let _lines = market.lines();
    2 + 2 * limits + reserve_units_before(market, market.units().len())
}

/// The name of the row at a place among all, where the first has this one.
pub(crate) fn row_name_behind(market: &Market, first: usize, place: usize) -> u32
    requires first { first ≡ sum_name market.now }
    requires place { place < length (worths market.now) }
    ensures { result ≡ sum_name market.now + place }
{
    let _lines = market.lines();
    (first + place) as u32
}

/// The name of a variable, in a market of so many limits.
pub(crate) fn name_of(market: &Market, limits: usize, variable: Variable) -> u32
    requires limits { limits ≡ length (rows market.now) }
    requires variable { Contains (variables market.now) variable }
    ensures { result ≡ name_in market.now variable }
{
    let _lines = market.lines();
    match variable {
        Variable::Energy => 0,
        Variable::Reserve => 1,
        Variable::Up(row) => up_name(market, row) as u32,
        Variable::Down(row) => (up_name(market, row) + 1) as u32,
        Variable::Room(unit) => (2 + 2 * limits + room_place(market, unit)) as u32,
        Variable::Sum => sum_name(market, limits) as u32,
        Variable::Block(place) => row_name_behind(market, sum_name(market, limits), 1 + place),
        Variable::Offer(place) => {
            let blocks = market.blocks().len();
            row_name_behind(market, sum_name(market, limits), 1 + blocks + place)
        }
    }
}

/// The names of columns.
pub(crate) fn names_of(
    alloc: Global,
    market: &Market,
    limits: usize,
    columns: &[Variable],
) -> Result<List<u32>, Memory>
    requires limits { limits ≡ length (rows market.now) }
    requires columns { AreColumns market.now columns.now }
    ensures { IfOk result (λ names. names ≡ map (name_in market.now) columns.now) }
{
    let mut names = List::new(alloc);
    for column in columns {
        names.push(name_of(market, limits, *column))?;
    }
    Ok(names)
}
