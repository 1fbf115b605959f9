//! The names that a market's variables have in its dictionary: those of the blocks are their places, the balance has the next one, the
//! limits follow in the market's order, and behind all of them the columns of soft ones, two for each limit; then the offers of reserve
//! by their places, the need, and the rooms by the places of their units.

ghost use Rattle.std.specs.Prelude.{◌≡◌, ◌<◌, [], length, map, Contains, IfOk};
ghost use Rattle.market_model.specs.LimitRows.{rows};
ghost use Rattle.market_model.specs.Optimality.{all_of};
ghost use Rattle.market_system.specs.MarketSystem.{name as name_in, over_name, offer_name, need_name, IsVariableOf};
ghost use Rattle.market_system.specs.declared.variables.Variable.{Variable as VariableOf};
ghost use Rattle.market_dict.specs.Kinds.{kind_of};
ghost use Rattle.market_dict.specs.Takings.{columns_put};

use limit_rows::{count, place_of};
use market_model::{Market, Row};
use market_system::Variable;
use plain_list::{List, Memory};
use std::alloc::Global;

/// What a variable is to duals: a row, and which, or a column.
#[derive(Clone, Copy, Debug)]
pub(crate) enum DualKind {
    Column,
    Balance,
    /// By its place among the market's limits.
    Limit(usize),
    Need,
    /// By the place of its unit.
    Room(usize),
}

/// The name of the first of a limit's two columns.
fn over_name(market: &Market, row: Row) -> usize
    requires { Contains (rows market.now) row }
    ensures { result ≡ over_name market.now row }
{
    let _lines = market.lines();
    market.blocks().len() + 1 + count(market) + 2 * place_of(market, row)
}

/// The name of the first offer of reserve, in a market of so many limits. The columns of soft limits are before it.
pub(crate) fn first_offer_name(market: &Market, limits: usize) -> usize
    requires { limits ≡ length (rows market.now) }
    ensures { result ≡ offer_name market.now 0 }
{
    let _lines = market.lines();
    market.blocks().len() + 1 + 3 * limits
}

/// The name of the offer at a place, where the first has this one.
pub(crate) fn offer_name_behind(market: &Market, first: usize, place: usize) -> u32
    requires first { first ≡ offer_name market.now 0 }
    requires place { place < length market.now.reserve.offers }
    ensures { result ≡ offer_name market.now place }
{
    let _lines = market.lines();
    (first + place) as u32
}

/// The name of the need of reserve. The offers are before it, and the rooms behind it.
fn need_name(market: &Market, limits: usize) -> usize
    requires { limits ≡ length (rows market.now) }
    ensures { result ≡ need_name market.now }
{
    let _lines = market.lines();
    first_offer_name(market, limits) + market.reserve().offers.len()
}

/// The name of a variable.
pub(crate) fn name_of(market: &Market, variable: Variable) -> u32
    requires { IsVariableOf market.now (all_of market.now) variable }
    ensures { result ≡ name_in market.now variable }
{
    let _lines = market.lines();
    let blocks = market.blocks().len();
    match variable {
        Variable::Block(place) => place as u32,
        Variable::Balance => blocks as u32,
        Variable::Limit(row) => (blocks + 1 + place_of(market, row)) as u32,
        Variable::Over(row) => over_name(market, row) as u32,
        Variable::Under(row) => (over_name(market, row) + 1) as u32,
        Variable::Offer(place) => {
            let first = first_offer_name(market, count(market));
            offer_name_behind(market, first, place)
        }
        Variable::Need => need_name(market, count(market)) as u32,
        Variable::Room(unit) => (need_name(market, count(market)) + 1 + unit) as u32,
    }
}

/// What the variable of a name is to duals, in a market of so many limits.
pub(crate) fn kind_of(market: &Market, limits: usize, name: u32) -> DualKind
    requires { limits ≡ length (rows market.now) }
    ensures { (v : VariableOf) → IsVariableOf market.now (all_of market.now) v → name ≡ name_in market.now v → result ≡ kind_of market.now v }
{
    let _lines = market.lines();
    let place = name as usize;
    let balance = market.blocks().len();
    let columns = balance + 1 + limits;
    let need = need_name(market, limits);
    if place < balance {
        DualKind::Column
    } else if place == balance {
        DualKind::Balance
    } else if place < columns {
        DualKind::Limit(place - balance - 1)
    } else if place < need {
        DualKind::Column
    } else if place == need {
        DualKind::Need
    } else {
        DualKind::Room(place - need - 1)
    }
}

/// The names of the columns that a dictionary begins with: the blocks, and then the offers of reserve.
pub(crate) fn first_names(alloc: Global, market: &Market) -> Result<List<u32>, Memory>
    ensures { IfOk result (λ names. names ≡ map (name_in market.now) (columns_put market.now [])) }
{
    let mut names = List::new(alloc);
    for place in 0..market.blocks().len() {
        names.push(name_of(market, Variable::Block(place)))?;
    }
    let first = first_offer_name(market, count(market));
    for place in 0..market.reserve().offers.len() {
        names.push(offer_name_behind(market, first, place))?;
    }
    Ok(names)
}
