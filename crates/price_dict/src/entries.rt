//! What the prices that are columns count in the rows of a dictionary.

ghost use Rattle.std.specs.Prelude.{◌≡◌, ◌<◌, length, map, Contains, IfOk, IfErr};
ghost use Rattle.market_model.specs.Stops.{StopsBy};
ghost use Rattle.market_model.specs.Valued.{passed_at};
ghost use Rattle.market_system.specs.MarketSystem.{at_unit};
ghost use Rattle.price_system.specs.PriceSystem.{column_price, energy_coefficient, prices, reserve_coefficient};
ghost use Rattle.price_dict.specs.Reached.{AreColumns};
ghost use Rattle.price_dict.specs.Refusals.{IsColumnRefusal, IsColumnsRefusal};

use exact_fraction::{Exact, Passed};
use limit_rows::unit_factor;
use market_model::{Market, Stop, datum};
use plain_list::{List, Memory};
use price_system::Variable;
use std::alloc::Global;

/// A number where one unit is another, and else 0.
fn at_unit<N: Exact>(unit: usize, other: usize, number: N) -> N
    ensures { N.value result ≡ at_unit unit other (N.value number) }
{
    if other == unit { number } else { datum(0) }
}

/// What a column counts in the sum of prices.
fn sum_entry<N: Exact>(column: Variable) -> N
    ensures { N.value result ≡ column_price column }
{
    match column {
        Variable::Reserve | Variable::Up(_) | Variable::Down(_) | Variable::Room(_) => datum(1),
        Variable::Energy | Variable::Sum | Variable::Block(_) | Variable::Offer(_) => datum(0),
    }
}

/// What each column counts in the sum of prices.
pub(crate) fn sum_entries<N: Exact>(alloc: Global, columns: &[Variable]) -> Result<List<N>, Memory>
    ensures { IfOk result (λ entries. map N.value entries ≡ map column_price columns.now) }
{
    let mut entries = List::new(alloc);
    for column in columns {
        entries.push(sum_entry(*column))?;
    }
    Ok(entries)
}

/// What a column counts in what a MW of a unit is worth as energy.
fn energy_entry<N: Exact>(market: &Market, unit: usize, column: Variable) -> Result<N, Passed<N>>
    requires unit { unit < length market.now.units }
    requires column { Contains (prices market.now) column }
    ensures entry { IfOk result (λ entry. N.value entry ≡ energy_coefficient market.now unit column) }
    ensures stops { IfErr result (λ passed. IsColumnRefusal market.now column N.bound (passed_at N.value passed)) }
{
    let _lines = market.lines();
    let one: N = datum(1);
    match column {
        Variable::Energy => Ok(one.neg()),
        Variable::Up(row) => unit_factor(market, row, unit),
        Variable::Down(row) => {
            let factor: N = unit_factor(market, row, unit)?;
            Ok(factor.neg())
        }
        Variable::Room(other) => Ok(at_unit(unit, other, one)),
        Variable::Reserve | Variable::Sum | Variable::Block(_) | Variable::Offer(_) => Ok(datum(0)),
    }
}

/// What each column counts in that.
pub(crate) fn energy_entries<N: Exact>(
    alloc: Global,
    market: &Market,
    columns: &[Variable],
    unit: usize,
) -> Result<List<N>, Stop<N>>
    requires columns { AreColumns market.now columns.now }
    requires unit { unit < length market.now.units }
    ensures entries { IfOk result (λ entries. map N.value entries ≡ map (energy_coefficient market.now unit) columns.now) }
    ensures stops { IfErr result (StopsBy N.value (IsColumnsRefusal market.now columns.now N.bound)) }
{
    let mut entries = List::new(alloc);
    for column in columns {
        entries.push(energy_entry(market, unit, *column)?)?;
    }
    Ok(entries)
}

/// What a column counts in what a MW of a unit is worth as reserve.
fn reserve_entry<N: Exact>(unit: usize, column: Variable) -> N
    ensures { N.value result ≡ reserve_coefficient unit column }
{
    let one: N = datum(1);
    match column {
        Variable::Reserve => one.neg(),
        Variable::Room(other) => at_unit(unit, other, one),
        Variable::Energy
        | Variable::Up(_)
        | Variable::Down(_)
        | Variable::Sum
        | Variable::Block(_)
        | Variable::Offer(_) => datum(0),
    }
}

/// What each column counts in that.
pub(crate) fn reserve_entries<N: Exact>(
    alloc: Global,
    columns: &[Variable],
    unit: usize,
) -> Result<List<N>, Memory>
    ensures { IfOk result (λ entries. map N.value entries ≡ map (reserve_coefficient unit) columns.now) }
{
    let mut entries = List::new(alloc);
    for column in columns {
        entries.push(reserve_entry(unit, *column))?;
    }
    Ok(entries)
}
