//! The dictionary of a market: its start with the balance, and with the need where reserve is cleared, and the limits and rooms that it
//! takes.

ghost use Rattle.std.specs.Prelude.{◌≡◌, ◌⊎◌, true, List, [], ◌∷◌, ◌++◌, Contains, IfOk, IfErr};
ghost use Rattle.market_model.specs.LimitRows.{rows};
ghost use Rattle.market_model.specs.Reserves.{reserve_units};
ghost use Rattle.linear_dict.specs.Causes.{IsPairOf};
ghost use Rattle.market_model.specs.Stops.{OnPassed};
ghost use Rattle.market_model.specs.SumTables.{FactorSum, IsRefusedAmong};
ghost use Rattle.market_model.specs.Valued.{passed_at};
ghost use Rattle.market_system.specs.declared.variables.Variable.TheVariants as variable;
ghost use Rattle.market_system.specs.MarketSystem.{system_of};
ghost use Rattle.market_dict.specs.Findings.{IsPairOver};
ghost use Rattle.market_dict.specs.Holding.{HasPutIn, HoldsMarket};
ghost use Rattle.market_dict.specs.Takings.{columns_put, limits_of, rooms_of, rows_put, taken_of};
ghost use Rattle.market_dict.specs.declared.taking.Taking.{Taking};
ghost use Rattle.market_dict.specs.declared.taking.Taking.TheVariants as taking;

use crate::entries::{balance_entries, need_entries, room_entries, row_entries};
use crate::names::{first_names, name_of};
use exact_fraction::Exact;
use limit_rows::is_soft;
use linear_dict::{AddStop, Dict};
use market_model::{Market, Row, Stop};
use market_system::Variable;
use plain_list::Memory;
use std::alloc::Global;

/// A dictionary with the blocks and the offers of reserve as columns, and the balance alone as a row.
fn balanced<N: Exact>(alloc: Global, market: &Market) -> Result<Dict<N>, Memory>
    ensures { IfOk result (HasPutIn market.now (columns_put market.now []) (variable.Balance ∷ [])) }
{
    let _lines = market.lines();
    let names = first_names(alloc, market)?;
    let balance = name_of(market, Variable::Balance);
    let entries = balance_entries(alloc, market)?;
    Dict::start(alloc, names.slice(), balance, entries.slice())
}

/// The same with the need, where reserve is cleared. After an error the dictionary is of no use.
fn put_need<N: Exact>(alloc: Global, market: &Market, dict: &mut Dict<N>) -> Result<(), Stop<N>>
    requires listed { market.now.reserve.listed ≡ true }
    requires put { HasPutIn market.now (columns_put market.now []) (variable.Balance ∷ []) dict.old }
    ensures holds { IfOk result (λ _. HoldsMarket market.now [] dict.new) }
    ensures pair { IfErr result (IsPairOver N.value N.bound market.now []) }
{
    let _lines = market.lines();
    let entries = need_entries(alloc, market)?;
    let name = name_of(market, Variable::Need);
    match dict.add_row(name, entries.slice()) {
        Ok(()) => Ok(()),
        Err(AddStop::Passed(passed)) => Err(Stop::Passed(passed)),
        Err(AddStop::Memory) => Err(Stop::Memory),
    }
}

/// The dictionary of a market over none of its limits and rooms: the blocks and the offers of reserve are the other variables, and the
/// balance is basic, with the need where reserve is cleared.
pub fn start<N: Exact>(alloc: Global, market: &Market) -> Result<Dict<N>, Stop<N>>
    ensures holds { IfOk result (HoldsMarket market.now []) }
    ensures pair { IfErr result (IsPairOver N.value N.bound market.now []) }
{
    let mut dict = balanced(alloc, market)?;
    if market.reserve().listed {
        put_need(alloc, market, &mut dict)?;
    }
    Ok(dict)
}

/// Puts in the two columns of a soft limit, which count nothing in the rows so far; of a hard one there are none.
fn put_columns<N: Exact>(market: &Market, dict: &mut Dict<N>, row: Row) -> Result<(), Memory>
    requires row { Contains (rows market.now) row }
    requires holds { (ts : List Taking) × HoldsMarket market.now ts dict.old × ¬ (Contains (limits_of ts) row) }
    ensures { (ts : List Taking) → HoldsMarket market.now ts dict.old → ¬ (Contains (limits_of ts) row)
        → IfOk result (λ _. HasPutIn market.now (columns_put market.now (ts ++ taking.Limit row ∷ [])) (rows_put market.now ts) dict.new) }
{
    let _lines = market.lines();
    if !is_soft(market, row) {
        return Ok(());
    }
    dict.add_column(name_of(market, Variable::Over(row)))?;
    dict.add_column(name_of(market, Variable::Under(row)))?;
    Ok(())
}

/// Puts in a limit row as the last one, and before it its columns where it is soft. After an error the dictionary is of no use.
pub fn take_limit<N: Exact>(
    alloc: Global,
    market: &Market,
    dict: &mut Dict<N>,
    row: Row,
) -> Result<(), Stop<N>>
    requires row { Contains (rows market.now) row }
    requires holds { (ts : List Taking) × HoldsMarket market.now ts dict.old × ¬ (Contains (limits_of ts) row) }
    ensures taken { (ts : List Taking) → HoldsMarket market.now ts dict.old → IfOk result (λ _. HoldsMarket market.now (ts ++ taking.Limit row ∷ []) dict.new) }
    ensures stops { (ts : List Taking) → HoldsMarket market.now ts dict.old
        → IfErr result (λ stop. OnPassed stop (λ p. IsPairOf N.value N.bound (system_of market.now (taken_of (ts ++ taking.Limit row ∷ []))) p ⊎ IsRefusedAmong (FactorSum market.now row) N.bound (passed_at N.value p))) }
{
    let _lines = market.lines();
    let entries = row_entries(alloc, market, row, dict.column_count())?;
    put_columns(market, dict, row)?;
    let name = name_of(market, Variable::Limit(row));
    match dict.add_row(name, entries.slice()) {
        Ok(()) => Ok(()),
        Err(AddStop::Passed(passed)) => Err(Stop::Passed(passed)),
        Err(AddStop::Memory) => Err(Stop::Memory),
    }
}

/// Puts in the room of a unit that offers reserve as the last row. After an error the dictionary is of no use.
pub fn take_room<N: Exact>(
    alloc: Global,
    market: &Market,
    dict: &mut Dict<N>,
    unit: usize,
) -> Result<(), Stop<N>>
    requires unit { Contains (reserve_units market.now) unit }
    requires holds { (ts : List Taking) × HoldsMarket market.now ts dict.old × ¬ (Contains (rooms_of ts) unit) }
    ensures taken { (ts : List Taking) → HoldsMarket market.now ts dict.old → IfOk result (λ _. HoldsMarket market.now (ts ++ taking.Room unit ∷ []) dict.new) }
    ensures pair { (ts : List Taking) → HoldsMarket market.now ts dict.old → IfErr result (IsPairOver N.value N.bound market.now (ts ++ taking.Room unit ∷ [])) }
{
    let _lines = market.lines();
    let entries = room_entries(alloc, market, unit, dict.column_count())?;
    let name = name_of(market, Variable::Room(unit));
    match dict.add_row(name, entries.slice()) {
        Ok(()) => Ok(()),
        Err(AddStop::Passed(passed)) => Err(Stop::Passed(passed)),
        Err(AddStop::Memory) => Err(Stop::Memory),
    }
}
