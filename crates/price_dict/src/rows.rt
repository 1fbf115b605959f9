//! The dictionary of the prices that support a dispatch, at its start: the prices are the columns, and all rows are basic.

ghost use Rattle.std.specs.Prelude.{◌≡◌, ◌+◌, false, take, length, Contains, IfOk, IfErr, MatchResult};
ghost use Rattle.linear_dict.specs.Dictionaries.{AddsRow, IsDictionary};
ghost use Rattle.market_model.specs.Dispatch.{Dispatch};
ghost use Rattle.market_model.specs.LimitRows.{rows};
ghost use Rattle.market_model.specs.Stops.{StopsBy};
ghost use Rattle.price_system.specs.PriceSystem.{sum_name, worths};
ghost use Rattle.price_dict.specs.Holding.{HasPutIn, HoldsPrices};
ghost use Rattle.price_dict.specs.Reached.{AreColumns, AreReached};
ghost use Rattle.price_dict.specs.Refusals.{IsColumnsRefusal, IsEntriesRefusal};

use crate::entries::{energy_entries, reserve_entries, sum_entries};
use crate::names::{names_of, row_name_behind, sum_name};
use crate::reached::{Reached, columns_of};
use exact_fraction::Exact;
use limit_rows::count;
use linear_dict::{AddStop, Dict};
use market_model::{Market, Stop};
use plain_list::Memory;
use price_system::Variable;
use std::alloc::Global;

/// A dictionary with these columns, and the sum of prices alone as a row, in a market of so many limits.
pub(crate) fn summed<N: Exact>(
    alloc: Global,
    market: &Market,
    limits: usize,
    columns: &[Variable],
) -> Result<Dict<N>, Memory>
    requires limits { limits ≡ length (rows market.now) }
    requires columns { AreColumns market.now columns.now }
    ensures put { IfOk result (HasPutIn market.now columns.now (take 1 (worths market.now))) }
    ensures basics { IfOk result (λ dict. dict.basics ≡ dict.rows) }
{
    let _lines = market.lines();
    let names = names_of(alloc, market, limits, columns)?;
    let sum = row_name_behind(market, sum_name(market, limits), 0);
    let entries = sum_entries(alloc, columns)?;
    Dict::start(alloc, names.slice(), sum, entries.slice())
}

/// Adds a row where the columns are the other variables. None is refused, since the table has the entries as they are put in. All is as before where
/// there is no memory.
pub(crate) fn put_row<N: Exact>(dict: &mut Dict<N>, name: u32, entries: &[N]) -> Result<(), Memory>
    requires live { dict.old.spent ≡ false }
    requires sound { IsDictionary dict.old }
    requires others { dict.old.others ≡ dict.old.columns }
    requires absent { ¬ (Contains dict.old.names name) }
    requires entries { length entries.now ≡ length dict.old.columns }
    ensures { MatchResult result (λ _. AddsRow N.value dict.old name entries.now dict.new) (λ _. dict.new ≡ dict.old) }
{
    match dict.add_row(name, entries) {
        Ok(()) => Ok(()),
        Err(AddStop::Memory) => Err(Memory),
        Err(AddStop::Passed(_)) => unreachable!(),
    }
}

/// Puts in the rows of the blocks behind the sum, which has this name. After an error the dictionary is of no use.
fn put_blocks<N: Exact>(
    alloc: Global,
    market: &Market,
    columns: &[Variable],
    sum: usize,
    dict: &mut Dict<N>,
) -> Result<(), Stop<N>>
    requires columns { AreColumns market.now columns.now }
    requires sum { sum ≡ sum_name market.now }
    requires put { HasPutIn market.now columns.now (take 1 (worths market.now)) dict.old }
    ensures put { IfOk result (λ _. HasPutIn market.now columns.now (take (1 + length market.now.blocks) (worths market.now)) dict.new) }
    ensures stops { IfErr result (StopsBy N.value (IsColumnsRefusal market.now columns.now N.bound)) }
{
    let _lines = market.lines();
    for place in 0..market.blocks().len() {
        let entries = energy_entries(alloc, market, columns, market.blocks().at(place).unit)?;
        put_row(
            dict,
            row_name_behind(market, sum, 1 + place),
            entries.slice(),
        )?;
    }
    Ok(())
}

/// Puts in those of the offers of reserve behind them.
fn put_offers<N: Exact>(
    alloc: Global,
    market: &Market,
    columns: &[Variable],
    sum: usize,
    dict: &mut Dict<N>,
) -> Result<(), Memory>
    requires columns { AreColumns market.now columns.now }
    requires sum { sum ≡ sum_name market.now }
    requires put { HasPutIn market.now columns.now (take (1 + length market.now.blocks) (worths market.now)) dict.old }
    ensures { IfOk result (λ _. HasPutIn market.now columns.now (worths market.now) dict.new) }
{
    let _lines = market.lines();
    let blocks = market.blocks().len();
    for place in 0..market.reserve().offers.len() {
        let entries = reserve_entries(alloc, columns, market.reserve().offers.at(place).unit)?;
        let name = row_name_behind(market, sum, 1 + blocks + place);
        put_row(dict, name, entries.slice())?;
    }
    Ok(())
}

/// The dictionary of the prices that support a dispatch, without those that have to be 0, since what they are of is not reached. The prices are
/// the other variables, and all rows are basic.
pub fn start<N: Exact>(
    alloc: Global,
    market: &Market,
    reached: Reached<'_>,
) -> Result<Dict<N>, Stop<N>>
    requires { (x : Dispatch) × AreReached market.now x reached }
    ensures holds { (x : Dispatch) → AreReached market.now x reached.entry → IfOk result (HoldsPrices market.now x) }
    ensures others { IfOk result (λ dict. dict.others ≡ dict.columns) }
    ensures stops { (x : Dispatch) → AreReached market.now x reached.entry → IfErr result (StopsBy N.value (IsEntriesRefusal market.now x N.bound)) }
{
    let _lines = market.lines();
    let limits = count(market);
    let sum = sum_name(market, limits);
    let columns = columns_of(alloc, reached)?;
    let mut dict = summed(alloc, market, limits, columns.slice())?;
    put_blocks(alloc, market, columns.slice(), sum, &mut dict)?;
    put_offers(alloc, market, columns.slice(), sum, &mut dict)?;
    Ok(dict)
}
