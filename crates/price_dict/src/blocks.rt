//! The dictionary of prices with the rows of some blocks alone.

ghost use Rattle.std.specs.Prelude.{◌≡◌, IfErr, IfOk, length};
ghost use Rattle.market_model.specs.Dispatch.{Dispatch};
ghost use Rattle.market_model.specs.Stops.{StopsBy};
ghost use Rattle.price_system.specs.PriceSystem.{sum_name as sum_name_of};
ghost use Rattle.price_dict.specs.Marked.{HoldsMarkedRows, HoldsMarked};
ghost use Rattle.price_dict.specs.Reached.{AreColumns, AreReached};
ghost use Rattle.price_dict.specs.Refusals.{IsColumnsRefusal, IsEntriesRefusal};

use crate::entries::energy_entries;
use crate::names::{row_name_behind, sum_name};
use crate::reached::{Reached, columns_of};
use crate::rows::{put_row, summed};
use exact_fraction::Exact;
use limit_rows::count;
use linear_dict::Dict;
use market_model::{Market, Stop};
use price_system::Variable;
use std::alloc::Global;

/// Puts in the rows of the blocks that are marked, behind the sum, which has this name. After an error the dictionary is of no use.
fn put_marked<N: Exact>(
    alloc: Global,
    market: &Market,
    columns: &[Variable],
    sum: usize,
    marks: &[bool],
    dict: &mut Dict<N>,
) -> Result<(), Stop<N>>
    requires columns { AreColumns market.now columns.now }
    requires sum { sum ≡ sum_name_of market.now }
    requires marks { length marks.now ≡ length market.now.blocks }
    requires put { HoldsMarked market.now columns.now marks.now 0 dict.old }
    ensures put { IfOk result (λ _. HoldsMarked market.now columns.now marks.now (length market.now.blocks) dict.new) }
    ensures stops { IfErr result (StopsBy N.value (IsColumnsRefusal market.now columns.now N.bound)) }
{
    let _lines = market.lines();
    for place in 0..market.blocks().len() {
        if marks[place] {
            let entries = energy_entries(alloc, market, columns, market.blocks().at(place).unit)?;
            put_row(
                dict,
                row_name_behind(market, sum, 1 + place),
                entries.slice(),
            )?;
        }
    }
    Ok(())
}

/// The dictionary of the prices that support a dispatch, without those that have to be 0, in which the rows are the sum and what a MW is worth of the
/// blocks that are marked. The prices are the other variables, and all rows are basic.
pub fn start_with_marked<N: Exact>(
    alloc: Global,
    market: &Market,
    reached: Reached<'_>,
    marks: &[bool],
) -> Result<Dict<N>, Stop<N>>
    requires reached { (x : Dispatch) × AreReached market.now x reached }
    requires marks { length marks.now ≡ length market.now.blocks }
    ensures holds { (x : Dispatch) → AreReached market.now x reached.entry → IfOk result (HoldsMarkedRows market.now x marks.now) }
    ensures stops { (x : Dispatch) → AreReached market.now x reached.entry → IfErr result (StopsBy N.value (IsEntriesRefusal market.now x N.bound)) }
{
    let _lines = market.lines();
    let limits = count(market);
    let sum = sum_name(market, limits);
    let columns = columns_of(alloc, reached)?;
    let mut dict = summed(alloc, market, limits, columns.slice())?;
    put_marked(alloc, market, columns.slice(), sum, marks, &mut dict)?;
    Ok(dict)
}
