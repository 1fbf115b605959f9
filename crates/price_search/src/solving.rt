//! From a dictionary that holds the prices of a dispatch to the least prices that support it.

ghost use Rattle.std.specs.Prelude.{◌≡◌, IfErr, IfOk, false, reverse};
ghost use Rattle.linear_dict.specs.Causes.{IsPairOf};
ghost use Rattle.linear_dict.specs.Dictionaries.{IsDictionary, system_in};
ghost use Rattle.first_best.specs.Outcomes.{GoesFirst};
ghost use Rattle.market_model.specs.declared.participants.Parts.{Parts};
ghost use Rattle.market_model.specs.Dispatch.{Dispatch};
ghost use Rattle.market_model.specs.Stops.{OnPassed};
ghost use Rattle.price_system.specs.PriceSystem.{Caps};
ghost use Rattle.price_dict.specs.Reached.{reached_system};
ghost use Rattle.price_search.specs.Searching.{AsksFirst, HoldsBestPrices, HoldsFirstPrices};

use exact_fraction::{Exact, Passed};
use fewer_columns::laws::{first_points_of_fewer_are_first, points_stay};
use first_best::{FirstStop, first_of_best};
use linear_dict::Dict;
use market_model::Stop;
use plain_list::{List, Memory};
use simplex_core::{Bounds, Run, pose};
use std::alloc::Global;

/// The dictionary at these prices and bounds, with a best point of it. There is one, since some prices support the dispatch.
fn best_prices_dict<N: Exact>(
    dict: Dict<N>,
    prices: &[N],
    bounds: &[Bounds<N>],
) -> Result<Dict<N>, Passed<N>>
    requires asks { (m : Parts) × (x : Dispatch) × (c : Caps) × AsksFirst N.value m x c dict prices.now bounds.now }
    ensures best { (m : Parts) (x : Dispatch) (c : Caps) → AsksFirst N.value m x c dict prices.now bounds.now → IfOk result (HoldsBestPrices m x c) }
    ensures pair { (m : Parts) (x : Dispatch) (c : Caps) → AsksFirst N.value m x c dict prices.now bounds.now
        → IfErr result (IsPairOf N.value N.bound (reached_system m x c)) }
{
    // there is a point, and the columns that are left out take none away
    points_stay();
    match pose(dict, prices, bounds)?.run() {
        Run::Solved(solved) => Ok(solved.into_dict()),
        Run::Empty { .. } => unreachable!(),
        Run::Passed(passed) => Err(passed),
    }
}

/// The names of the columns, from the last that was put in to the first.
fn names_back<N: Exact>(alloc: Global, dict: &Dict<N>) -> Result<List<u32>, Memory>
    requires live { dict.now.spent ≡ false }
    requires sound { IsDictionary dict.now }
    ensures { IfOk result (λ names. names ≡ reverse dict.now.columns) }
{
    let count = dict.column_count();
    let mut names = List::new(alloc);
    for place in 0..count {
        names.push(dict.column_name(count - 1 - place))?;
    }
    Ok(names)
}

/// Of the best points of a dictionary that holds prices the one that goes first, from the last column to the first.
fn first_dict<N: Exact>(alloc: Global, dict: Dict<N>) -> Result<Dict<N>, Stop<N>>
    requires best { (m : Parts) × (x : Dispatch) × (c : Caps) × HoldsBestPrices m x c dict }
    ensures first { IfOk result (GoesFirst dict (reverse dict.columns)) }
    ensures pair { IfErr result (λ stop. OnPassed stop (IsPairOf N.value N.bound (system_in dict))) }
{
    let order = names_back(alloc, &dict)?;
    match first_of_best(alloc, dict, order.slice()) {
        Ok(first) => Ok(first),
        Err(FirstStop::Passed(passed)) => Err(Stop::Passed(passed)),
        Err(FirstStop::Memory) => Err(Stop::Memory),
    }
}

/// Of the prices that support the dispatch those of the least sum, and of these those that are least in turn, from the room of the last unit to
/// energy: the dictionary that shows them.
pub(crate) fn first_prices_dict<N: Exact>(
    alloc: Global,
    dict: Dict<N>,
    prices: &[N],
    bounds: &[Bounds<N>],
) -> Result<Dict<N>, Stop<N>>
    requires asks { (m : Parts) × (x : Dispatch) × (c : Caps) × AsksFirst N.value m x c dict prices.now bounds.now }
    ensures first { (m : Parts) (x : Dispatch) (c : Caps) → AsksFirst N.value m x c dict prices.now bounds.now → IfOk result (HoldsFirstPrices m x c) }
    ensures pair { (m : Parts) (x : Dispatch) (c : Caps) → AsksFirst N.value m x c dict prices.now bounds.now
        → IfErr result (λ stop. OnPassed stop (IsPairOf N.value N.bound (reached_system m x c))) }
{
    // its first point is that of the system with all prices
    first_points_of_fewer_are_first();
    let dict = best_prices_dict(dict, prices, bounds)?;
    first_dict(alloc, dict)
}
