//! From a posed dictionary of a market to a best dispatch for the limits and rooms taken, or to duals that show that none is feasible.

ghost use Rattle.std.specs.Prelude.{List, IfOk, IfErr};
ghost use Rattle.linear_dict.specs.Causes.{IsPairOf};
ghost use Rattle.linear_dict.specs.Dictionaries.{system_in};
ghost use Rattle.first_best.specs.Outcomes.{GoesFirst};
ghost use Rattle.market_model.specs.Stops.{OnPassed};
ghost use Rattle.market_system.specs.Ties.{dispatch_names};
ghost use Rattle.simplex_core.specs.Outcomes.{IsEmptyAt, ShowsChoice};
ghost use Rattle.simplex_core.specs.States.{state_of};
ghost use Rattle.simplex_theory.specs.States.{IsSolved};
ghost use Rattle.market_dict.specs.Findings.{HoldsBest, IsFirstFound, IsFound, IsPairOver};
ghost use Rattle.market_dict.specs.Holding.{HoldsSystem};
ghost use Rattle.market_dict.specs.declared.taking.Taking.{Taking};

use crate::names::first_names;
use crate::reading::{dispatch, margin, reserved, stuck_duals};
use exact_fraction::Exact;
use first_best::{FirstStop, first_of_best};
use linear_dict::Dict;
use market_model::{Duals, Market, Stop};
use plain_list::{List, Memory};
use simplex_core::{Posed, Run};
use std::alloc::Global;

/// What a market comes to over the limits and rooms taken, with the dictionary as it can be posed again.
#[derive(Drop)]
pub enum Found<N: Exact> {
    /// The accepted MW of each block and of each offer of reserve, in 10^-9, of a best dispatch for these limits and rooms. The duals that
    /// the dictionary has support it.
    Best {
        dict: Dict<N>,
        dispatch: List<N>,
        reserve: List<N>,
    },
    /// No dispatch of the market is feasible: these duals show it. Their bound is at most the margin, in 10^-9 MW, and in a market
    /// of energy alone it is just that.
    Nothing {
        dict: Dict<N>,
        duals: Duals<N>,
        margin: N,
    },
}

/// The best dispatch that a solved dictionary shows.
fn best<N: Exact>(alloc: Global, market: &Market, dict: Dict<N>) -> Result<Found<N>, Memory>
    requires best { (ts : List Taking) × HoldsBest market.now ts dict }
    ensures { (ts : List Taking) → HoldsBest market.now ts dict → IfOk result (IsFound N.value market.now ts) }
{
    let _lines = market.lines();
    let dispatch = dispatch(alloc, market, &dict)?;
    let reserve = reserved(alloc, market, &dict)?;
    Ok(Found::Best {
        dict,
        dispatch,
        reserve,
    })
}

/// The duals that a dictionary with a stuck variable shows, at a row place.
fn nothing<N: Exact>(
    alloc: Global,
    market: &Market,
    dict: Dict<N>,
    row: usize,
    above: bool,
) -> Result<Found<N>, Stop<N>>
    requires holds { (ts : List Taking) × HoldsSystem market.now ts dict }
    requires shows { ShowsChoice dict }
    requires empty { IsEmptyAt dict row above }
    ensures found { (ts : List Taking) → HoldsSystem market.now ts dict → IfOk result (IsFound N.value market.now ts) }
    ensures pair { (ts : List Taking) → HoldsSystem market.now ts dict → IfErr result (IsPairOver N.value N.bound market.now ts) }
{
    let _lines = market.lines();
    let duals = stuck_duals(alloc, market, &dict, row, above)?;
    let margin = margin(&dict, row, above)?;
    Ok(Found::Nothing {
        dict,
        duals,
        margin,
    })
}

/// Runs the dual simplex method.
pub fn solve<N: Exact>(alloc: Global, market: &Market, posed: Posed<N>) -> Result<Found<N>, Stop<N>>
    requires holds { (ts : List Taking) × HoldsSystem market.now ts posed }
    ensures found { (ts : List Taking) → HoldsSystem market.now ts posed → IfOk result (IsFound N.value market.now ts) }
    ensures pair { (ts : List Taking) → HoldsSystem market.now ts posed → IfErr result (IsPairOver N.value N.bound market.now ts) }
{
    match posed.run() {
        Run::Solved(solved) => Ok(best(alloc, market, solved.into_dict())?),
        Run::Empty { dict, row, above } => nothing(alloc, market, dict, row, above),
        Run::Passed(passed) => Err(Stop::Passed(passed)),
    }
}

/// The dispatch that goes first of the best ones for the limits and rooms taken: what it accepts of each block and of each offer of reserve,
/// in 10^-9 MW, and the dictionary that shows it.
#[derive(Drop)]
pub struct First<N: Exact> {
    pub dict: Dict<N>,
    pub dispatch: List<N>,
    pub reserve: List<N>,
}

/// Of the best points of a dictionary the one that goes first in the market's order: of its blocks, and then of its offers of reserve.
fn first_dict<N: Exact>(alloc: Global, market: &Market, dict: Dict<N>) -> Result<Dict<N>, Stop<N>>
    requires best { (ts : List Taking) × HoldsBest market.now ts dict }
    ensures first { IfOk result (GoesFirst dict (dispatch_names market.now)) }
    ensures pair { IfErr result (λ stop. OnPassed stop (IsPairOf N.value N.bound (system_in dict))) }
{
    let _lines = market.lines();
    let order = first_names(alloc, market)?;
    match first_of_best(alloc, dict, order.slice()) {
        Ok(first) => Ok(first),
        Err(FirstStop::Passed(passed)) => Err(Stop::Passed(passed)),
        Err(FirstStop::Memory) => Err(Stop::Memory),
    }
}

/// Of the best dispatches for the limits and rooms taken, of which a dictionary shows one, the one that goes first.
pub fn go_first<N: Exact>(
    alloc: Global,
    market: &Market,
    dict: Dict<N>,
) -> Result<First<N>, Stop<N>>
    requires best { (ts : List Taking) × HoldsBest market.now ts dict }
    ensures first { (ts : List Taking) → HoldsBest market.now ts dict → IfOk result (IsFirstFound N.value market.now ts) }
    ensures pair { (ts : List Taking) → HoldsBest market.now ts dict → IfErr result (IsPairOver N.value N.bound market.now ts) }
{
    let _lines = market.lines();
    let dict = first_dict(alloc, market, dict)?;
    let dispatch = dispatch(alloc, market, &dict)?;
    let reserve = reserved(alloc, market, &dict)?;
    Ok(First {
        dict,
        dispatch,
        reserve,
    })
}
