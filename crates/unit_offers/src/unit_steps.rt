//! The steps that a unit offers.

ghost use Rattle.std.specs.Prelude.{◌≡◌, ◌≤◌, length, MatchResult};
ghost use Rattle.cost_steps.specs.Costs.{IsCost};
ghost use Rattle.cost_reading.specs.CostRows.{IsCostOf, row_at};
ghost use Rattle.unit_offers.specs.Adding.{IsUnitStop};
ghost use Rattle.unit_offers.specs.UnitOffers.{AreSideSteps, AreStepsOf, HasBounds, IsCostStop, IsSideStop};

use crate::ranges::range_of;
use crate::stops::OfferStop;
use case_text::RawCosts;
use cost_reading::{CostFault, cost_of_row};
use cost_steps::{Cost, CostStop, Step, steps_of};
use market_data::Unit;
use market_model::Side;
use plain_list::List;
use std::alloc::Global;

/// The steps of a unit's sells and of its bids.
#[derive(Drop, Debug)]
pub struct UnitSteps {
    pub sells: List<Step>,
    pub bids: List<Step>,
}

/// The cost of the unit in a gen row.
fn cost_of_unit(alloc: Global, costs: &RawCosts<'_>, row: u32) -> Result<Cost, OfferStop>
    requires row { (1 ≤ row) × (row ≤ length costs.now) }
    ensures { MatchResult result (IsCostOf (row_at costs.now row)) (IsCostStop costs.now row) }
{
    match cost_of_row(alloc, costs, row as usize) {
        Ok(cost) => Ok(cost),
        Err(CostFault::Memory) => Err(OfferStop::Memory),
        Err(fault) => Err(OfferStop::Cost { unit: row, fault }),
    }
}

/// The steps of a unit's cost on a side.
fn side_steps(
    alloc: Global,
    unit: &Unit,
    cost: &Cost,
    side: Side,
    count: u32,
) -> Result<List<Step>, OfferStop>
    requires bounds { HasBounds unit.now }
    requires cost { IsCost cost.now }
    requires count { 1 ≤ count }
    ensures { MatchResult result (AreSideSteps count cost.now unit.now side) (IsSideStop count cost.now unit.now side) }
{
    let range = range_of(unit, side);
    match steps_of(alloc, cost, range.way, range.low, range.high, count) {
        Ok(steps) => Ok(steps),
        Err(CostStop::Price) => Err(OfferStop::Price { unit: unit.row }),
        Err(CostStop::Memory) => Err(OfferStop::Memory),
    }
}

/// The steps of a unit's cost, on both sides.
pub fn unit_steps(
    alloc: Global,
    unit: &Unit,
    costs: &RawCosts<'_>,
    count: u32,
) -> Result<UnitSteps, OfferStop>
    requires row { (1 ≤ unit.now.row) × (unit.now.row ≤ length costs.now) }
    requires bounds { HasBounds unit.now }
    requires count { 1 ≤ count }
    ensures { MatchResult result (AreStepsOf costs.now count unit.now) (IsUnitStop costs.now count unit.now) }
{
    let cost = cost_of_unit(alloc, costs, unit.row)?;
    let sells = side_steps(alloc, unit, &cost, Side::Sell, count)?;
    let bids = side_steps(alloc, unit, &cost, Side::Buy, count)?;
    Ok(UnitSteps { sells, bids })
}
