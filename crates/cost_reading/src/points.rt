//! Costs that are straight lines from point to point.

ghost use Rattle.std.specs.Prelude.{◌+◌, ◌*◌, ◌<◌, ◌≤◌, ◌^◌, MatchResult};
ghost use Rattle.cost_reading.specs.CostRows.{ArePoints, HasCount, HasModel, IsCostFault, IsCostOf, row_at};
ghost use Rattle.cost_reading.specs.Cells.{IsPoint, IsPointFault};

use crate::cells::{count, number};
use crate::{CostFault, RowFault};
use case_text::RawCosts;
use cost_steps::{Cost, CostPoint, outputs_rise, slopes_do_not_fall};
use market_data::MW_PLACES;
use plain_list::List;
use std::alloc::Global;

/// Where the output of the first point is.
const OUTPUT: usize = 5;

/// Where the cost of the first point is.
const COST: usize = 6;

/// How many cells a point has, so that those of the next are so much farther on.
const WIDTH: usize = 2;

/// How many decimals the cost of a point has.
const COST_PLACES: u8 = 9;

/// The point of a place, the first being 0.
fn read_point(costs: &RawCosts<'_>, row: usize, place: usize) -> Result<CostPoint, RowFault>
    requires row { 1 ≤ row }
    requires fits { 6 + place * 2 < 2 ^ 64 }
    ensures { MatchResult result (IsPoint (row_at costs.now row) place) (IsPointFault (row_at costs.now row) place) }
{
    let output = number(costs, row, OUTPUT + place * WIDTH, MW_PLACES)?;
    let cost = number(costs, row, COST + place * WIDTH, COST_PLACES)?;
    Ok(CostPoint { output, cost })
}

/// So many points.
fn read_points(
    alloc: Global,
    costs: &RawCosts<'_>,
    row: usize,
    count: usize,
) -> Result<List<CostPoint>, CostFault>
    requires row { 1 ≤ row }
    requires fits { 4 + count * 2 < 2 ^ 64 }
    requires model { HasModel (row_at costs.now row) 1 }
    requires count { HasCount (row_at costs.now row) 2 2 count }
    ensures { MatchResult result (ArePoints (row_at costs.now row)) (IsCostFault (row_at costs.now row)) }
{
    let mut points = List::new(alloc);
    for place in 0..count {
        let point = read_point(costs, row, place)?;
        points.push(point)?;
    }
    Ok(points)
}

/// The cost of a row whose model is points.
pub fn segments(alloc: Global, costs: &RawCosts<'_>, row: usize) -> Result<Cost, CostFault>
    requires row { 1 ≤ row }
    requires model { HasModel (row_at costs.now row) 1 }
    ensures { MatchResult result (IsCostOf (row_at costs.now row)) (IsCostFault (row_at costs.now row)) }
{
    let count = count(costs, row, 2, WIDTH)?;
    let points = read_points(alloc, costs, row, count)?;
    if !outputs_rise(points.slice()) {
        return Err(CostFault::Outputs);
    }
    if !slopes_do_not_fall(points.slice()) {
        return Err(CostFault::Slopes);
    }
    Ok(Cost::Segments { points })
}
