//! Whether a cost is one that steps are made of.

ghost use Rattle.std.specs.Prelude.{◌↔◌, IsTrue, ◌<◌, ◌≤◌, ◌^◌, unsigned_abs, length, ◌<ℤ◌};
ghost use Rattle.fraction_theory.specs.Fraction.{over};
ghost use Rattle.fraction_theory.specs.Order.{◌≤ℚ◌};
ghost use Rattle.cost_steps.specs.Costs.{AreCostPoints, IsCost, OutputsRise, SlopesDoNotFall, segment_slope};

use crate::costs::{Cost, CostPoint};

/// The most of a quadratic cost's factor of the square: 1000 dollars per MW^2 an hour.
pub const MOST_SQUARE: i64 = 1_000_000_000_000_000_000;

/// Whether `rise / run` is at most `next_rise / next_run`.
fn is_at_most(rise: i128, run: u64, next_rise: i128, next_run: u64) -> bool
    requires rise { unsigned_abs rise < 2 ^ 64 }
    requires run { 0 < run }
    requires next_rise { unsigned_abs next_rise < 2 ^ 64 }
    requires next_run { 0 < next_run }
    ensures { IsTrue result ↔ (over rise run ≤ℚ over next_rise next_run) }
{
    let left = rise.unsigned_abs() * u128::from(next_run);
    let right = next_rise.unsigned_abs() * u128::from(run);
    if rise < 0 {
        if next_rise < 0 { right <= left } else { true }
    } else if next_rise < 0 {
        false
    } else {
        left <= right
    }
}

/// Whether the output of each point is above that of the one before.
pub fn outputs_rise(points: &[CostPoint]) -> bool
    requires { 2 ≤ length points.now }
    ensures { IsTrue result ↔ OutputsRise points.now }
{
    for place in 0..points.len() - 1 {
        if points[place].output >= points[place + 1].output {
            return false;
        }
    }
    true
}

/// Whether the slope from the first point to the second is at most that from there to the third.
fn bends_up(first: CostPoint, second: CostPoint, third: CostPoint) -> bool
    requires near { first.output <ℤ second.output }
    requires far { second.output <ℤ third.output }
    ensures { IsTrue result ↔ (segment_slope first second ≤ℚ segment_slope second third) }
{
    let rise = i128::from(second.cost) - i128::from(first.cost);
    let run = second.output.abs_diff(first.output);
    let next_rise = i128::from(third.cost) - i128::from(second.cost);
    let next_run = third.output.abs_diff(second.output);
    is_at_most(rise, run, next_rise, next_run)
}

/// Whether the slope from each point to the next is at least the one before.
pub fn slopes_do_not_fall(points: &[CostPoint]) -> bool
    requires some { 2 ≤ length points.now }
    requires rise { OutputsRise points.now }
    ensures { IsTrue result ↔ SlopesDoNotFall points.now }
{
    for place in 0..points.len() - 2 {
        if !bends_up(points[place], points[place + 1], points[place + 2]) {
            return false;
        }
    }
    true
}

/// Whether there are at least two points, whose outputs rise, with slopes that do not fall.
fn are_cost_points(points: &[CostPoint]) -> bool
    ensures { IsTrue result ↔ AreCostPoints points.now }
{
    points.len() >= 2 && outputs_rise(points) && slopes_do_not_fall(points)
}

/// Whether the cost's slope falls nowhere, and a quadratic one's bends by no more than is taken.
pub fn is_cost(cost: &Cost) -> bool
    ensures { IsTrue result ↔ IsCost cost.now }
{
    match cost {
        Cost::Quadratic { square, .. } => *square >= 0 && *square <= MOST_SQUARE,
        Cost::Segments { points } => are_cost_points(points.slice()),
    }
}
