//! The parts of a range of outputs, each with the slope of the cost there.

ghost use Rattle.std.specs.Prelude.{◌≡◌, ◌+◌, ◌<◌, ◌≤◌, length, ◌-ℤ◌, ◌≤ℤ◌, ◌<ℤ◌};
ghost use Rattle.market_data.specs.Participants.{IsDatum};
ghost use Rattle.cost_steps.specs.Costs.{AreCostPoints, IsCost, IsSquare};
ghost use Rattle.cost_steps.specs.Parts.{equal_cut, part_at, part_count, point_cut, quadratic_part, segment_part, IsStretch};

use crate::costs::{Cost, CostPoint};

/// Which way an output goes from where it is: a unit that sells more goes up, and one that buys more goes down.
#[derive(Clone, Copy, PartialEq, Eq, Debug)]
pub enum Way {
    Up,
    Down,
}

/// A part of a range of outputs, in 10^-9 MW, where the cost's slope is `rise / run` in 10^-6 dollars per MWh.
#[derive(Clone, Copy, PartialEq, Eq, Debug)]
pub struct Stretch {
    pub from: i64,
    pub to: i64,
    pub rise: i128,
    pub run: u64,
}

/// How many parts a range is cut into: as many as are asked for, or one for each segment.
pub fn part_total(cost: &Cost, count: usize) -> usize
    requires { IsCost cost.now }
    ensures { result ≡ part_count cost.now count }
{
    match cost {
        Cost::Quadratic { .. } => count,
        Cost::Segments { points } => points.len() - 1,
    }
}

/// Where the range is cut after so many parts of one width. The last part ends where the range does.
fn cut_equally(way: Way, low: i64, high: i64, count: usize, place: usize) -> i64
    requires order { low ≤ℤ high }
    requires width { IsDatum (high -ℤ low) }
    requires place { place ≤ count }
    ensures { result ≡ equal_cut way low high count place }
{
    if place == count {
        return match way {
            Way::Up => high,
            Way::Down => low,
        };
    }
    let width = high.abs_diff(low) / count as u64;
    let past = (place as u64 * width) as i64;
    match way {
        Way::Up => low + past,
        Way::Down => high - past,
    }
}

/// The part of a quadratic cost between two outputs. Its factor of the square times an output is in 10^-24 dollars per MWh, 10^12 of which
/// are a unit of the linear factor, and 10^18 one of prices.
fn quadratic_stretch(square: i64, linear: i64, from: i64, to: i64) -> Stretch
    requires { IsSquare square }
    ensures { IsStretch (quadratic_part square linear from to) result }
{
    let ends = i128::from(from) + i128::from(to);
    let rise = i128::from(square) * ends + i128::from(linear) * 1_000_000_000_000;
    Stretch {
        from,
        to,
        rise,
        run: 1_000_000_000_000_000_000,
    }
}

/// Where the range is cut by the point of a place.
fn cut_at_point(points: &[CostPoint], low: i64, high: i64, place: usize) -> i64
    requires order { low ≤ℤ high }
    requires points { AreCostPoints points.now }
    requires place { place < length points.now }
    ensures { result ≡ point_cut low high points.now place }
{
    if place == 0 {
        low
    } else if place == points.len() - 1 {
        high
    } else {
        points[place].output.clamp(low, high)
    }
}

/// What of a segment, from the point of a place to the next, lies in the range.
fn segment_stretch(points: &[CostPoint], low: i64, high: i64, place: usize) -> Stretch
    requires order { low ≤ℤ high }
    requires points { AreCostPoints points.now }
    requires place { place + 1 < length points.now }
    ensures { IsStretch (segment_part low high points.now place) result }
{
    let first = points[place];
    let second = points[place + 1];
    let from = cut_at_point(points, low, high, place);
    let to = cut_at_point(points, low, high, place + 1);
    let rise = (i128::from(second.cost) - i128::from(first.cost)) * 1_000_000;
    let run = second.output.abs_diff(first.output);
    Stretch {
        from,
        to,
        rise,
        run,
    }
}

/// The part of a place, counted from where the way begins.
pub fn stretch_at(cost: &Cost, way: Way, low: i64, high: i64, count: usize, place: usize) -> Stretch
    requires cost { IsCost cost.now }
    requires order { low ≤ℤ high }
    requires width { IsDatum (high -ℤ low) }
    requires place { place < part_count cost.now count }
    ensures { IsStretch (part_at cost.now way low high count place) result }
{
    match cost {
        Cost::Quadratic { square, linear } => {
            let near = cut_equally(way, low, high, count, place);
            let far = cut_equally(way, low, high, count, place + 1);
            match way {
                Way::Up => quadratic_stretch(*square, *linear, near, far),
                Way::Down => quadratic_stretch(*square, *linear, far, near),
            }
        }
        Cost::Segments { points } => match way {
            Way::Up => segment_stretch(points.slice(), low, high, place),
            Way::Down => segment_stretch(points.slice(), low, high, points.len() - 2 - place),
        },
    }
}
