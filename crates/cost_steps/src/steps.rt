//! The steps of an offer.

ghost use Rattle.std.specs.Prelude.{◌≡◌, ◌<◌, ◌≤◌, ◌^◌, IfOk, MatchResult, unsigned_abs, ◌-ℤ◌, ◌≤ℤ◌};
ghost use Rattle.std.specs.List.{AllZip};
ghost use Rattle.market_data.specs.Participants.{IsDatum};
ghost use Rattle.cost_steps.specs.Costs.{IsCost};
ghost use Rattle.cost_steps.specs.Parts.{parts};
ghost use Rattle.cost_steps.specs.Steps.{AreSteps, IsStepBy, IsStepOf, IsStop, IsStopBy};

use crate::costs::Cost;
use crate::parts::{Stretch, Way, part_total, stretch_at};
use crate::price::nearest;
use plain_list::{List, Memory};
use std::alloc::Global;

/// A part of an offer.
#[derive(Clone, Copy, PartialEq, Eq, Debug)]
pub struct Step {
    /// By how much the output changes at the most, in 10^-9 MW.
    pub quantity: i64,
    /// In 10^-6 dollars per MWh.
    pub price: i64,
    /// Whether the price is the cost's slope, which else is rounded to it.
    pub exact: bool,
}

/// Why there are no steps.
#[derive(Clone, Copy, PartialEq, Eq, Debug)]
pub enum CostStop {
    /// A price does not fit 63 bits.
    Price,
    /// Memory was refused.
    Memory,
}

impl From<Memory> for CostStop {
    ghost use Rattle.cost_steps.specs.declared.steps.CostStop.TheVariants as cost_stop;

    ghost from_gives = { λ _ stop. stop ≡ cost_stop.Memory };

    fn from(_refused: Memory) -> CostStop {
        CostStop::Memory
    }
}

/// The step of a part that has a width.
fn step_of(stretch: Stretch) -> Result<Step, CostStop>
    requires run { 0 < stretch.run }
    requires rise { unsigned_abs stretch.rise < 2 ^ 127 }
    requires width { IsDatum (stretch.to -ℤ stretch.from) }
    ensures { MatchResult result (IsStepBy stretch) (IsStopBy stretch) }
{
    match nearest(stretch.rise, stretch.run) {
        Some(price) => Ok(Step {
            quantity: stretch.to - stretch.from,
            price: price.number,
            exact: price.exact,
        }),
        None => Err(CostStop::Price),
    }
}

/// Cuts a range of outputs into the steps of an offer, in the order of the way: a quadratic cost's into so many of one width, the last of
/// which has what is left over, and a cost of segments into one for each segment. What has no width is left out. `Memory` may come at any
/// cost.
pub fn steps_of(
    alloc: Global,
    cost: &Cost,
    way: Way,
    low: i64,
    high: i64,
    count: u32,
) -> Result<List<Step>, CostStop>
    requires cost { IsCost cost.now }
    requires order { low ≤ℤ high }
    requires width { IsDatum (high -ℤ low) }
    requires count { 1 ≤ count }
    ensures is { MatchResult result (AllZip IsStepOf (parts cost.now way low high count)) (IsStop (parts cost.now way low high count)) }
    ensures steps { IfOk result (AreSteps way low high) }
{
    let mut steps = List::new(alloc);
    let count = count as usize;
    for place in 0..part_total(cost, count) {
        let stretch = stretch_at(cost, way, low, high, count, place);
        if stretch.from < stretch.to {
            let step = step_of(stretch)?;
            steps.push(step)?;
        }
    }
    Ok(steps)
}
