//! The offers of all units.

ghost use Rattle.std.specs.Prelude.{◌≡◌, ◌≤◌, ◌<◌, [], ◌∷◌, length, All, Err, IfOk, MatchResult};
ghost use Rattle.market_data.specs.Scales.{most_blocks};
ghost use Rattle.unit_offers.specs.Adding.{AreAdded, AreUnitBlocks, IsAddStop, IsWithin};
ghost use Rattle.unit_offers.specs.UnitOffers.{AreUnitOffers, IsOfferStop, IsRanged, unit_blocks};
ghost use Rattle.unit_offers.specs.declared.stops.OfferStop.TheVariants as stop;

use crate::stops::OfferStop;
use crate::unit_steps::{UnitSteps, unit_steps};
use case_text::RawCosts;
use cost_steps::Step;
use market_data::{MOST_BLOCKS, UnitList};
use market_model::{Block, Side};
use plain_list::{List, Memory};
use std::alloc::Global;

/// The blocks of all units, and at how many of them the price is the cost's slope only when it is rounded.
#[derive(Drop, Debug)]
pub struct UnitOffers {
    pub blocks: List<Block>,
    pub rounded: usize,
}

impl UnitOffers {
    /// Adds the block of a step.
    fn add_step(&mut self, place: usize, side: Side, step: Step) -> Result<(), Memory>
        requires room { length self.old.blocks < most_blocks }
        requires rounded { self.old.rounded ≤ length self.old.blocks }
        ensures { IfOk result (λ _. AreAdded place side (step ∷ []) self.old self.new) }
    {
        self.blocks.push(Block {
            unit: place,
            side,
            quantity: step.quantity,
            price: step.price,
        })?;
        if !step.exact {
            self.rounded += 1;
        }
        Ok(())
    }

    /// Adds the blocks of a unit's steps on a side.
    fn add_side(&mut self, place: usize, side: Side, steps: &[Step]) -> Result<(), OfferStop>
        requires { IsWithin self.old }
        ensures { MatchResult result (λ _. AreAdded place side steps.now self.old self.new × IsWithin self.new) (IsAddStop self.old (length steps.now)) }
    {
        if steps.len() > MOST_BLOCKS - self.blocks.len() {
            return Err(OfferStop::TooMany);
        }
        for step in steps {
            self.add_step(place, side, *step)?;
        }
        Ok(())
    }

    /// Adds the blocks of a unit: its sells, then its bids.
    fn add_unit(&mut self, place: usize, steps: &UnitSteps) -> Result<(), OfferStop>
        requires { IsWithin self.old }
        ensures { MatchResult result (λ _. AreUnitBlocks place steps.now self.old self.new × IsWithin self.new) (IsAddStop self.old (length (unit_blocks place steps.now))) }
    {
        self.add_side(place, Side::Sell, steps.sells.slice())?;
        self.add_side(place, Side::Buy, steps.bids.slice())
    }
}

/// Makes the offers of all live units by their costs. The costs of a unit are in the row of `gencost` that its gen row has. Each unit's
/// sells come first, then its bids. A quadratic cost is cut into so many steps on either side, a cost of segments into one step for each
/// segment. `Memory` may come at any costs.
pub fn offers_of(
    alloc: Global,
    list: &UnitList,
    costs: &RawCosts<'_>,
    steps: u32,
) -> Result<UnitOffers, OfferStop>
    requires units { All (IsRanged list.now.rows) list.now.units }
    requires steps { 1 ≤ steps }
    ensures is { MatchResult result (AreUnitOffers list.now costs.now steps) (IsOfferStop list.now costs.now steps) }
    ensures too_few { length costs.now < list.now.rows → result ≡ Err (stop.TooFew (length costs.now)) }
{
    if costs.rows() < list.rows as usize {
        return Err(OfferStop::TooFew { rows: costs.rows() });
    }
    let mut offers = UnitOffers {
        blocks: List::new(alloc),
        rounded: 0,
    };
    let units = list.units.slice();
    for place in 0..units.len() {
        let unit = unit_steps(alloc, &units[place], costs, steps)?;
        offers.add_unit(place, &unit)?;
    }
    Ok(offers)
}
