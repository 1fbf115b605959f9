//! Blocks, and what a market is made of.

ghost use Rattle.std.specs.Prelude.{◌≡◌};
ghost use Rattle.market_model.specs.LimitRows.{limit_of};
ghost use Rattle.market_model.specs.Lines.{hard_line};
ghost use Rattle.market_model.specs.Market.{bare_parts};
ghost use Rattle.market_model.specs.Reserves.{no_reserve};

use market_data::{Bus, FactorPlaces, Unit};
use plain_list::List;
use std::alloc::Global;

/// Whether a block raises its unit's output or lowers it.
#[derive(Clone, Copy, PartialEq, Eq, Debug)]
pub enum Side {
    Sell,
    Buy,
}

/// One step of a unit's stair of offers or bids.
#[derive(Clone, Copy, PartialEq, Eq, Debug)]
pub struct Block {
    /// The place of its unit among the live units.
    pub unit: usize,
    pub side: Side,
    /// In 10^-9 MW.
    pub quantity: i64,
    /// In 10^-6 per MWh. It may be negative.
    pub price: i64,
}

/// A live branch. Its limits, excesses and offset are in 10^-9 MW, its penalties in 10^-6 per MWh. A limit gives way where its penalty
/// is above 0: its flow may exceed it by so much, at that price for each MW (transmission constraint penalty factor).
#[derive(Clone, Copy, PartialEq, Eq, Debug)]
pub struct Line {
    /// Its row in the case's branch matrix, from 1.
    pub row: u32,
    /// Its limit while all branches are there: the size that its flow is to keep within, where there is one.
    pub base: Option<i64>,
    /// Its limit after an outage.
    pub post: Option<i64>,
    /// The penalty of its limit in the base, and the most by which its flow may exceed that.
    pub base_price: i64,
    pub base_excess: i64,
    /// The same of its limit after an outage.
    pub post_price: i64,
    pub post_excess: i64,
    /// What is added to its flow, whatever the buses put in.
    pub offset: i64,
}

impl Line {
    /// A line whose limits do not give way.
    pub fn hard(row: u32, base: Option<i64>, post: Option<i64>, offset: i64) -> Line
        ensures { result ≡ hard_line row base post offset }
    {
        Line {
            row,
            base,
            post,
            base_price: 0,
            base_excess: 0,
            post_price: 0,
            post_excess: 0,
            offset,
        }
    }

    /// Its limit after an outage, or else in the base, in 10^-9 MW, where it has one.
    pub fn limit(&self, post: bool) -> Option<i64>
        ensures { result ≡ limit_of post self.now }
    {
        if post { self.post } else { self.base }
    }
}

/// A factor of a line: its shift factor for a bus, or its loss factor for a line that is lost.
#[derive(Clone, Copy, PartialEq, Eq, Debug)]
pub struct Factor {
    /// The place of the line.
    pub line: usize,
    /// The place of the bus, or of the lost line.
    pub of: usize,
    /// In 10^-9.
    pub value: i64,
}

/// What a unit picks up of the output of a unit that is lost.
#[derive(Clone, Copy, PartialEq, Eq, Debug)]
pub struct Pickup {
    /// The place of the outage among those of units.
    pub outage: usize,
    /// The place of the unit that picks up.
    pub taker: usize,
    /// Its part of the lost output, in 10^-6.
    pub share: i64,
}

/// What a unit offers to keep ready beside what it puts out (spinning reserve).
#[derive(Clone, Copy, PartialEq, Eq, Debug)]
pub struct ReserveOffer {
    /// The place of its unit among the live units.
    pub unit: usize,
    /// In 10^-9 MW.
    pub quantity: i64,
    /// In 10^-6 per MWh. It may be negative.
    pub price: i64,
}

/// Spinning reserve: what units offer of it, and how much is needed.
#[derive(Drop, Debug)]
pub struct Reserve {
    /// Whether it is cleared together with energy; where not, none is offered or needed.
    pub listed: bool,
    pub offers: List<ReserveOffer>,
    /// In 10^-9 MW.
    pub need: i64,
}

impl Reserve {
    /// That of a market of energy alone.
    pub fn none(alloc: Global) -> Reserve
        ensures { result ≡ no_reserve }
    {
        Reserve {
            listed: false,
            offers: List::new(alloc),
            need: 0,
        }
    }
}

/// A right to what limits earn (financial transmission right): it is paid, for so many MW, the price where it ends less that where it
/// begins.
#[derive(Clone, Copy, PartialEq, Eq, Debug)]
pub struct TransmissionRight {
    /// The place of the bus where it begins.
    pub from: usize,
    /// The place of the bus where it ends.
    pub to: usize,
    /// In 10^-9 MW, at least 0.
    pub mw: i64,
}

/// What a market is made of.
#[derive(Drop, Debug)]
pub struct Parts {
    pub buses: List<Bus>,
    pub units: List<Unit>,
    pub blocks: List<Block>,
    pub lines: List<Line>,
    /// The branch rows of the outages.
    pub outages: List<u32>,
    /// How much of what a bus puts in flows on a line. A pair without a factor has factor 0.
    pub shift: List<Factor>,
    /// How much of the flow of a lost line goes over to another line.
    pub loss: List<Factor>,
    /// The place of the unit that each outage of a unit loses.
    pub unit_outages: List<usize>,
    /// What others pick up then.
    pub pickups: List<Pickup>,
    /// How many decimal places a factor in the tables may have.
    pub factor_places: FactorPlaces,
    pub reserve: Reserve,
}

impl Parts {
    /// The parts of a market that has nothing but these.
    pub fn bare(alloc: Global, buses: List<Bus>, units: List<Unit>, blocks: List<Block>) -> Parts
        ensures { result ≡ bare_parts buses units blocks }
    {
        Parts {
            buses,
            units,
            blocks,
            lines: List::new(alloc),
            outages: List::new(alloc),
            shift: List::new(alloc),
            loss: List::new(alloc),
            unit_outages: List::new(alloc),
            pickups: List::new(alloc),
            factor_places: FactorPlaces::Six,
            reserve: Reserve::none(alloc),
        }
    }
}
