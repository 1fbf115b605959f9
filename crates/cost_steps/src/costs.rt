//! Costs by output.

use plain_list::List;

/// What an output costs.
#[derive(Clone, Copy, PartialEq, Eq, Debug)]
pub struct CostPoint {
    /// In 10^-9 MW.
    pub output: i64,
    /// In 10^-9 dollars an hour.
    pub cost: i64,
}

/// What a unit's output costs, but for what it costs whatever it puts out.
#[derive(Drop, Debug)]
pub enum Cost {
    /// `square * p * p + linear * p` at p MW.
    Quadratic {
        /// In 10^-15 dollars per MW^2 an hour, from 0 to 1000 dollars.
        square: i64,
        /// In 10^-12 dollars per MWh.
        linear: i64,
    },
    /// Straight lines from each point to the next, of which the first and the last go on without end.
    Segments {
        points: List<CostPoint>,
    },
}
