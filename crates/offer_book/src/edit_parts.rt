//! What an edit of a market is, and why one is refused.

use market_model::Side;

/// One number of a market, and what it is to be. Units, buses and branches go by their numbers in the case, blocks of a unit on a
/// side are counted from 1.
#[derive(Clone, Copy, Debug, PartialEq, Eq)]
pub enum Edit {
    /// The price of a block, in 10^-6 per MWh.
    Price {
        unit: i64,
        side: Side,
        block: i64,
        price: i64,
    },
    /// The quantity of a block, in 10^-9 MW.
    Quantity {
        unit: i64,
        side: Side,
        block: i64,
        mw: i64,
    },
    /// The load of a bus, in 10^-9 MW. Its shunt stays.
    Demand {
        bus: i64,
        mw: i64,
    },
    /// The limit of a branch in the base, or that after an outage, in 10^-9 MW.
    Limit {
        branch: i64,
        post: bool,
        mw: i64,
    },
    /// The need of spinning reserve, in 10^-9 MW.
    Need {
        mw: i64,
    },
}

/// Why an edit is refused.
#[derive(Clone, Copy, Debug, PartialEq, Eq)]
pub enum EditFault {
    /// The unit has no block of that number on that side.
    NoBlock,
    /// No live bus has that number.
    NoBus,
    /// No live branch of that row has such a limit.
    NoLimit,
    /// No reserve is cleared with energy.
    NoReserve,
    /// A quantity, a limit or a need below 0.
    Negative,
    /// The stair breaks against the block before or after, whose price is this.
    OutOfOrder { other: i64 },
    /// The side's blocks would exceed the room of their unit by so much, in 10^-9 MW.
    OverCapacity { over: i128 },
}
