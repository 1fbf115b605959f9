//! What a certificate is answered by.

ghost use Rattle.std.specs.Prelude.{◌≡◌};

use exact_fraction::Passed;
use market_model::{RowId, Stop};

/// Why a certificate does not hold.
#[derive(Clone, Copy, PartialEq, Eq, Debug)]
pub enum Reason {
    /// The factors of the certificate's market had other places than those of the market.
    Places,
    /// There is not one quantity for each block and for each offer of reserve.
    Count,
    /// The market has no row of that name.
    NoRow { row: RowId },
    /// The unit of that row of the gen matrix, whose room is named, offers no reserve, or it is named twice.
    NoUnit { unit: u32 },
    /// A price of the row is below 0.
    Sign { row: RowId },
    /// The price of reserve is below 0.
    NeedSign,
    /// The price of the unit's room is below 0.
    RoomSign { unit: u32 },
    /// The quantity of a block is below 0 or above what it offers. The first block is 1.
    Block { n: usize },
    /// That of an offer of reserve is. The first offer is 1.
    Reserve { n: usize },
    /// The dispatch does not balance.
    Balance,
    /// Less reserve is accepted than is needed.
    Need,
    /// The flow of the row passes the most that it may be: its limit, and by how much that gives way.
    Limit { row: RowId },
    /// The unit uses more than its room.
    Room { unit: u32 },
    /// A price of the row does not support its flow: it is above 0 and the flow does not reach the limit, or below the penalty of a flow that
    /// exceeds it, or above that and the flow could exceed it by more. A row that no dual names has the price 0.
    Slack { row: RowId },
    /// The price of reserve is above 0, and not just the need is accepted.
    NeedSlack,
    /// The price of the unit's room is above 0, and the room is not used up.
    RoomSlack { unit: u32 },
    /// A block gains at what a MW of its unit is worth and is not accepted whole, or loses and is accepted. The first block is 1.
    Support { n: usize },
    /// An offer of reserve is below what that is worth of its unit and not accepted whole, or above it and accepted. The first offer is 1.
    ReserveSupport { n: usize },
    /// The bound is not below 0.
    Bound,
}

/// Whether a certificate holds of a market.
#[derive(Clone, Copy, PartialEq, Eq, Debug)]
pub enum Verdict {
    Yes,
    /// With the first reason against it.
    No(Reason),
}

/// Why there is no verdict: two numbers whose outcome passes the bound of their type, or want of memory.
#[derive(Drop, Debug)]
pub enum VerifyStop<N> {
    Range(Passed<N>),
    Memory,
}

impl<N> From<Stop<N>> for VerifyStop<N> {
    ghost use Rattle.cert_verify.specs.Stops.{told_stop};

    ghost from_gives = { λ stop told. told ≡ told_stop stop };

    fn from(stop: Stop<N>) -> VerifyStop<N> {
        match stop {
            Stop::Passed(passed) => VerifyStop::Range(passed),
            Stop::Memory => VerifyStop::Memory,
        }
    }
}
