//! Of the dispatches of the greatest welfare the one that goes first in the market's order: it accepts more of the first block at which two
//! differ, and then of the first offer of reserve.
#![tactic(auto)]

pub mod laws;
