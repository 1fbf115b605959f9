//! Bus prices and own prices of units, of the duals of an answer.
#![tactic(auto)]

mod owning;
mod pricing;

pub use owning::{own, own_prices};
pub use pricing::prices;
