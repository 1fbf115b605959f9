//! Ring networks that are made from a seed, to try a clearing on.
#![tactic(auto)]

mod draws;
mod factors;
pub mod laws;
mod rings;

pub use market_model::{Market, Memory};
pub use rings::ring;
