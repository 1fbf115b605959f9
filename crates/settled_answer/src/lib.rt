//! The answer that is to be printed of a market: of a right answer the same dispatch with the first of the prices that support it, and with
//! the bus prices and the settlement that these make.
#![tactic(auto)]

pub mod laws;
mod repricing;
mod settling;

pub use settling::{SettledAnswer, SettledOutcome, settled, settled_outcome};
