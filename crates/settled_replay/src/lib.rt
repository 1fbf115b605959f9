//! Clears, and replays of clears and edits, told as they are to be printed: of each answer the same dispatch with its first prices.
#![tactic(auto)]

mod clearing;
pub mod laws;
mod replaying;

pub use clearing::{SettledClear, settled_clear};
pub use replaying::{SettledReplay, settled_replay};
