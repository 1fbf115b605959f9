//! The text of a replay: what each step came to, and the report of each clear.
#![tactic(auto)]

mod fault;
pub mod laws;
mod need;
mod replay;

pub use replay::replay_text;
