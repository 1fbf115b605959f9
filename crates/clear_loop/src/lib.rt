//! Clears markets one after another. A clear takes limits and rooms one by one, and only such as a best dispatch for those in hand passes,
//! until a best dispatch passes no other, or until no dispatch is feasible for those in hand. The dictionary with what is taken is kept for
//! the next market of the same frame, which starts from it at its own prices and bounds.
#![tactic(auto)]

mod answering;
mod bounding;
mod bounding_reserve;
mod clearer;
mod fault;
mod hand;
pub mod laws;
mod merit;
mod reached;
mod rounds;
mod sameness;
mod screen;
mod worths;

pub use clearer::Clearer;
pub use fault::{ClearFault, outcome};
pub use reached::ReachedOutcome;
