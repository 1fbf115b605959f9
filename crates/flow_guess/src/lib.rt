//! What branches carry of 1 that goes from bus to bus, to the nearest unit, by guessed angles whose misses bound how wrong they are.
//!
//! Exact fractions of a network's factors have as many digits as its spanning trees do. So angles are guessed in floats, made whole
//! numbers, and what they miss at each bus is counted exactly: no flow is off by more than all misses in sum.
#![tactic(auto)]

mod bounds;
mod elimination;
mod floats;
mod guesser;
mod links;
mod nearest;
mod refining;
mod scale;
mod told;

pub use guesser::Guesser;
pub use links::{Link, are_links, is_link};
