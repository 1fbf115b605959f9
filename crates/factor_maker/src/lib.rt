//! Shift factors and outage factors made from reactances.
//!
//! A factor is what a branch carries of 1 MW that goes from bus to bus, by the DC model, rounded to so many places. It is found by guessed
//! angles whose misses bound how wrong the flows are; where a bound does not tell the nearest number, as where a factor lies half-way
//! between two, by exact fractions.
#![tactic(auto)]

mod columns;
mod exact_columns;
mod lines;
mod losing;
mod numbers;
mod shifting;
mod stops;

pub use losing::make_loss;
pub use shifting::make_shift;
pub use stops::{MOST_MADE, MakeStop};
