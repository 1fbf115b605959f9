//! By how much published factors miss Kirchhoff's laws.
//!
//! A shift factor says what flows over a branch for each MW that goes in at a bus and out at the reference, a line outage factor how
//! much of a lost branch's flow goes over another. Both are flows of one MW from a bus to another, so at every bus the flows out of it
//! less those into it are what goes in there, and round every loop the flows times the branches' reactances sum to 0. By how much the
//! factors of a table miss that are its residuals; rounding explains half a unit of the last place for each factor.
#![tactic(auto)]

mod columns;
pub mod laws;
mod loop_sums;
mod node_sums;
mod residuals;
mod spots;

pub use residuals::{bus_residual, loop_residual, outage_bus_residual, outage_loop_residual};
pub use spots::{Residual, Spot};
