//! The least prices that support a dispatch: the bounds of their system, its first best point by the dual simplex method, the duals that this shows,
//! and the price of energy by blocks.
#![tactic(auto)]

mod caps;
mod energy;
pub mod laws;
mod only_point;
mod point;
mod posing;
mod reading;
mod settling;
mod solving;

pub use settling::first_duals;
