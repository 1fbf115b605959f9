//! The step from the first best point of the system of prices to the duals that are printed.
#![tactic(auto)]

pub mod laws;
