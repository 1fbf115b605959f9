//! Networks of buses and branches with reactances, by the DC model: definitions and laws alone.
#![tactic(auto)]

pub mod laws;
