//! The live network of a case by the DC model: what its exact shift and outage factors are. There are no functions but laws.
#![tactic(auto)]

pub mod laws;
