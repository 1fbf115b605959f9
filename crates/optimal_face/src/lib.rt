//! The best points of a linear system, and which of them goes first in an order of its columns.
#![tactic(auto)]

pub mod laws;
