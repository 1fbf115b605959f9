//! The prices that support a dispatch, as the points of a linear system.
#![tactic(auto)]

pub mod laws;
mod variables;

pub use variables::Variable;
