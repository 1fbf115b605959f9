//! A market as a linear system over some of its limits: the numbers of a choice of basic variables in it, the pairs of numbers
//! that clearing may have to combine, the rows that a clear may stand on, and with these what is right to print of a market.
#![tactic(auto)]

pub mod laws;
mod variables;

pub use variables::Variable;
