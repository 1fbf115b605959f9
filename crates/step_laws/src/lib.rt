//! Laws of costs and of the parts that a range of outputs is cut into.
#![tactic(auto)]

pub mod laws;
