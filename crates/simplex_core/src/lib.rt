//! The dual simplex method over a dictionary whose variables have bounds: from prices and bounds to the best values, or to
//! a row that no values within the bounds meet. Of several candidates the one of the least name leaves or enters, so that
//! every run ends. No call takes memory.
#![tactic(auto)]

mod bounds;
mod enter;
mod exchange;
pub mod laws;
mod leave;
mod posing;
mod solving;

pub use bounds::Bounds;
pub use posing::pose;
pub use solving::{Posed, Run, Solved};
