//! The cost of a unit's output, and the steps of the offer that it comes to: by how much the output changes in each, and at which price.
#![tactic(auto)]

mod checks;
mod costs;
pub mod laws;
mod parts;
mod price;
mod steps;
#[cfg(test)]
mod tests;

pub use checks::{MOST_SQUARE, is_cost, outputs_rise, slopes_do_not_fall};
pub use costs::{Cost, CostPoint};
pub use parts::Way;
pub use steps::{CostStop, Step, steps_of};
