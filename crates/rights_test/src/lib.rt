//! Transmission rights: their table, whether limits could carry them together, and what they are paid.
#![tactic(auto)]

mod fitting;
mod injecting;
pub mod laws;
mod paying;
mod reading;
mod right_parts;

pub use fitting::fit;
pub use paying::pay;
pub use reading::{MOST_RIGHTS, RIGHT_HEADER, rights};
pub use right_parts::{Fit, Payments, Rights, RightsFault};
