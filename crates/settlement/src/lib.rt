//! What units are paid, for energy and for reserve, what loads pay and limits earn at bus prices, and what a dispatch is worth.
#![tactic(auto)]

pub mod laws;
mod loads;
mod offers;
mod rents;
mod rows;
mod settling;
mod units;
mod worth;

pub use settling::{settle, settle_flows};
pub use worth::welfare;
