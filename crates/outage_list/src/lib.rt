//! The outages that a market is to stand: of branches, out of the numbers that are asked for, and of units, by their table.
#![tactic(auto)]

mod listing;
mod pickup_records;
mod unit_fault;
mod unit_listing;

pub use listing::{OutageFault, Outages, listed};
pub use unit_fault::UnitOutageFault;
pub use unit_listing::{UNIT_OUTAGE_HEADER, UnitOutages, unit_outages};
