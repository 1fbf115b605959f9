//! The tables of factors, of offsets and of penalties, and the numbers of the outages that are asked for, over a live network.
//!
//! A table is read as `csv_table` reads one. Of several faults the first is told: those of the table as a whole, then the records in
//! order, of a record its cells from left to right and then its own rules, and at last what the table lacks.
#![tactic(auto)]

mod by_pair;
mod cells;
mod covering;
mod factor_reading;
mod made;
mod names;
mod offset_list;
mod offset_reading;
mod outage_numbers;
mod penalty_list;
mod penalty_reading;
mod table_fault;

pub use by_pair::{ByBus, ByOutage, Column, FactorTable, ListedFactor, Loss, Shift, TableKind};
pub use covering::{Uncovered, cover};
pub use factor_reading::{LOSS_HEADER, SHIFT_HEADER, outage, shift};
pub use made::MadeFactor;
pub use names::{is_live_branch, is_row};
pub use offset_list::Offsets;
pub use offset_reading::{OFFSET_HEADER, offsets};
pub use outage_numbers::{OUTAGE_HEADER, OutageRows, outage_rows};
pub use penalty_list::{Penalties, Softness};
pub use penalty_reading::{PENALTY_HEADER, penalties};
pub use table_fault::TableFault;
