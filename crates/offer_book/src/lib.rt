//! The stepped offers and bids of a market's units, and their offers of spinning reserve.
#![tactic(auto)]

mod edit_parts;
mod edits;
pub mod laws;
mod offer_table;
mod reserve_reading;

pub use edit_parts::{Edit, EditFault};
pub use edits::edit;
pub use offer_table::{OfferFault, blocks};
pub use reserve_reading::{RESERVE_HEADER, ReserveFault, reserves};
