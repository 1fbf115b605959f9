//! Certificates of a clear as JSON: an answer or duals that can be verified without clearing again.
#![tactic(auto)]

mod certificate;
mod forms;
mod fractions;
pub mod laws;
mod members;
mod object;
mod reading;
mod reading_reserve;
mod writing;
mod writing_reserve;

pub use certificate::{Cert, CertFault, ClearedReserve, Key, ReserveDuals};
pub use reading::{from_json, read_json};
pub use writing::{outcome_json, to_json};
