//! What the numbers of a certificate add up to at a market: the arithmetic of a verifier. It shares no code with the clearing but
//! the exact numbers, the market and its limit rows, with their injections, outputs, flows and rooms.
#![tactic(auto)]

mod bounding;
mod bounding_reserve;
mod flowing;
mod own_pricing;
mod pricing;
mod putting;
mod worths;

pub use bounding::farkas_bound;
pub use flowing::carried_flows;
pub use pricing::{NamedRow, unit_price};
pub use putting::injections;
pub use worths::{NamedRoom, energy_worth, reserve_worth};
