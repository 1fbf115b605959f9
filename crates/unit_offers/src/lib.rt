//! The blocks that the units of a network offer by their costs.
//! Source: MATPOWER User's Manual, the generator cost data of a case.
#![tactic(auto)]

pub mod laws;
mod offers;
mod ranges;
mod stops;
mod unit_steps;

pub use offers::{UnitOffers, offers_of};
pub use stops::OfferStop;
