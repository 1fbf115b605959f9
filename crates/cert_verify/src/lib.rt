//! Tells whether a certificate holds of a market, by the definitions of a feasible dispatch, of duals that support one and of duals
//! that show that none is feasible. It shares no code with the clearing but the exact numbers, the market and its limit rows.
#![tactic(auto)]

mod against;
mod blocks;
mod certified;
mod comparing;
mod duals;
mod flows;
pub mod laws;
mod limits;
mod naming;
mod offers;
mod rooms;
mod sides;
mod unpriced;
mod verdicts;
mod verifying;

pub use verdicts::{Reason, Verdict, VerifyStop};
pub use verifying::verify;
