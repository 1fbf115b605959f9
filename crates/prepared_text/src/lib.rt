//! Tables that are prepared for other commands, as texts which these read back.
#![tactic(auto)]

mod begun;
pub mod laws;
mod offers;
mod outages;
mod penalties;

pub use offers::offers_text;
pub use outages::outages_text;
pub use penalties::penalties_text;
