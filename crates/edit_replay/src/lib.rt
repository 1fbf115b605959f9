//! Replays: edits and clears of one market, one after another. A session holds the market as the edits have left it, and what its clearer
//! keeps from one clear to the next, which edits leave as it is.
#![tactic(auto)]

pub mod laws;
mod session;
mod step_outcome;

pub use edit_table::{Step, StepFault, Steps, steps};
pub use session::Session;
pub use step_outcome::{Outcomes, StepOutcome};
