//! The line that says why a file is refused.
#![tactic(auto)]

mod refusals;

pub use refusals::{FactorFault, Input, Refusal, refusal_text};
