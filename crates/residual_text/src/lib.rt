//! The text that tells residuals.
#![tactic(auto)]

mod lines;

pub use lines::residuals_text;
