//! Tables of factors as texts, which are read back as the same tables.
#![tactic(auto)]

pub mod laws;
mod writing;

pub use writing::{loss_text, shift_text};
