//! The text of what a clear came to.
#![tactic(auto)]

mod answer;
pub mod laws;
mod limits;
mod outcome;
mod reserve;

pub use limits::row_words;
pub use outcome::{range, report, report_with_need};
