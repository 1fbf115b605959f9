//! Texts of lines in the making, and what is written into them: words, numbers and decimals.
#![tactic(auto)]

mod decimals;
mod text;

pub use text::Text;
