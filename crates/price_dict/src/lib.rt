//! The system of prices that support a dispatch as a dictionary: without the prices that have to be 0, since a limit is not reached or a room is not
//! used up.
#![tactic(auto)]

mod blocks;
mod entries;
mod names;
mod reached;
mod rows;

pub use blocks::start_with_marked;
pub use reached::Reached;
pub use rows::start;
