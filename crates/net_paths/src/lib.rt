//! Which buses the live branches join, their independent loops, and the ways round a branch that is lost.
#![tactic(auto)]

mod connection;
mod detours;
mod incidence;
mod loops_of_tree;
mod parts;
mod search;
mod steps;

pub use connection::{PathStop, connected};
pub use detours::{Detour, branch_of, without};
pub use loops_of_tree::{Loop, Loops, Member, is_lost, loops};
pub use parts::bus_number;
