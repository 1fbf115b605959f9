//! What `prepare` makes of a case: the offers of its units by their costs, the outages that its network stands, a penalty for each limit, and
//! what would else go unseen of it.
#![tactic(auto)]

mod lines;
mod parts;
mod prepared;

pub use parts::{Prepared, Wanted};
pub use prepared::{Preparation, PreparedTables, prepare};
