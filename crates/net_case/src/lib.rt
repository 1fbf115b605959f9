//! The live network of a case: the buses, units and branches that its cells stand for.
#![tactic(auto)]

mod branch_reactances;
mod branch_rows;
mod bus_rows;
mod cells;
mod columns;
mod gen_rows;
mod limits;
mod live_parts;
mod network_reading;

pub use branch_reactances::{Reactances, reactances};
pub use live_parts::{Branches, NetBranch, NetBus, NetFault, NetUnit, Network, PostRating};
pub use network_reading::network;
