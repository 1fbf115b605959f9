//! The flows of a dispatch, the limit that flows pass by the most, and the room that energy and reserve pass by the most; and the limits that flows
//! reach, and the rooms that are used up.
#![tactic(auto)]

mod bounds;
mod flowing;
pub mod laws;
mod looking;
mod parts;
mod reaching;
mod screening;
mod sharing;
mod taking;
mod uses;

pub use flowing::{bus_injections, carried_flows, flows, flows_made};
pub use looking::{RowLook, look_at_rows};
pub use parts::{WholeParts, whole_parts};
pub use reaching::{Reach, used_up};
pub use screening::{beyond, worst, worst_row};
pub use sharing::{rooms, worst_room, worst_room_by_uses};
