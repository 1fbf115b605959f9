//! The limit rows of a market: how many there are, in which order, by place and by name, their factors and their flows. It takes no memory.
#![tactic(auto)]

mod causes;
mod counting;
mod factors;
mod flowing;
pub mod laws;
mod numbering;
mod places;
mod softness;
mod walk;
mod wholes;

pub use causes::lost_unit;
pub use factors::{
    coefficient, loss_of, pickup_factor, row_factor, shift_of, taker_factor, unit_factor,
};
pub use flowing::{put_line_flows, put_lost_outputs, row_flow, row_offset};
pub use numbering::{count, id, place_of, position, row_at};
pub use places::{found_row, limit_at, name_at, row_named};
pub use softness::{is_soft, most_excess_at, most_flow, penalty_at};
pub use walk::{RowWalk, rows};
