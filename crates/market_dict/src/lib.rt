//! A market in a dictionary of the dual simplex method: its blocks and its offers of reserve are the columns, and the balance, the need
//! of reserve and the limits and rooms taken are the rows. From prices and bounds as the market has them to a best dispatch for these
//! limits and rooms with its duals, or to duals that show that no dispatch of the market is feasible.
#![tactic(auto)]

mod entries;
mod names;
mod offering;
mod posing;
mod reading;
mod reserve_prices;
mod rows;
mod solving;
mod taking;

pub use posing::{PricesAndBounds, prices_and_bounds, take_bounds};
pub use reading::duals;
pub use rows::{start, take_limit, take_room};
pub use solving::{First, Found, go_first, solve};
pub use taking::Taking;
