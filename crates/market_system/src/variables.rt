//! The variables of a market's linear system.

use market_model::Row;

/// A variable of a market's linear system, by what it is of.
#[derive(Clone, Copy, Debug)]
pub enum Variable {
    /// What the block at this place has accepted.
    Block(usize),
    /// What the blocks raise the balance by.
    Balance,
    /// What the blocks add to the flow of a limit row, less what is above its limit and with what is below.
    Limit(Row),
    /// By how much the flow of a soft row is above its limit.
    Over(Row),
    /// By how much the flow of a soft row is below the opposite of its limit.
    Under(Row),
    /// What the offer of reserve at this place has accepted.
    Offer(usize),
    /// The reserve that is accepted in all.
    Need,
    /// What the unit at this place uses of its room, for energy and for reserve.
    Room(usize),
}
