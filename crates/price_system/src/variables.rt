//! The variables of the system of prices.

use market_model::Row;

/// A variable of the system of prices, by what it is of.
#[derive(Clone, Copy, Debug)]
pub enum Variable {
    /// The price of energy.
    Energy,
    /// The price of reserve.
    Reserve,
    /// What a MW more of a limit row's flow costs where it is at its limit.
    Up(Row),
    /// What a MW less of it costs where it is at the opposite of its limit.
    Down(Row),
    /// The price of the room of the unit at this place.
    Room(usize),
    /// What all prices but that of energy add up to.
    Sum,
    /// What a MW of the block at this place is worth.
    Block(usize),
    /// What a MW of the reserve of the offer at this place is worth.
    Offer(usize),
}
