//! What a clear takes of a market, one by one.

use market_model::Row;

/// A limit, or the room of a unit that offers reserve.
#[derive(Clone, Copy, Debug)]
pub enum Taking {
    Limit(Row),
    /// By the place of its unit.
    Room(usize),
}
