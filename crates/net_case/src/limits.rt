//! The most that a number of a case may be.

/// The greatest BUS_I.
pub const MOST_BUS_NUMBER: u32 = 2_147_483_647;
