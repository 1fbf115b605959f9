//! Limit rows: the limits that a dispatch has to meet.

/// Why a limit applies: in the base, while all lines are there, or after an outage.
#[derive(Clone, Copy, PartialEq, Eq, Debug)]
pub enum Cause {
    Base,
    /// The line at this place is lost.
    Branch(usize),
    /// The unit of the outage at this place among those of units is lost, and others pick up its output.
    UnitOutage(usize),
}

/// A limit row: the limit of a line, by its place, under a cause.
#[derive(Clone, Copy, PartialEq, Eq, Debug)]
pub struct Row {
    pub line: usize,
    pub cause: Cause,
}
