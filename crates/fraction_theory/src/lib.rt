//! Fractions of any size: definitions and laws alone.
#![tactic(auto)]

/// Where a number stands against 0.
#[derive(Clone, Copy, PartialEq, Eq, Debug)]
pub enum Sign {
    Below,
    Zero,
    Above,
}
