//! How wide the numbers of a run may be.
#![tactic(auto)]

/// How many bits the numerators and the denominators of a run's fractions may have, beside their sign.
#[derive(Clone, Copy, PartialEq, Eq, Debug)]
pub enum NumberBits {
    Bits127,
    Bits1023,
}
