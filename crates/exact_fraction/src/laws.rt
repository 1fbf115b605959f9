//! Laws of the texts and the bounds, each the contract of a function that does nothing.
ghost use Rattle.std.specs.Prelude.{◌≡◌, ◌-◌, ◌^◌};
ghost use Rattle.exact_fraction.specs.Nearest.{NearestKeepsOrder, OneNearest};
ghost use Rattle.exact_fraction.specs.TextLaws.{WrittenApart, PartsApart};

use crate::{Exact, Frac, Frac63};

/// Fractions that are written alike in units are equal.
pub fn written_apart()
    ensures { WrittenApart }
{}

/// Fractions that are written alike as `num/den` are equal.
pub fn parts_apart()
    ensures { PartsApart }
{}

/// A number that is not less has no lesser nearest number of units.
pub fn nearest_keeps_order()
    ensures { NearestKeepsOrder }
{}

/// A number has one nearest number of units.
pub fn one_nearest()
    ensures { OneNearest }
{}

/// The bounds of the two types, and that 128 bytes hold the texts of both.
pub fn bounds()
    ensures wide { ⟦<Frac as Exact>⟧.bound ≡ 2 ^ 127 - 1 }
    ensures narrow { ⟦<Frac63 as Exact>⟧.bound ≡ 2 ^ 63 - 1 }
    ensures wide_text { ⟦<Frac as Exact>⟧.longest_text ≡ 128 }
    ensures narrow_text { ⟦<Frac63 as Exact>⟧.longest_text ≡ 128 }
{}
