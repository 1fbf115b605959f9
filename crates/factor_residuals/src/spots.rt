//! Residuals at their places.

ghost use Rattle.std.specs.Prelude.{◌≡◌, ◌++◌, ◌∷◌, [], List, unsigned_abs, nat_lt, MatchOption};
ghost use Rattle.std.specs.List.{find};
ghost use Rattle.factor_residuals.specs.Residuals.{exceeds, IsMost, IsResidual};

/// A residual at its place.
#[derive(Clone, Copy, Debug, PartialEq, Eq)]
pub struct Spot {
    /// In 10^-9 at a bus, in 10^-27 round a loop.
    pub value: i128,
    /// What the rounding of factors explains, in a tenth of the value's unit.
    pub bound: i128,
    /// The number of the bus, or the row of the loop's first branch.
    pub at: u32,
    /// The number of the bus where one MW goes in, or the row of the lost branch.
    pub of: u32,
}

/// The residuals that stand out, in the order of their columns, then of their places.
#[derive(Clone, Copy, Debug, PartialEq, Eq)]
pub struct Residual {
    /// The first of greatest size; none where there is no place at all.
    pub most: Option<Spot>,
    /// The first whose size exceeds its bound.
    pub over: Option<Spot>,
}

/// Whether a residual's size exceeds its bound: ten times the size is above it. The bound is divided, and the size is not multiplied, so
/// that no size is too great.
pub(crate) fn exceeds(spot: &Spot) -> bool
    ensures { result ≡ exceeds spot.now }
{
    spot.bound < 0 || spot.bound.unsigned_abs() / 10 < spot.value.unsigned_abs()
}

/// Whether the size of a residual is above that of another.
fn is_above(spot: &Spot, other: &Spot) -> bool
    ensures { result ≡ nat_lt (unsigned_abs other.now.value) (unsigned_abs spot.now.value) }
{
    spot.value.unsigned_abs() > other.value.unsigned_abs()
}

impl Residual {
    /// That of no place.
    pub(crate) fn of_none() -> Residual
        ensures { IsResidual [] result }
    {
        Residual {
            most: None,
            over: None,
        }
    }

    /// With one spot more behind those before it.
    pub(crate) fn with(self, spot: Spot) -> Residual
        ensures { (spots : List Spot) → IsResidual spots self → IsResidual (spots ++ spot ∷ []) result }
    {
        Residual {
            most: Some(most_with(self.most, spot)),
            over: over_with(self.over, spot),
        }
    }
}

/// The first of greatest size, with one spot more behind those before it.
fn most_with(most: Option<Spot>, spot: Spot) -> Spot
    ensures { (spots : List Spot) → MatchOption most (spots ≡ []) (IsMost spots) → IsMost (spots ++ spot ∷ []) result }
{
    match most {
        Some(most) if !is_above(&spot, &most) => most,
        _ => spot,
    }
}

/// The first beyond its bound, with one spot more behind those before it.
fn over_with(over: Option<Spot>, spot: Spot) -> Option<Spot>
    ensures { (spots : List Spot) → over ≡ find exceeds spots → result ≡ find exceeds (spots ++ spot ∷ []) }
{
    match over {
        Some(over) => Some(over),
        None if exceeds(&spot) => Some(spot),
        None => None,
    }
}
