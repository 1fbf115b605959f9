//! Exact numbers, as factors are made of them.

ghost use Rattle.std.specs.Prelude.{◌≡◌, ◌<◌, ◌≤◌, ◌^◌, ◌<ℤ◌, pos, unsigned_abs};
ghost use Rattle.fraction_theory.specs.Fraction.{over, recip_ℚ, whole};
ghost use Rattle.fraction_theory.specs.Order.{◌≤ℚ◌};
ghost use Rattle.fraction_theory.specs.Signs.{abs_ℚ};
ghost use Rattle.exact_fraction.specs.Nearest.{IsNearest};
ghost use Rattle.market_data.specs.Scales.{most_scaled_reactance, place_count, scaled_reactance_places};

use exact_fraction::{Exact, Frac};
use market_data::FactorPlaces;

/// A reactance times a ratio of 1 as a datum, which is a number of 10^-18 (`SCALED_REACTANCE_PLACES`).
const SCALED_REACTANCE_ONE: u64 = 1_000_000_000_000_000_000;

/// Exact numbers that hold 1 over a reactance, and that are rounded to the places of a table.
pub(crate) trait FactorNumber: Exact {
    /// 1 over a reactance times a ratio, which is given as such a datum.
    fn one_over(reactance: i128) -> Self
        requires above { pos 0 <ℤ reactance }
        requires size { unsigned_abs reactance ≤ most_scaled_reactance }
        ensures { Self.value result ≡ recip_ℚ (over reactance (10 ^ scaled_reactance_places)) };

    /// The nearest number of units of the last place.
    fn units(self, places: FactorPlaces) -> i64
        requires size { abs_ℚ (Self.value self) ≤ℚ whole (pos 1) }
        ensures { IsNearest (place_count places) (Self.value self) result };
}

impl FactorNumber for Frac {
    fn one_over(reactance: i128) -> Frac {
        Frac::of_wide(reactance, SCALED_REACTANCE_ONE).recip()
    }

    fn units(self, places: FactorPlaces) -> i64 {
        self.nearest(places.count())
    }
}
