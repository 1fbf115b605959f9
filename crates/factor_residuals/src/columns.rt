//! The columns of the tables of factors, and what their rounding explains.

ghost use Rattle.std.specs.Prelude.{◌≡◌, ◌≤◌, ◌*◌, ◌^◌, ℕ, pos, unsigned_abs};
ghost use Rattle.market_data.specs.Scales.{place_step};

use market_data::FactorPlaces;

/// A column of a table: one MW from the bus at a place to that at another, over the live branches, but for one that is lost.
#[derive(Clone, Copy)]
pub(crate) struct Flow {
    /// The number of the bus where it goes in, or the row of the lost branch.
    pub name: u32,
    pub lost: Option<u32>,
    pub source: usize,
    pub sink: usize,
}

/// Half a unit of the last place for each of so many, in a tenth of what factors are a number of.
pub(crate) fn rounding(places: FactorPlaces, count: i128) -> i128
    requires { unsigned_abs count ≤ 10 ^ 26 }
    ensures { (n : ℕ) → count ≡ pos n → result ≡ pos (5 * place_step places * n) }
{
    5 * i128::from(places.step()) * count
}
