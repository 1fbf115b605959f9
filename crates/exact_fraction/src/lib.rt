//! Exact fractions of whole numbers: operations that answer exactly or say that the bound of the type is passed.
#![tactic(auto)]

ghost use Rattle.std.specs.Prelude.{◌≡◌, ◌≢◌, ℕ, ◌<◌, ◌≤◌, ◌^◌, pos, unsigned_abs, length, take};

pub use divisor::{gcd_narrow, gcd_wide};
pub use fraction_theory::Sign;
pub use ratio::Ratio;
pub use sizes::size;
use std::cmp::Ordering;
pub use sums::{exact_difference, exact_sum};
pub use word::Word;

mod divisor;
pub mod laws;
mod ratio;
mod sizes;
mod sums;
pub mod text;
mod wide_sum;
mod word;

/// Fractions of numbers of 127 bits: the bound is 2^127 - 1.
pub type Frac = ratio::Ratio<i128>;

/// Fractions of numbers of 63 bits, the bound being 2^63 - 1, which meet it early.
pub type Frac63 = ratio::Ratio<i64>;

/// The most bytes that a text of a number of any of the types takes.
pub const MOST_TEXT: usize = 1024;

/// The three operations that may pass a bound.
#[derive(Clone, Copy, PartialEq, Eq, Debug)]
pub enum Op {
    Plus,
    Minus,
    Times,
}

/// An operation whose outcome passes the bound of its type, with its two sides.
#[derive(Clone, Copy, PartialEq, Eq, Debug)]
pub struct Passed<N> {
    pub left: N,
    pub right: N,
    pub op: Op,
}

/// Fractions in lowest terms whose numerators and denominators have a size of at most the type's bound.
/// No call takes memory, and only `plus`, `minus`, `times` and `plus_product` can pass the bound.
pub trait Exact: Copy {
    ghost use Rattle.fraction_theory.specs.Fraction.{Fraction, neg_ℚ, over, recip_ℚ, whole};
    ghost use Rattle.fraction_theory.specs.Order.{◌<ℚ◌};
    ghost use Rattle.fraction_theory.specs.Signs.{sign_of};
    ghost use Rattle.std.specs.Ordering.{MatchOrdering};
    ghost use Rattle.std.specs.Prelude.{◌↔◌, IfSome, IsTrue};
    ghost use Rattle.exact_fraction.specs.Floor.{IsFloor};
    ghost use Rattle.exact_fraction.specs.Passes.{IsExact, IsExactWith};
    ghost use Rattle.exact_fraction.specs.Written.{written, parts_text};

    /// The fraction that a number is, whatever its type.
    ghost value: { Self → Fraction };

    /// The greatest size of a numerator or a denominator.
    ghost bound: { ℕ };

    /// `num/den`, in lowest terms.
    fn of_parts(num: i64, den: u64) -> Self
        requires num { unsigned_abs num < 2 ^ 63 }
        requires den { (0 < den) × (den < 2 ^ 63) }
        ensures { value result ≡ over num den };

    /// The opposite, which never passes since the bound is that of sizes.
    fn neg(self) -> Self
        ensures { value result ≡ neg_ℚ (value self) };

    /// One over a number that is not 0.
    fn recip(self) -> Self
        requires { value self ≢ whole (pos 0) }
        ensures { value result ≡ recip_ℚ (value self) };

    /// Where the number stands against 0.
    fn sign(self) -> Sign
        ensures { result ≡ sign_of (value self) };

    /// The true order of the values. Nothing is multiplied, so nothing passes the bound.
    fn order(self, other: Self) -> Ordering
        ensures { MatchOrdering result (value self <ℚ value other) (value self ≡ value other) (value other <ℚ value self) };

    /// Whether the two numbers are one.
    fn is_same(self, other: Self) -> bool
        ensures { IsTrue result ↔ (value self ≡ value other) };

    /// The greatest whole number that is not above this one, where 64 bits hold it.
    fn floor(self) -> Option<i64>
        ensures { IfSome result (IsFloor (value self)) };

    /// The exact sum, or, exactly where it passes the bound over the least common denominator, the two sides.
    fn plus(self, other: Self) -> Result<Self, Passed<Self>>
        ensures { IsExact value bound Op.Plus self other result };

    /// The exact difference, or the two sides, where it passes as a sum does.
    fn minus(self, other: Self) -> Result<Self, Passed<Self>>
        ensures { IsExact value bound Op.Minus self other result };

    /// The exact product, or, exactly where it passes the bound in lowest terms, the two sides.
    fn times(self, other: Self) -> Result<Self, Passed<Self>>
        ensures { IsExact value bound Op.Times self other result };

    /// The exact sum of this number and `first * second`. Exactly where its value passes the bound in lowest terms, an operation on
    /// the way that passes, with its two sides: that product, or else the sum with it.
    fn plus_product(self, first: Self, second: Self) -> Result<Self, Passed<Self>>
        ensures { IsExactWith value bound self first second result };

    /// How many bytes hold each text of a number.
    ghost longest_text: { ℕ };

    /// Writes the value in units, of which `10^places` are a whole, and gives the length of the text.
    fn write_exact(self, places: u8, buf: &mut [u8]) -> usize
        requires places { places ≤ 15 }
        requires space { longest_text ≤ length buf.old }
        ensures within { result ≤ length buf.old }
        ensures text { take result buf.new ≡ written places (value self) };

    /// Writes `num/den` in lowest terms, and gives the length of the text.
    fn write_parts(self, buf: &mut [u8]) -> usize
        requires { longest_text ≤ length buf.old }
        ensures within { result ≤ length buf.old }
        ensures text { take result buf.new ≡ parts_text (value self) };

    /// The texts of each type have at most 1024 bytes.
    ghost text_fits: { longest_text ≤ 1024 };

    /// Every value is within the bound.
    ghost value_fits: { (x : Self) → (unsigned_abs (value x).num ≤ bound) × ((value x).den ≤ bound) };

    /// Numbers of one value are one.
    ghost value_apart: { (x y : Self) → value x ≡ value y → x ≡ y };
}
