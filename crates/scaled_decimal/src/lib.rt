//! Reads decimals as whole numbers of units, exactly.
//!
//! A number is `[+ or -] (digits [. [digits]] | . digits) [(e or E) [+ or -] digits]`, or
//! `[+ or -]` followed by `Inf`, `inf`, `NaN` or `nan`. Digits are one or more ASCII digits.
//! Nothing here takes memory, and texts and exponents may have any length.
#![tactic(auto)]

ghost use Rattle.std.specs.Prelude.{◌≡◌, ◌≤◌, ◌↔◌, None, Some, IsTrue, MatchResult, IfErr, IfOk};
ghost use Rattle.scaled_decimal.specs.Decimal.{IsNumber};
ghost use Rattle.scaled_decimal.specs.Reading.{Reads, units_of, HasSign, sign_in, is_number_text, decimal_in, is_not_finite, fault_of_text};
ghost use Rattle.scaled_decimal.specs.View.{view, HasDigits};

pub use fraction_theory::Sign;

mod amount;
pub mod laws;
mod plain;
mod text;

use amount::{sign_of_parts, units};
use plain::plain_units;
use text::{Numeral, is_not_finite_text, parts_of};

/// Why a text has no number of units.
#[derive(Clone, Copy, PartialEq, Eq, Debug)]
pub enum DecimalFault {
    /// It is not a number.
    BadNumber,
    /// It is infinite, or no value.
    NotFinite,
    /// Its value is not a whole number of units.
    TooFine,
    /// Its value is a whole number of units of a size above `2^63 - 1`.
    OutOfRange,
}

/// The decimal that the bytes spell, or why they spell none.
fn decimal(bytes: &[u8]) -> Result<Numeral<'_>, DecimalFault>
    ensures parts { MatchResult result (λ found. decimal_in bytes.now ≡ Some (view found)) (λ _. decimal_in bytes.now ≡ None) }
    ensures fault { IfErr result (λ fault. fault ≡ fault_of_text (is_not_finite bytes.now)) }
    ensures digits { IfOk result (λ found. HasDigits (view found)) }
{
    match parts_of(bytes) {
        Some(found) => Ok(found),
        None if is_not_finite_text(bytes) => Err(DecimalFault::NotFinite),
        None => Err(DecimalFault::BadNumber),
    }
}

/// The same as `read`, whatever the text.
#[cold]
#[inline(never)]
fn cut_units(bytes: &[u8], places: u8) -> Result<i64, DecimalFault>
    requires { places ≤ 18 }
    ensures means { Reads places bytes.now result }
    ensures is { result ≡ units_of places bytes.now }
{
    let found = decimal(bytes)?;
    units(&found, places)
}

/// The number of units of `10^-places` that the decimal's value is.
pub fn read(bytes: &[u8], places: u8) -> Result<i64, DecimalFault>
    requires { places ≤ 18 }

    // By the decimal's value, or why it has no number of units.
    ensures means { Reads places bytes.now result }

    // The same as a function of the text.
    ensures is { result ≡ units_of places bytes.now }
{
    match plain_units(bytes, places) {
        Some(units) => Ok(units),
        None => cut_units(bytes, places),
    }
}

/// The sign of the decimal's value; only `BadNumber` and `NotFinite` come.
pub fn sign_of(bytes: &[u8]) -> Result<Sign, DecimalFault>
    ensures means { HasSign bytes.now result }
    ensures is { result ≡ sign_in bytes.now }
{
    let found = decimal(bytes)?;
    Ok(sign_of_parts(&found))
}

/// Whether the bytes are a number, finite or not.
pub fn is_number(bytes: &[u8]) -> bool
    ensures means { IsTrue result ↔ IsNumber bytes.now }
    ensures is { result ≡ is_number_text bytes.now }
{
    match parts_of(bytes) {
        Some(_) => true,
        None => is_not_finite_text(bytes),
    }
}
