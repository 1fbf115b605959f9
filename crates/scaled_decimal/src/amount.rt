//! The number of units in a decimal.

ghost use Rattle.std.specs.Prelude.{◌≡◌, ℕ, ◌+◌, ◌*◌, ◌^◌, ◌<◌, ◌≤◌, ◌==◌, true, min, length};
ghost use Rattle.std.specs.Char.{is_ascii_digit, digit_value};
ghost use Rattle.std.specs.List.{AllPass};
ghost use Rattle.std.specs.Str.Parse.{digits_value, digits_value_after};
ghost use Rattle.scaled_decimal.specs.Decimal.{digits_number, with_sign};
ghost use Rattle.fraction_theory.specs.Signs.{sign_of_int};
ghost use Rattle.scaled_decimal.specs.Reading.{whole_number, units_in};
ghost use Rattle.scaled_decimal.specs.View.{view, HasDigits};
ghost use Rattle.scaled_decimal.specs.Amount.{IsSignificand, EndsInNoZero};

use crate::text::Numeral;
use crate::{DecimalFault, Sign};

/// The smallest size that is out of range.
const LIMIT: u64 = 1 << 63;

/// An exponent from here on is as good as endless: no text is long enough to make up for it.
const FAR: u128 = 1 << 100;

/// A number as `size * 10^zeros`, where the size ends in no zero and is cut off at the limit.
#[derive(Clone, Copy)]
struct Significand {
    size: u64,
    zeros: u64,
}

/// `size * 10^tens`, cut off at the limit.
fn raised(size: u64, tens: u128) -> u64
    requires { size ≤ 2 ^ 63 }
    ensures { result ≡ min (size * 10 ^ tens) (2 ^ 63) }
{
    let mut product = size;
    for _ in 0..tens.min(19) {
        product = product.saturating_mul(10).min(LIMIT);
    }
    product
}

/// The value of an ASCII digit.
fn digit_of(byte: u8) -> u8
    requires { is_ascii_digit byte ≡ true }
    ensures value { result ≡ digit_value byte }
    ensures below { result < 10 }
{
    byte - b'0'
}

/// The number with one more digit behind its own.
fn with_digit(front: Significand, digit: u64) -> Significand
    requires digit { digit < 10 }
    requires cut_off { front.size ≤ 2 ^ 63 }
    requires room { front.zeros + 1 < 2 ^ 64 }
    ensures number { (n : ℕ) → IsSignificand n front.size front.zeros → IsSignificand (n * 10 + digit) result.size result.zeros }
    ensures cut_off { result.size ≤ 2 ^ 63 }
    ensures zeros { result.zeros ≤ front.zeros + 1 }
{
    let zeros = front.zeros + 1;
    if digit == 0 {
        return Significand {
            size: front.size,
            zeros,
        };
    }
    let size = (raised(front.size, u128::from(zeros)) + digit).min(LIMIT);
    Significand { size, zeros: 0 }
}

/// The number with these digits behind its own.
fn with_digits(front: Significand, digits: &[u8]) -> Significand
    requires digits { AllPass is_ascii_digit digits.now }
    requires cut_off { front.size ≤ 2 ^ 63 }
    requires room { front.zeros + length digits.now < 2 ^ 64 }
    ensures number { (n : ℕ) → IsSignificand n front.size front.zeros → IsSignificand (digits_value_after 10 n digits.now) result.size result.zeros }
    ensures cut_off { result.size ≤ 2 ^ 63 }
    ensures zeros { result.zeros ≤ front.zeros + length digits.now }
{
    let mut seen = front;
    for byte in digits {
        seen = with_digit(seen, u64::from(digit_of(*byte)));
    }
    seen
}

fn significand_of(numeral: &Numeral<'_>) -> Significand
    requires { HasDigits (view numeral.now) }
    ensures number { IsSignificand (digits_number (view numeral.now)) result.size result.zeros }
    ensures cut_off { result.size ≤ 2 ^ 63 }
{
    let whole = with_digits(Significand { size: 0, zeros: 0 }, numeral.whole);
    with_digits(whole, numeral.part)
}

/// The number that the digits write, cut off where it is far.
fn exponent_size(digits: &[u8]) -> u128
    requires { AllPass is_ascii_digit digits.now }
    ensures { result ≡ min (digits_value 10 digits.now) (2 ^ 100) }
{
    let mut size = 0u128;
    for byte in digits {
        size = (size * 10 + u128::from(digit_of(*byte))).min(FAR);
    }
    size
}

/// The sign of the decimal's value.
pub fn sign_of_parts(numeral: &Numeral<'_>) -> Sign
    requires { HasDigits (view numeral.now) }
    ensures { result ≡ sign_of_int (with_sign numeral.now.negative (digits_number (view numeral.now))) }
{
    if significand_of(numeral).size == 0 {
        Sign::Zero
    } else if numeral.negative {
        Sign::Below
    } else {
        Sign::Above
    }
}

/// The number of units in `size * 10^above / 10^under`.
fn shifted(negative: bool, size: u64, above: u128, under: u128) -> Result<i64, DecimalFault>
    requires { size ≤ 2 ^ 63 }
    ensures { (exact : ℕ) → size ≡ min exact (2 ^ 63) → EndsInNoZero exact → result ≡ whole_number negative (exact * 10 ^ above) (10 ^ under) }
{
    if size == 0 {
        return Ok(0);
    }
    if above < under {
        return Err(DecimalFault::TooFine);
    }
    let size = raised(size, above - under);
    if size == LIMIT {
        return Err(DecimalFault::OutOfRange);
    }
    let number = size as i64;
    Ok(if negative { -number } else { number })
}

/// The number of units of `10^-places` in the decimal.
pub fn units(numeral: &Numeral<'_>, places: u8) -> Result<i64, DecimalFault>
    requires digits { HasDigits (view numeral.now) }
    requires scale { places ≤ 18 }
    ensures { result ≡ units_in places (view numeral.now) }
{
    let digits = significand_of(numeral);
    let shift = exponent_size(numeral.exponent);
    let above = u128::from(places) + u128::from(digits.zeros);
    let under = numeral.part.len() as u128;
    if numeral.exponent_negative {
        shifted(numeral.negative, digits.size, above, under + shift)
    } else {
        shifted(numeral.negative, digits.size, above + shift, under)
    }
}
