//! Plain decimals in one pass: a sign, digits, and a point among them, as nearly all cells of tables are.

ghost use Rattle.std.specs.Prelude.{◌≡◌, ℕ, ◌≤◌, ◌<◌, ◌+◌, ◌-◌, ◌*◌, ◌^◌, IfSome, Ok, length, take};
ghost use Rattle.std.specs.Char.{is_ascii_digit};
ghost use Rattle.std.specs.List.{AllPass};
ghost use Rattle.std.specs.Str.Parse.{digits_value_after};
ghost use Rattle.scaled_decimal.specs.Reading.{Reads, units_of, in_range};
ghost use Rattle.scaled_decimal.specs.Plain.{IsPlain};

use crate::text::behind_sign;

/// The longest text behind a sign that is told: its digits are a `u64`.
const MOST: usize = 19;

/// The most digits of a size that is told: all such sizes are in range.
const MOST_DIGITS: usize = 18;

/// The powers of ten from 1 on.
const TENS: [u64; 19] = [
    1,
    10,
    100,
    1_000,
    10_000,
    100_000,
    1_000_000,
    10_000_000,
    100_000_000,
    1_000_000_000,
    10_000_000_000,
    100_000_000_000,
    1_000_000_000_000,
    10_000_000_000_000,
    100_000_000_000_000,
    1_000_000_000_000_000,
    10_000_000_000_000_000,
    100_000_000_000_000_000,
    1_000_000_000_000_000_000,
];

/// The number that the digits at the start of the text write behind those of `front`, and how many they are.
fn digits_run(bytes: &[u8], front: u64) -> (u64, usize)
    requires room { length bytes.now ≤ 19 }
    requires low { front < 10 ^ (19 - length bytes.now) }
    ensures count { result.1 ≤ length bytes.now }
    ensures digits { AllPass is_ascii_digit (take result.1 bytes.now) }
    ensures number { result.0 ≡ digits_value_after 10 front (take result.1 bytes.now) }
    ensures low { result.0 < 10 ^ (19 - length bytes.now + result.1) }
    ensures size { (k : ℕ) → front < 10 ^ k → result.0 < 10 ^ (k + result.1) }
{
    let mut number = front;
    let mut count = 0;
    for byte in bytes {
        // Bytes before `0` wrap round to numbers far above 9.
        let digit = u64::from(*byte).wrapping_sub(48);
        if digit > 9 {
            return (number, count);
        }
        number = number * 10 + digit;
        count += 1;
    }
    (number, count)
}

/// The digits of a plain decimal.
#[derive(Clone, Copy)]
struct Digits {
    /// The number that they write.
    number: u64,
    /// How many stand before the point.
    whole: usize,
    /// How many stand behind it.
    behind: usize,
}

/// The digits of a plain decimal's text behind its sign.
fn plain_digits(body: &[u8]) -> Option<Digits>
    ensures plain { IfSome result (λ found. IsPlain body.now found.number found.behind) }
    ensures size { IfSome result (λ found. found.number < 10 ^ (found.whole + found.behind)) }
{
    if body.len() > MOST {
        return None;
    }
    let (front, whole) = digits_run(body, 0);
    match &body[whole..] {
        [] if 0 < whole && whole < MOST => Some(Digits {
            number: front,
            whole,
            behind: 0,
        }),
        [b'.', part @ ..] if body.len() > 1 => {
            let (number, behind) = digits_run(part, front);
            if behind == part.len() {
                Some(Digits {
                    number,
                    whole,
                    behind,
                })
            } else {
                None
            }
        }
        _ => None,
    }
}

fn ten_to(tens: usize) -> u64
    requires { tens ≤ 18 }
    ensures { result ≡ 10 ^ tens }
{
    TENS[tens]
}

/// `number * 10^tens`, where the number has so few digits that it is in range.
fn raised(number: u64, tens: usize) -> u64
    requires tens { tens ≤ 18 }
    requires few { number < 10 ^ (18 - tens) }
    ensures is { result ≡ number * 10 ^ tens }
    ensures size { result < 2 ^ 63 }
{
    number * ten_to(tens)
}

/// A size with a sign.
fn signed(negative: bool, size: u64) -> i64
    requires { size < 2 ^ 63 }
    ensures { in_range negative size ≡ Ok result }
{
    let size = size as i64;
    if negative { -size } else { size }
}

/// The units of `10^-places` that a plain decimal is; none where the text is not plain, is too fine, or has so many digits that they
/// may be out of range.
pub fn plain_units(bytes: &[u8], places: u8) -> Option<i64>
    requires { places ≤ 18 }

    // By the decimal's value.
    ensures means { IfSome result (λ units. Reads places bytes.now (Ok units)) }

    // The same as a function of the text.
    ensures is { IfSome result (λ units. units_of places bytes.now ≡ Ok units) }
{
    let (negative, body) = behind_sign(bytes);
    let found = plain_digits(body)?;
    let places = usize::from(places);
    if found.behind > places || found.whole > MOST_DIGITS - places {
        return None;
    }
    let size = raised(found.number, places - found.behind);
    Some(signed(negative, size))
}
