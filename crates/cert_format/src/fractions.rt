//! The fraction of a text `num/den`.

ghost use Rattle.std.specs.Prelude.{◌≡◌, ◌≢◌, ℕ, ◌≤◌, ◌-◌, pos, Some, option_map, IsTrue, ◌↔◌, position, cond, drop, unsigned_abs, if◌then◌else◌};
ghost use Rattle.std.specs.Char.{IsAsciiDigit};
ghost use Rattle.std.specs.Str.Parse.{starts_with_minus};
ghost use Rattle.fraction_theory.specs.Fraction.{Fraction, neg_ℚ, whole};
ghost use Rattle.exact_fraction.specs.Written.{number_text, parts_text};
ghost use Rattle.cert_format.specs.Certificates.{Fits};
ghost use Rattle.cert_format.specs.FractionTexts.{Spells, fraction_of_text, is_slash, without_sign};

use exact_fraction::{Exact, MOST_TEXT, Sign};

/// The number of a decimal digit.
fn digit<N: Exact>(byte: u8) -> N
    requires { IsAsciiDigit byte }
    ensures { N.value result ≡ whole (pos (byte - 48)) }
{
    N::of_parts(i64::from(byte - b'0'), 1)
}

/// The number of these decimal digits, where it is within the bound of its type. Of any other text it may give any number.
fn number<N: Exact>(digits: &[u8]) -> Option<N>
    ensures { (n : ℕ) → n ≤ N.bound → digits.now ≡ number_text n → option_map N.value result ≡ Some (whole (pos n)) }
{
    let ten = N::of_parts(10, 1);
    let mut number = N::of_parts(0, 1);
    for byte in digits {
        if !byte.is_ascii_digit() {
            return None;
        }
        let Ok(shifted) = number.times(ten) else {
            return None;
        };
        let Ok(next) = shifted.plus(digit(*byte)) else {
            return None;
        };
        number = next;
    }
    Some(number)
}

/// Whether `-` stands first, and what stands behind it.
fn behind_sign(text: &[u8]) -> (bool, &[u8])
    ensures below { result.0 ≡ starts_with_minus text.now }
    ensures rest { result.1.now ≡ drop (cond (starts_with_minus text.now) 1 0) text.now }
{
    match text {
        [b'-', rest @ ..] => (true, rest),
        _ => (false, text),
    }
}

/// The place of the first `/`.
fn slash(text: &[u8]) -> Option<usize>
    ensures { result ≡ position is_slash text.now }
{
    text.iter().position(|byte| *byte == b'/')
}

/// Numerator over denominator, where these are the sizes of the parts of a fraction within the bound.
fn ratio<N: Exact>(num: N, den: N) -> Option<N>
    ensures { (x : Fraction) → Fits N.bound x → N.value num ≡ whole (pos (unsigned_abs x.num)) → N.value den ≡ whole (pos x.den)
        → option_map N.value result ≡ Some (without_sign x) }
{
    match den.sign() {
        Sign::Zero => None,
        Sign::Below | Sign::Above => match num.times(den.recip()) {
            Ok(ratio) => Some(ratio),
            Err(_) => None,
        },
    }
}

fn signed<N: Exact>(below: bool, size: N) -> N
    ensures { N.value result ≡ (if below then neg_ℚ (N.value size) else N.value size) }
{
    if below { size.neg() } else { size }
}

/// The fraction that a text spells, where its parts are within the bound. Of any other text it may give any fraction.
fn quotient<N: Exact>(text: &[u8]) -> Option<N>
    ensures { (x : Fraction) → Spells N.bound text.now x → option_map N.value result ≡ Some x }
{
    let place = slash(text)?;
    let (below, digits) = behind_sign(&text[..place]);
    let num = number::<N>(digits)?;
    let den = number::<N>(&text[place + 1..])?;
    let size = ratio(num, den)?;
    Some(signed(below, size))
}

/// Whether a text is the one spelling of a number.
fn is_spelling<N: Exact>(text: &[u8], number: N) -> bool
    ensures { IsTrue result ↔ (text.now ≡ parts_text (N.value number)) }
{
    let mut buffer = [0u8; MOST_TEXT];
    let end = number.write_parts(&mut buffer);
    &buffer[..end] == text
}

/// The fraction that a text spells as `num/den` in lowest terms, where its parts are within the bound of the type.
pub(crate) fn fraction<N: Exact>(text: &[u8]) -> Option<N>
    ensures { option_map N.value result ≡ fraction_of_text N.bound text.now }
{
    let number = quotient::<N>(text)?;
    if is_spelling(text, number) {
        Some(number)
    } else {
        None
    }
}
