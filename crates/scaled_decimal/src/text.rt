//! Cuts a text into the parts of a decimal.

ghost use Rattle.std.specs.Prelude.{◌≡◌, ◌+◌, drop, MatchOption, IfSome};
ghost use Rattle.std.specs.Char.{is_ascii_digit};
ghost use Rattle.std.specs.List.{position, position_or_len, list_all};
ghost use Rattle.scaled_decimal.specs.Decimal.{is_mark, is_point};
ghost use Rattle.scaled_decimal.specs.Reading.{is_negative, without_sign, is_not_finite, decimal_in, cut, has_mark, is_well_formed};
ghost use Rattle.scaled_decimal.specs.Plain.{IsSigned};
ghost use Rattle.scaled_decimal.specs.View.{view, HasDigits};

/// The parts of a decimal's text. The slices hold digits alone.
#[derive(Clone, Copy)]
pub struct Numeral<'a> {
    pub negative: bool,
    /// Digits before the point.
    pub whole: &'a [u8],
    /// Digits behind the point.
    pub part: &'a [u8],
    /// Whether the exponent is negative.
    pub exponent_negative: bool,
    /// Digits of the exponent.
    pub exponent: &'a [u8],
}

/// Whether a minus stands first, and what follows a sign.
pub(crate) fn behind_sign(bytes: &[u8]) -> (bool, &[u8])
    ensures negative { result.0 ≡ is_negative bytes.now }
    ensures rest { result.1.now ≡ without_sign bytes.now }
    ensures signed { IsSigned bytes.now result.0 result.1.now }
{
    match bytes {
        [b'-', rest @ ..] => (true, rest),
        [b'+', rest @ ..] => (false, rest),
        _ => (false, bytes),
    }
}

fn first_mark(bytes: &[u8]) -> Option<usize>
    ensures { result ≡ position is_mark bytes.now }
{
    bytes.iter().position(|byte| *byte == b'e' || *byte == b'E')
}

fn first_point(bytes: &[u8]) -> Option<usize>
    ensures { result ≡ position is_point bytes.now }
{
    bytes.iter().position(|byte| *byte == b'.')
}

/// The place of the exponent's mark, or the length.
#[tactic(auto, using(crate::proofs::CutLemmas::place_or_length))]
fn mark_place(bytes: &[u8]) -> usize
    ensures { result ≡ position_or_len is_mark bytes.now }
{
    first_mark(bytes).unwrap_or(bytes.len())
}

/// The place of the point, or the length.
#[tactic(auto, using(crate::proofs::CutLemmas::place_or_length))]
fn point_place(bytes: &[u8]) -> usize
    ensures { result ≡ position_or_len is_point bytes.now }
{
    first_point(bytes).unwrap_or(bytes.len())
}

/// What stands behind a place.
fn behind(bytes: &[u8], place: usize) -> &[u8]
    ensures { result.now ≡ drop (place + 1) bytes.now }
{
    if place < bytes.len() {
        &bytes[place + 1..]
    } else {
        &[]
    }
}

fn are_digits(bytes: &[u8]) -> bool
    ensures { result ≡ list_all is_ascii_digit bytes.now }
{
    bytes.iter().all(|byte| byte.is_ascii_digit())
}

/// The text cut at its sign, its mark and its point, and whether it has a mark.
fn cut_text(bytes: &[u8]) -> (Numeral<'_>, bool)
    ensures parts { view result.0 ≡ cut bytes.now }
    ensures marked { result.1 ≡ has_mark (without_sign bytes.now) }
{
    let (negative, body) = behind_sign(bytes);
    let mark = mark_place(body);
    let (exponent_negative, exponent) = behind_sign(behind(body, mark));
    let mantissa = &body[..mark];
    let point = point_place(mantissa);
    let whole = &mantissa[..point];
    let part = behind(mantissa, point);
    (
        Numeral {
            negative,
            whole,
            part,
            exponent_negative,
            exponent,
        },
        mark < body.len(),
    )
}

/// Whether the parts are digits, with one in the mantissa, and one behind a mark.
fn are_parts(found: &Numeral<'_>, marked: bool) -> bool
    ensures { result ≡ is_well_formed marked (view found.now) }
{
    let digits = are_digits(found.whole) && are_digits(found.part) && are_digits(found.exponent);
    let lacks_mantissa = found.whole.is_empty() && found.part.is_empty();
    let lacks_exponent = marked && found.exponent.is_empty();
    digits && !lacks_mantissa && !lacks_exponent
}

/// The parts of the decimal that the bytes spell.
#[tactic(auto, using(crate::proofs::CutLemmas::digits_if_well_formed), unfolding(crate::specs::Reading::decimal_in))]
pub fn parts_of(bytes: &[u8]) -> Option<Numeral<'_>>
    ensures parts { MatchOption result (decimal_in bytes.now ≡ None) (λ found. decimal_in bytes.now ≡ Some (view found)) }
    ensures digits { IfSome result (λ found. HasDigits (view found)) }
{
    let (found, marked) = cut_text(bytes);
    if are_parts(&found, marked) {
        Some(found)
    } else {
        None
    }
}

/// Whether the bytes are infinity or no value, with or without a sign.
pub fn is_not_finite_text(bytes: &[u8]) -> bool
    ensures { result ≡ is_not_finite bytes.now }
{
    let (_, word) = behind_sign(bytes);
    word == b"Inf".as_slice()
        || word == b"inf".as_slice()
        || word == b"NaN".as_slice()
        || word == b"nan".as_slice()
}
