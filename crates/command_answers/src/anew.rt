//! Which answers are made anew by wider numbers.

ghost use Rattle.std.specs.Prelude.{◌≡◌, ◌≢◌, ◌⊎◌, true, false};

use crate::status::Status;
use number_bits::NumberBits;

/// Whether what numbers of 127 bits come to, one of which became too large or none, is to be made anew as a whole by numbers of 1,023 bits: where
/// these are asked for and one did.
pub(crate) fn is_made_anew(bits: NumberBits, is_passed: bool) -> bool
    ensures anew { result ≡ true → (bits ≡ NumberBits.Bits1023) × (is_passed ≡ true) }
    ensures kept { result ≡ false → (bits ≡ NumberBits.Bits127) ⊎ (is_passed ≡ false) }
{
    bits == NumberBits::Bits1023 && is_passed
}

/// Whether one of two things is so.
pub(crate) fn is_either(one: bool, other: bool) -> bool
    ensures none { result ≡ false → (one ≡ false) × (other ≡ false) }
    ensures some { result ≡ true → (one ≡ true) ⊎ (other ≡ true) }
{
    one || other
}

/// Whether settling was refused, or what is told ends with numbers that became too large.
pub(crate) fn is_told_passed(is_refused: bool, status: Status) -> bool
    ensures none { result ≡ false → (is_refused ≡ false) × (status ≢ Status.Range) }
    ensures some { result ≡ true → (is_refused ≡ true) ⊎ (status ≡ Status.Range) }
{
    is_refused || status == Status::Range
}
