//! Laws of the definitions.

ghost use Rattle.std.specs.Prelude.{ℕ, List, ◌↔◌, IsTrue};
ghost use Rattle.scaled_decimal.specs.Decimal.{IsNumber};
ghost use Rattle.scaled_decimal.specs.Reading.{OneReading, OneSign, Reads, units_of, HasSign, sign_in, is_number_text};

/// Each text has one reading at each scale.
pub fn one_reading()
    ensures { OneReading }
{}

/// Each text has one sign, or one cause of having none.
pub fn one_sign()
    ensures { OneSign }
{}

/// What `units_of` gives is the reading of the text.
pub fn units_are_read()
    ensures { (places : ℕ) (bytes : List ℕ) → Reads places bytes (units_of places bytes) }
{}

/// What `sign_in` gives is the sign of the text's value, or the cause of having none.
pub fn signs_are_told()
    ensures { (bytes : List ℕ) → HasSign bytes (sign_in bytes) }
{}

/// What `is_number_text` tells is whether the text is a number.
pub fn numbers_are_told()
    ensures { (bytes : List ℕ) → IsTrue (is_number_text bytes) ↔ IsNumber bytes }
{}
