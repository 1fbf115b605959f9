//! Whole numbers of small units as decimals.

ghost use Rattle.std.specs.Prelude.{◌≡◌, ◌≤◌, ◌<◌, ◌++◌, ◌^◌, unsigned_abs, IfOk};
ghost use Rattle.exact_fraction.specs.Written.{number_text, last_digits, trimmed_places, sign_text};
ghost use Rattle.line_text.specs.Decimals.{decimal_text};

use crate::text::Text;
use itoa::Buffer;
use plain_list::Memory;

/// The last so many digits of a number.
#[tactic(auto, using(std::proofs::Common::append_assoc))]
fn put_last(text: &mut Text, count: u8, number: u128) -> Result<(), Memory>
    ensures { IfOk result (λ _. text.new ≡ text.old ++ last_digits count number) }
{
    if count == 0 {
        return Ok(());
    }
    put_last(text, count - 1, number / 10)?;
    text.word([b'0' + (number % 10) as u8].as_slice())
}

/// A point and so many places, without the zeros at their end.
#[tactic(auto, using(std::proofs::Common::append_assoc))]
fn put_places(text: &mut Text, count: u8, number: u128) -> Result<(), Memory>
    ensures { IfOk result (λ _. text.new ≡ text.old ++ trimmed_places count number) }
{
    if count == 0 {
        return Ok(());
    }
    if number % 10 == 0 {
        put_places(text, count - 1, number / 10)
    } else {
        text.word(b".")?;
        put_last(text, count, number)
    }
}

/// The digits of a number.
#[tactic(auto, using(exact_fraction::proofs::Digits::decimal_short))]
fn put_whole(text: &mut Text, number: u128) -> Result<(), Memory>
    ensures { IfOk result (λ _. text.new ≡ text.old ++ number_text number) }
{
    let mut digits = Buffer::new();
    text.word(digits.format(number).as_bytes())
}

impl Text {
    /// A whole number of units, of which `10^places` are a whole.
    #[tactic(auto, using(std::proofs::Common::append_assoc), unfolding(crate::specs::Decimals::decimal_text))]
    pub fn decimal(&mut self, number: i128, places: u8) -> Result<(), Memory>
        requires { places ≤ 28 }
        ensures { IfOk result (λ _. self.new ≡ self.old ++ decimal_text places number) }
    {
        let size = number.unsigned_abs();
        let unit = 10u128.pow(places as u32);
        if number < 0 {
            self.word(b"-")?;
        }
        put_whole(self, size / unit)?;
        put_places(self, places, size % unit)
    }
}
