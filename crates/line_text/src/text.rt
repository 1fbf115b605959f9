//! A text in the making.

ghost use Rattle.std.specs.Prelude.{◌≡◌, ◌≤◌, ◌++◌, List, ℕ, [], decimal, IfOk};
ghost use Rattle.exact_fraction.specs.Written.{written, parts_text};

use exact_fraction::{Exact, MOST_TEXT};
use itoa::Buffer;
use plain_list::Memory;
use std::alloc::Global;
use std::marker::Model;

/// A text in the making.
#[derive(Drop)]
pub struct Text {
    bytes: Vec<u8>,
}

impl Model for Text {
    ghost Value = { List ℕ };

    ghost view = { λ text. text.bytes.items };
}

impl Text {
    /// The empty text.
    pub fn new(alloc: Global) -> Text
        ensures { result ≡ [] }
    {
        Text {
            bytes: Vec::new(alloc),
        }
    }

    /// The bytes of the whole text.
    pub fn into_bytes(self) -> Vec<u8>
        ensures { result.items ≡ self }
    {
        self.bytes
    }

    /// The bytes of a word.
    pub fn word(&mut self, word: &[u8]) -> Result<(), Memory>
        ensures { IfOk result (λ _. self.new ≡ self.old ++ word.now) }
    {
        match self.bytes.extend_from_slice(word) {
            Ok(()) => Ok(()),
            Err(_) => Err(Memory),
        }
    }

    /// The decimal digits of a number.
    pub fn number(&mut self, number: usize) -> Result<(), Memory>
        ensures { IfOk result (λ _. self.new ≡ self.old ++ decimal number) }
    {
        let mut digits = Buffer::new();
        self.word(digits.format(number).as_bytes())
    }

    /// A number as its numerator, `/` and its denominator, in lowest terms.
    pub fn parts<N: Exact>(&mut self, value: N) -> Result<(), Memory>
        ensures { IfOk result (λ _. self.new ≡ self.old ++ parts_text (N.value value)) }
    {
        let mut buffer = [0u8; MOST_TEXT];
        let end = value.write_parts(&mut buffer);
        self.word(&buffer[..end])
    }

    /// An exact number of units, of which `10^places` are a whole.
    pub fn exact<N: Exact>(&mut self, value: N, places: u8) -> Result<(), Memory>
        requires { places ≤ 15 }
        ensures { IfOk result (λ _. self.new ≡ self.old ++ written places (N.value value)) }
    {
        let mut buffer = [0u8; MOST_TEXT];
        let end = value.write_exact(places, &mut buffer);
        self.word(&buffer[..end])
    }

    /// A word and an exact number of units behind it.
    pub fn named<N: Exact>(&mut self, word: &[u8], value: N, places: u8) -> Result<(), Memory>
        requires { places ≤ 15 }
        ensures { IfOk result (λ _. self.new ≡ self.old ++ word.now ++ written places (N.value value)) }
    {
        self.word(word)?;
        self.exact(value, places)
    }
}
