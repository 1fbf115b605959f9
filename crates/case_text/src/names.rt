//! Names, and the fields that a case has to set.

ghost use Rattle.std.specs.Prelude.{◌≡◌};
ghost use Rattle.std.specs.List.{list_all};
ghost use Rattle.case_text.specs.Names.{is_name_part, is_name_text, is_names_text, is_target, field_of, is_version_one, is_version_two, is_matrix, takes_number, takes_text, takes_bracket};

use crate::Field;
use crate::words::Bracket;

/// Whether a name may have the byte behind its first.
fn is_name_byte(byte: u8) -> bool
    ensures { result ≡ is_name_part byte }
{
    byte.is_ascii_alphanumeric() || byte == b'_'
}

fn are_name_bytes(bytes: &[u8]) -> bool
    ensures { result ≡ list_all is_name_part bytes.now }
{
    bytes.iter().all(|byte| is_name_byte(*byte))
}

/// Whether the bytes are a letter followed by letters, digits and `_`.
#[tactic(auto, unfolding(crate::specs::Names::is_name_text))]
pub fn is_name(bytes: &[u8]) -> bool
    ensures { result ≡ is_name_text bytes.now }
{
    match bytes {
        [first, rest @ ..] => first.is_ascii_alphabetic() && are_name_bytes(rest),
        [] => false,
    }
}

/// Whether the bytes are names, with a point between each and the next.
#[tactic(auto, unfolding(crate::specs::Names::is_names_text))]
fn are_names(bytes: &[u8]) -> bool
    ensures { result ≡ is_names_text bytes.now }
{
    bytes.split(|byte| *byte == b'.').all(is_name)
}

/// Whether the bytes are `mpc.` and names.
#[tactic(auto, unfolding(crate::specs::Names::is_target))]
pub fn is_target(bytes: &[u8]) -> bool
    ensures { result ≡ is_target bytes.now }
{
    match bytes.strip_prefix(b"mpc.") {
        Some(names) => are_names(names),
        None => false,
    }
}

/// The field that is set, where it is one that a case has to set.
#[tactic(auto, unfolding(crate::specs::Names::field_of))]
pub fn field_of(bytes: &[u8]) -> Option<Field>
    ensures { result ≡ field_of bytes.now }
{
    if bytes == b"mpc.version".as_slice() {
        Some(Field::Version)
    } else if bytes == b"mpc.baseMVA".as_slice() {
        Some(Field::BaseMva)
    } else if bytes == b"mpc.bus".as_slice() {
        Some(Field::Bus)
    } else if bytes == b"mpc.gen".as_slice() {
        Some(Field::Gen)
    } else if bytes == b"mpc.branch".as_slice() {
        Some(Field::Branch)
    } else {
        None
    }
}

/// Whether the bytes are the string `1`.
#[tactic(auto, unfolding(crate::specs::Names::is_version_one))]
pub fn is_version_one(bytes: &[u8]) -> bool
    ensures { result ≡ is_version_one bytes.now }
{
    bytes == b"'1'".as_slice() || bytes == b"\"1\"".as_slice()
}

/// Whether the bytes are the string `2`.
#[tactic(auto, unfolding(crate::specs::Names::is_version_two))]
fn is_version_two(bytes: &[u8]) -> bool
    ensures { result ≡ is_version_two bytes.now }
{
    bytes == b"'2'".as_slice() || bytes == b"\"2\"".as_slice()
}

pub fn takes_number(field: Option<Field>) -> bool
    ensures { result ≡ takes_number field }
{
    match field {
        None => true,
        Some(field) => field == Field::BaseMva,
    }
}

pub fn takes_text(field: Option<Field>, text: &[u8]) -> bool
    ensures { result ≡ takes_text field text.now }
{
    match field {
        None => true,
        Some(Field::Version) => is_version_one(text) || is_version_two(text),
        Some(_) => false,
    }
}

pub fn takes_bracket(field: Option<Field>, bracket: Bracket) -> bool
    ensures { result ≡ takes_bracket field bracket }
{
    match field {
        None => true,
        Some(field) => field.is_matrix() && bracket == Bracket::Square,
    }
}
