//! The members of an object.

ghost use Rattle.std.specs.Prelude.{◌≡◌, option_map};
ghost use Rattle.serde_json.specs.View.{view};
ghost use Rattle.cert_format.specs.Grammar.{has_size, number_at, size_of, text_at};

use serde_json::Value;

/// How many members an object has.
fn size_of(value: &Value) -> Option<usize>
    ensures { result ≡ size_of (view value.now) }
{
    match value.as_object() {
        Some(members) => Some(members.len()),
        None => None,
    }
}

pub(crate) fn has_size(value: &Value, size: usize) -> bool
    ensures { result ≡ has_size size (view value.now) }
{
    match size_of(value) {
        Some(count) => count == size,
        None => false,
    }
}

pub(crate) fn number_at(value: &Value, name: &str) -> Option<u64>
    ensures { result ≡ number_at name.now (view value.now) }
{
    value.get(name).and_then(Value::as_u64)
}

pub(crate) fn text_at<'v>(value: &'v Value, name: &str) -> Option<&'v str>
    ensures { option_map (λ s. s.now) result ≡ text_at name.now (view value.now) }
{
    value.get(name).and_then(Value::as_str)
}
