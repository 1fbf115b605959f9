//! Objects that are made member after member. Who makes one lends it, and owns nothing else where a member is refused.

ghost use Rattle.std.specs.Prelude.{◌≡◌, OnOk};
ghost use Rattle.serde_json.specs.Data.{number, put as with_member, unsigned};
ghost use Rattle.serde_json.specs.View.{members_view};
ghost use Rattle.cert_format.specs.Written.{fraction_data};

use crate::writing::fraction_value;
use exact_fraction::Exact;
use serde_json::{Map, Value, put};
use std::alloc::{AllocError, Global};

/// The members of an object by their names.
pub(crate) type Members = Map<String, Value>;

pub(crate) fn put_fraction<N: Exact>(
    alloc: Global,
    members: &mut Members,
    name: &str,
    value: N,
) -> Result<(), AllocError>
    ensures { OnOk result (members_view members.new.entries ≡ with_member name.now (fraction_data (N.value value)) (members_view members.old.entries)) }
{
    put(members, alloc, name, fraction_value(alloc, value)?)
}

pub(crate) fn put_number(
    alloc: Global,
    members: &mut Members,
    name: &str,
    value: u32,
) -> Result<(), AllocError>
    ensures { OnOk result (members_view members.new.entries ≡ with_member name.now (number (unsigned value)) (members_view members.old.entries)) }
{
    put(members, alloc, name, Value::from(value))
}
