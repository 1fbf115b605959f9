//! Reading what a certificate tells of reserve.

ghost use Rattle.std.specs.Prelude.{◌≡◌, Ok, map, option_map};
ghost use Rattle.serde_json.specs.View.{items_view, view};
ghost use Rattle.market_model.specs.Valued.{room_dual_at};
ghost use Rattle.cert_format.specs.declared.certificate.Key.TheVariants as key;
ghost use Rattle.cert_format.specs.Certificates.{cleared_reserve_at, reserve_duals_at};
ghost use Rattle.cert_format.specs.Grammar.{Gives, cleared_reserve_in, each, need, reserve_duals_in, reserve_in, room_dual_in, rooms_at};

use crate::forms::Version;
use crate::members::has_size;
use crate::reading::{fraction_at, fractions_at, row_at};
use crate::{CertFault, ClearedReserve, Key, ReserveDuals};
use exact_fraction::Exact;
use market_model::{List, RoomDual};
use serde_json::Value;
use std::alloc::Global;

/// The price of a unit's room.
fn room_dual_in<N: Exact>(value: &Value) -> Option<RoomDual<N>>
    ensures { option_map (room_dual_at N.value) result ≡ room_dual_in N.bound (view value.now) }
{
    let price = fraction_at(value, "dual")?;
    let unit = row_at(value, "unit")?;
    if !has_size(value, 2) {
        return None;
    }
    Some(RoomDual { unit, price })
}

fn rooms_of<N: Exact>(alloc: Global, values: &[Value]) -> Result<List<RoomDual<N>>, CertFault>
    ensures { Gives (map (room_dual_at N.value)) result (need key.Reserve (each (room_dual_in N.bound) (items_view values.now)) Ok) }
{
    let mut rooms = List::new(alloc);
    for value in values {
        let Some(room) = room_dual_in(value) else {
            return Err(CertFault::Key { key: Key::Reserve });
        };
        rooms.push(room)?;
    }
    Ok(rooms)
}

fn rooms_at<N: Exact>(alloc: Global, value: &Value) -> Result<List<RoomDual<N>>, CertFault>
    ensures { Gives (map (room_dual_at N.value)) result (need key.Reserve (rooms_at N.bound (view value.now)) Ok) }
{
    match value.get("units").and_then(Value::as_array) {
        Some(values) => rooms_of(alloc, values.as_slice()),
        None => Err(CertFault::Key { key: Key::Reserve }),
    }
}

/// The prices of an object of so many members.
fn reserve_duals_in<N: Exact>(
    alloc: Global,
    size: usize,
    value: &Value,
) -> Result<ReserveDuals<N>, CertFault>
    ensures { Gives (reserve_duals_at N.value) result (need key.Reserve (reserve_duals_in size N.bound (view value.now)) Ok) }
{
    let Some(price) = fraction_at(value, "price") else {
        return Err(CertFault::Key { key: Key::Reserve });
    };
    let rooms = rooms_at(alloc, value)?;
    if !has_size(value, size) {
        return Err(CertFault::Key { key: Key::Reserve });
    }
    Ok(ReserveDuals { price, rooms })
}

fn cleared_reserve_in<N: Exact>(
    alloc: Global,
    value: &Value,
) -> Result<ClearedReserve<N>, CertFault>
    ensures { Gives (cleared_reserve_at N.value) result (need key.Reserve (cleared_reserve_in N.bound (view value.now)) Ok) }
{
    let quantities = fractions_at(alloc, Key::Reserve, value, "quantities")?;
    let duals = reserve_duals_in(alloc, 3, value)?;
    Ok(ClearedReserve { quantities, duals })
}

/// The reserve of a best dispatch, in a text of any version: the first two have none.
pub(crate) fn cleared_reserve<N: Exact>(
    alloc: Global,
    version: Version,
    value: &Value,
) -> Result<Option<ClearedReserve<N>>, CertFault>
    ensures { Gives (option_map (cleared_reserve_at N.value)) result (need key.Reserve (reserve_in (cleared_reserve_in N.bound) version (view value.now)) Ok) }
{
    match version {
        Version::First | Version::Second => Ok(None),
        Version::Third => match value.get("reserve") {
            Some(reserve) => Ok(Some(cleared_reserve_in(alloc, reserve)?)),
            None => Err(CertFault::Key { key: Key::Reserve }),
        },
    }
}

/// The prices of reserve and of rooms that show, with others, that no dispatch is feasible.
pub(crate) fn reserve_duals<N: Exact>(
    alloc: Global,
    version: Version,
    value: &Value,
) -> Result<Option<ReserveDuals<N>>, CertFault>
    ensures { Gives (option_map (reserve_duals_at N.value)) result (need key.Reserve (reserve_in (reserve_duals_in 2 N.bound) version (view value.now)) Ok) }
{
    match version {
        Version::First | Version::Second => Ok(None),
        Version::Third => match value.get("reserve") {
            Some(reserve) => Ok(Some(reserve_duals_in(alloc, 2, reserve)?)),
            None => Err(CertFault::Key { key: Key::Reserve }),
        },
    }
}
