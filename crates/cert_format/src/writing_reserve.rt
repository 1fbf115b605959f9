//! The text of what a certificate tells of reserve.

ghost use Rattle.std.specs.Prelude.{◌≡◌, ◌<◌, ◌^◌, [], IfOk, OnOk, All, map, option_map};
ghost use Rattle.serde_json.specs.Data.{object};
ghost use Rattle.serde_json.specs.View.{members_view, view};
ghost use Rattle.market_model.specs.Valued.{room_dual_at};
ghost use Rattle.cert_format.specs.Certificates.{cleared_reserve_at, cleared_reserve_of, if_listed, reserve_duals_at, reserve_duals_of, rooms_among};
ghost use Rattle.cert_format.specs.Written.{cleared_reserve_data, reserve_duals_data, room_data, rooms_data};

use crate::object::{Members, put_fraction, put_number};
use crate::writing::fractions_value;
use crate::{ClearedReserve, ReserveDuals};
use exact_fraction::Exact;
use market_model::{Answer, Duals, List, RoomDual};
use serde_json::{Value, put};
use std::alloc::{AllocError, Global};

/// The price of a unit's room.
fn room_value<N: Exact>(alloc: Global, dual: &RoomDual<N>) -> Result<Value, AllocError>
    ensures value { IfOk result (λ v. view v ≡ room_data (room_dual_at N.value dual.now)) }
    ensures unit { OnOk result (dual.now.unit < 2 ^ 32) }
{
    let unit = dual.unit;
    let mut members = Members::new(alloc);
    put_number(alloc, &mut members, "unit", unit)?;
    put_fraction(alloc, &mut members, "dual", dual.price)?;
    Ok(Value::Object(members))
}

fn rooms_value<N: Exact>(alloc: Global, rooms: &List<RoomDual<N>>) -> Result<Value, AllocError>
    ensures value { IfOk result (λ v. view v ≡ rooms_data (map (room_dual_at N.value) rooms.now)) }
    ensures units { OnOk result (All (λ d. d.unit < 2 ^ 32) rooms.now) }
{
    let mut values = Vec::new(alloc);
    for dual in rooms.slice() {
        values.push(room_value(alloc, dual)?)?;
    }
    Ok(Value::Array(values))
}

/// Puts the prices of reserve and of rooms into an object that has no members.
fn put_duals<N: Exact>(
    alloc: Global,
    members: &mut Members,
    price: N,
    rooms: &List<RoomDual<N>>,
) -> Result<(), AllocError>
    requires { members.old.entries ≡ [] }
    ensures value { OnOk result (object (members_view members.new.entries) ≡ reserve_duals_data (reserve_duals_at N.value (record { price = price; rooms = rooms.now }))) }
    ensures units { OnOk result (All (λ d. d.unit < 2 ^ 32) rooms.now) }
{
    put(members, alloc, "units", rooms_value(alloc, rooms)?)?;
    put_fraction(alloc, members, "price", price)
}

fn duals_value<N: Exact>(
    alloc: Global,
    price: N,
    rooms: &List<RoomDual<N>>,
) -> Result<Value, AllocError>
    ensures value { IfOk result (λ v. view v ≡ reserve_duals_data (reserve_duals_at N.value (record { price = price; rooms = rooms.now }))) }
    ensures units { OnOk result (All (λ d. d.unit < 2 ^ 32) rooms.now) }
{
    let mut members = Members::new(alloc);
    put_duals(alloc, &mut members, price, rooms)?;
    Ok(Value::Object(members))
}

/// The same with what is accepted of each offer.
fn cleared_value<N: Exact>(
    alloc: Global,
    quantities: &List<N>,
    price: N,
    rooms: &List<RoomDual<N>>,
) -> Result<Value, AllocError>
    ensures value { IfOk result (λ v. view v ≡ cleared_reserve_data (cleared_reserve_at N.value (record { quantities = quantities.now; duals = record { price = price; rooms = rooms.now } }))) }
    ensures units { OnOk result (All (λ d. d.unit < 2 ^ 32) rooms.now) }
{
    let mut members = Members::new(alloc);
    put_duals(alloc, &mut members, price, rooms)?;
    let quantities = fractions_value(alloc, quantities)?;
    put(&mut members, alloc, "quantities", quantities)?;
    Ok(Value::Object(members))
}

/// The part of an optimal certificate, where it has one.
pub(crate) fn cleared_part<N: Exact>(
    alloc: Global,
    reserve: &Option<ClearedReserve<N>>,
) -> Result<Option<Value>, AllocError>
    ensures value { IfOk result (λ v. option_map view v ≡ option_map cleared_reserve_data (option_map (cleared_reserve_at N.value) reserve.now)) }
    ensures units { OnOk result (All (λ d. d.unit < 2 ^ 32) (rooms_among (option_map (λ r. r.duals) reserve.now))) }
{
    match reserve {
        None => Ok(None),
        Some(cleared) => {
            let duals = &cleared.duals;
            Ok(Some(cleared_value(alloc, &cleared.quantities, duals.price, &duals.rooms)?))
        }
    }
}

/// The part of a certificate that no dispatch is feasible, where it has one.
pub(crate) fn duals_part<N: Exact>(
    alloc: Global,
    reserve: &Option<ReserveDuals<N>>,
) -> Result<Option<Value>, AllocError>
    ensures value { IfOk result (λ v. option_map view v ≡ option_map reserve_duals_data (option_map (reserve_duals_at N.value) reserve.now)) }
    ensures units { OnOk result (All (λ d. d.unit < 2 ^ 32) (rooms_among reserve.now)) }
{
    match reserve {
        None => Ok(None),
        Some(duals) => Ok(Some(duals_value(alloc, duals.price, &duals.rooms)?)),
    }
}

/// What an answer tells of reserve, where that was listed.
pub(crate) fn answer_part<N: Exact>(
    alloc: Global,
    listed: bool,
    answer: &Answer<N>,
) -> Result<Option<Value>, AllocError>
    ensures value { IfOk result (λ v. option_map view v ≡ option_map cleared_reserve_data (option_map (cleared_reserve_at N.value) (if_listed listed (cleared_reserve_of answer.now)))) }
    ensures units { OnOk result (All (λ d. d.unit < 2 ^ 32) (rooms_among (option_map (λ r. r.duals) (if_listed listed (cleared_reserve_of answer.now))))) }
{
    if !listed {
        return Ok(None);
    }
    let duals = &answer.duals;
    Ok(Some(cleared_value(alloc, &answer.reserve, duals.reserve, &duals.rooms)?))
}

/// What duals tell of reserve, where that was listed.
pub(crate) fn farkas_part<N: Exact>(
    alloc: Global,
    listed: bool,
    duals: &Duals<N>,
) -> Result<Option<Value>, AllocError>
    ensures value { IfOk result (λ v. option_map view v ≡ option_map reserve_duals_data (option_map (reserve_duals_at N.value) (if_listed listed (reserve_duals_of duals.now)))) }
    ensures units { OnOk result (All (λ d. d.unit < 2 ^ 32) (rooms_among (if_listed listed (reserve_duals_of duals.now)))) }
{
    if !listed {
        return Ok(None);
    }
    Ok(Some(duals_value(alloc, duals.reserve, &duals.rooms)?))
}
