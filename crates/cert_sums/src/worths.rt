//! What a MW of a unit is worth, as energy and as reserve.

ghost use Rattle.std.specs.Prelude.{◌≡◌, ◌<◌, length, Contains, IfOk, IfErr};
ghost use Rattle.fraction_theory.specs.Fraction.{Fraction, ◌-ℚ◌};
ghost use Rattle.exact_fraction.specs.declared.Op.TheVariants.{Minus};
ghost use Rattle.market_model.specs.declared.answered.Duals.{Duals};
ghost use Rattle.market_model.specs.declared.participants.Parts.{Parts};
ghost use Rattle.market_model.specs.NamedSums.{IsRefusal};
ghost use Rattle.market_model.specs.Optimality.{energy_worth, reserve_worth, room_price};
ghost use Rattle.market_model.specs.Reserves.{reserve_units};
ghost use Rattle.market_model.specs.SumTables.{IsRefusedAmong, WorthSum};
ghost use Rattle.market_model.specs.Valued.{passed_at};
ghost use Rattle.cert_sums.specs.Named.{AreNamed, AreNamedRooms, room_in};
ghost use Rattle.cert_sums.specs.Refusals.{IsWorthRefusal};

use crate::{NamedRow, unit_price};
use exact_fraction::{Exact, Passed, exact_difference};
use market_model::Market;

/// A unit that offers reserve, with the price that a certificate gives its room.
#[derive(Clone, Copy, Debug)]
pub struct NamedRoom<N> {
    /// The place of the unit.
    pub unit: usize,
    /// In 10^-6 per MWh, or a plain number where the duals show that nothing is feasible.
    pub price: N,
}

/// The price of a unit's room, where that is named.
fn room_price_in<N: Exact>(rooms: &[NamedRoom<N>], unit: usize) -> Option<N>
    ensures { result ≡ room_in rooms.now unit }
{
    for entry in rooms {
        if entry.unit == unit {
            return Some(entry.price);
        }
    }
    None
}

/// A price less that of a unit's room. A room that is not named takes nothing.
fn less_room<N: Exact>(price: N, rooms: &[NamedRoom<N>], unit: usize) -> Result<N, Passed<N>>
    ensures less { (m : Parts) (d : Duals Fraction) → unit < length m.units → AreNamedRooms N.value m d rooms.now → IfOk result (λ less. N.value less ≡ N.value price -ℚ room_price m d unit) }
    ensures stops { (m : Parts) (d : Duals Fraction) → unit < length m.units → AreNamedRooms N.value m d rooms.now → IfErr result (λ passed. Contains (reserve_units m) unit × IsRefusal Minus (N.value price) (room_price m d unit) N.bound (passed_at N.value passed)) }
{
    match room_price_in(rooms, unit) {
        Some(room) => exact_difference(price, room),
        None => Ok(price),
    }
}

/// What a MW of the energy of the unit at a place is worth: the unit's price less that of its room, in 10^-6 per MWh. The rows and the rooms
/// are those that some duals name, as the market has them in order; prices may have any sign.
pub fn energy_worth<N: Exact>(
    market: &Market,
    energy: N,
    named: &[NamedRow<N>],
    rooms: &[NamedRoom<N>],
    unit: usize,
) -> Result<N, Passed<N>>
    requires named { (d : Duals Fraction) × AreNamed N.value market.now d named.now }
    requires unit { unit < length market.now.units }
    ensures worth { (d : Duals Fraction) → N.value energy ≡ d.energy → AreNamed N.value market.now d named.now → AreNamedRooms N.value market.now d rooms.now → IfOk result (λ worth. N.value worth ≡ energy_worth market.now d unit) }
    ensures stops { (d : Duals Fraction) → N.value energy ≡ d.energy → AreNamed N.value market.now d named.now → AreNamedRooms N.value market.now d rooms.now → IfErr result (λ passed. IsWorthRefusal market.now d N.bound (passed_at N.value passed)) }
{
    let price = unit_price(market, energy, named, unit)?;
    less_room(price, rooms, unit)
}

/// What a MW of the reserve of the unit at a place is worth: the price of reserve less that of the unit's room.
pub fn reserve_worth<N: Exact>(
    reserve: N,
    rooms: &[NamedRoom<N>],
    unit: usize,
) -> Result<N, Passed<N>>
    ensures worth { (m : Parts) (d : Duals Fraction) → unit < length m.units → N.value reserve ≡ d.reserve → AreNamedRooms N.value m d rooms.now → IfOk result (λ worth. N.value worth ≡ reserve_worth m d unit) }
    ensures stops { (m : Parts) (d : Duals Fraction) → unit < length m.units → N.value reserve ≡ d.reserve → AreNamedRooms N.value m d rooms.now → IfErr result (λ passed. IsRefusedAmong (WorthSum m d) N.bound (passed_at N.value passed)) }
{
    less_room(reserve, rooms, unit)
}
