//! Listing outages of units.

ghost use Rattle.std.specs.Prelude.{◌≡◌, ◌≢◌, ℕ, ◌≤◌, ◌==◌, length, map, position, All, Ok, Err, IfOk};
ghost use Rattle.std.specs.List.{find};
ghost use Rattle.market_data.specs.Scales.{most_pickups};
ghost use Rattle.market_model.specs.Market.{AreUnitOutages};
ghost use Rattle.outage_list.specs.PickupRecords.{IsUnitPickup};
ghost use Rattle.outage_list.specs.UnitListing.{PicksUpAll, is_uneven, listed_by, lost_units, lost_place, pickup_of, gen_row_at, share_in, share_sum, unit_outages_of, with_unit};

use crate::UnitOutageFault;
use crate::pickup_records::{UnitPickup, unit_pickups_of};
use csv_table::read_table;
use market_data::{MOST_PICKUPS, SHARE_ONE};
use market_model::Pickup;
use net_case::Network;
use plain_list::{List, Memory};
use std::alloc::Global;

/// The header of the table of outages of units.
pub const UNIT_OUTAGE_HEADER: &[&str] = &["unit", "taker", "share"];

/// The outages of units that a market is to stand, and what is picked up at each.
#[derive(Drop, Debug)]
pub struct UnitOutages {
    /// The place among the live units of the unit that each outage loses, in the order in which the records name these first.
    pub lost: List<usize>,
    /// What other units pick up then, in the order of the records. The shares of each outage sum to 1.
    pub pickups: List<Pickup>,
}

/// Adds a unit that is not there.
fn add_unit(units: &mut List<usize>, unit: usize) -> Result<(), Memory>
    ensures { IfOk result (λ _. units.new ≡ with_unit units.old unit) }
{
    if units.slice().contains(&unit) {
        return Ok(());
    }
    units.push(unit)
}

/// The units that records lose, each once, in the order in which it is lost first.
fn lost_units(alloc: Global, unit_pickups: &[UnitPickup]) -> Result<List<usize>, Memory>
    ensures { IfOk result (λ units. units ≡ lost_units unit_pickups.now) }
{
    let mut units = List::new(alloc);
    for unit_pickup in unit_pickups {
        add_unit(&mut units, unit_pickup.lost)?;
    }
    Ok(units)
}

/// What is picked up of a unit's output in a record.
fn share_in(lost: usize, unit_pickup: UnitPickup) -> i64
    ensures { result ≡ share_in lost unit_pickup }
{
    if unit_pickup.lost == lost {
        unit_pickup.share
    } else {
        0
    }
}

/// The sum of the shares of what is picked up of a unit's output.
fn share_sum(unit_pickups: &[UnitPickup], lost: usize) -> i64
    requires few { length unit_pickups.now ≤ most_pickups }
    requires kept { (units : ℕ) × All (IsUnitPickup units) unit_pickups.now }
    ensures { result ≡ share_sum unit_pickups.now lost }
{
    let mut sum = 0;
    for unit_pickup in unit_pickups {
        sum += share_in(lost, *unit_pickup);
    }
    sum
}

/// Whether those shares are not all of the output.
fn is_uneven(unit_pickups: &[UnitPickup], lost: usize) -> bool
    requires few { length unit_pickups.now ≤ most_pickups }
    requires kept { (units : ℕ) × All (IsUnitPickup units) unit_pickups.now }
    ensures { result ≡ is_uneven unit_pickups.now lost }
{
    share_sum(unit_pickups, lost) != SHARE_ONE as i64
}

/// The first of these units whose shares are not all of its output.
fn uneven(unit_pickups: &[UnitPickup], units: &[usize]) -> Option<usize>
    requires few { length unit_pickups.now ≤ most_pickups }
    requires kept { (count : ℕ) × All (IsUnitPickup count) unit_pickups.now }
    ensures { result ≡ find (is_uneven unit_pickups.now) units.now }
{
    for unit in units {
        if is_uneven(unit_pickups, *unit) {
            return Some(*unit);
        }
    }
    None
}

/// The first place at which a unit stands.
fn place_in(units: &[usize], unit: usize) -> Option<usize>
    ensures { result ≡ position (λ other. other == unit) units.now }
{
    units.iter().position(|other| *other == unit)
}

/// The place of a unit among those that are lost.
fn lost_place(lost: &[usize], unit: usize) -> usize
    ensures { result ≡ lost_place lost.now unit }
{
    match place_in(lost, unit) {
        Some(place) => place,
        None => 0,
    }
}

/// A record, by the place of its outage.
fn pickup_of(lost: &[usize], unit_pickup: UnitPickup) -> Pickup
    ensures { result ≡ pickup_of lost.now unit_pickup }
{
    Pickup {
        outage: lost_place(lost, unit_pickup.lost),
        taker: unit_pickup.taker,
        share: unit_pickup.share,
    }
}

fn pickups_of(
    alloc: Global,
    lost: &[usize],
    unit_pickups: &[UnitPickup],
) -> Result<List<Pickup>, Memory>
    ensures { IfOk result (λ pickups. pickups ≡ map (pickup_of lost.now) unit_pickups.now) }
{
    let mut pickups = List::new(alloc);
    for unit_pickup in unit_pickups {
        pickups.push(pickup_of(lost, *unit_pickup))?;
    }
    Ok(pickups)
}

/// The gen row of the live unit at a place.
fn row_at(network: &Network, place: usize) -> u32
    ensures { result ≡ gen_row_at network.now place }
{
    match network.units().slice().get(place) {
        Some(unit) => unit.row,
        None => 0,
    }
}

/// The outages of what records say.
fn listed_by(
    alloc: Global,
    network: &Network,
    unit_pickups: &[UnitPickup],
) -> Result<UnitOutages, UnitOutageFault>
    requires few { length unit_pickups.now ≤ most_pickups }
    requires kept { All (IsUnitPickup (length network.now.units)) unit_pickups.now }
    ensures kept { IfOk result (λ outages. AreUnitOutages (length network.now.units) outages.lost outages.pickups) }
    ensures whole { IfOk result PicksUpAll }
    ensures is { result ≢ Err UnitOutageFault.Memory → result ≡ listed_by network.now unit_pickups.now }
{
    let _units = network.units();
    let lost = lost_units(alloc, unit_pickups)?;
    if let Some(unit) = uneven(unit_pickups, lost.slice()) {
        return Err(UnitOutageFault::ShareSum {
            unit: row_at(network, unit),
            sum: share_sum(unit_pickups, unit),
        });
    }
    let pickups = pickups_of(alloc, lost.slice(), unit_pickups)?;
    Ok(UnitOutages { lost, pickups })
}

/// Reads the table of outages of units, or tells the first fault. `Memory` alone may come at any table.
pub fn unit_outages(
    alloc: Global,
    network: &Network,
    bytes: &[u8],
) -> Result<UnitOutages, UnitOutageFault>
    ensures kept { IfOk result (λ outages. AreUnitOutages (length network.now.units) outages.lost outages.pickups) }
    ensures whole { IfOk result PicksUpAll }
    ensures is { result ≢ Err UnitOutageFault.Memory → result ≡ unit_outages_of network.now bytes.now }
{
    let table = read_table(alloc, bytes, UNIT_OUTAGE_HEADER, Some(MOST_PICKUPS))??;
    let unit_pickups = unit_pickups_of(alloc, network, &table)?;
    listed_by(alloc, network, unit_pickups.slice())
}
