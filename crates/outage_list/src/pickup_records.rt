//! The records of the table of outages of units.

ghost use Rattle.std.specs.Prelude.{◌≡◌, ◌≢◌, ◌+◌, ◌<◌, ◌≤◌, ◌^◌, pos, ◌<ℤ◌, length, get_or, unsigned_abs, All, [], true, Ok, Err, IfOk, IfErr};
ghost use Rattle.record_reading.specs.Gathering.{read_records};
ghost use Rattle.record_reading.specs.Steps.{checked, fine};
ghost use Rattle.market_data.specs.Scales.{most_share};
ghost use Rattle.outage_list.specs.PickupRecords.{IsUnitPickup, are_gen_rows, are_live, is_gen_row, is_live_unit, place_named, record_in, share_cell, stands, unit_pickup_faults, unit_pickup_in, unit_place};

use crate::UnitOutageFault;
use csv_table::Table;
use market_data::{MOST_SHARE, SHARE_PLACES};
use net_case::Network;
use plain_list::List;
use record_reading::{FrameFault, Why};
use std::alloc::Global;

/// A record as it is written.
#[derive(Clone, Copy, Debug)]
struct TakerRecord {
    unit: i64,
    taker: i64,
    /// In 10^-6.
    share: i64,
}

/// What a unit picks up of the output of a unit that is lost, both by their places among the live units.
#[derive(Clone, Copy, Debug, PartialEq, Eq)]
pub(crate) struct UnitPickup {
    pub(crate) lost: usize,
    pub(crate) taker: usize,
    /// In 10^-6.
    pub(crate) share: i64,
}

/// The share in the third cell of a record.
#[tactic(auto, unfolding(crate::specs::PickupRecords::share_cell))]
fn share_of(table: &Table, place: usize) -> Result<i64, UnitOutageFault>
    requires { (place < length table.now) × (place + 2 < 2 ^ 64) }
    ensures size { IfOk result (λ share. unsigned_abs share ≤ most_share) }
    ensures is { result ≡ share_cell (place + 2) (get_or table.now place []) }
{
    let share = table.number(place, 2, SHARE_PLACES)?;
    if share.unsigned_abs() > MOST_SHARE {
        return Err(UnitOutageFault::Frame(FrameFault::Cell {
            line: place + 2,
            col: 3,
            why: Why::Bounds,
        }));
    }
    Ok(share)
}

/// The numbers of a record, from left to right.
#[tactic(auto, unfolding(crate::specs::PickupRecords::record_in))]
fn record_of(table: &Table, place: usize) -> Result<TakerRecord, UnitOutageFault>
    requires { (place < length table.now) × (place + 2 < 2 ^ 64) }
    ensures size { IfOk result (λ numbers. unsigned_abs numbers.share ≤ most_share) }
    ensures is { result ≡ record_in (place + 2) (get_or table.now place []) }
{
    let unit = table.number(place, 0, 0)?;
    let taker = table.number(place, 1, 0)?;
    let share = share_of(table, place)?;
    Ok(TakerRecord { unit, taker, share })
}

/// Whether a gen row has this number.
fn is_gen_row(network: &Network, number: i64) -> bool
    ensures { result ≡ is_gen_row network.now number }
{
    let last = network.gen_rows() as i64;
    1 <= number && number <= last
}

/// The place of the live unit of this row.
#[tactic(auto, unfolding(crate::specs::PickupRecords::unit_place))]
fn unit_place(network: &Network, number: i64) -> Option<usize>
    ensures { result ≡ unit_place network.now number }
{
    let units = network.units().slice();
    units.iter().position(|unit| i64::from(unit.row) == number)
}

/// Whether a live unit has this row.
fn is_live_unit(network: &Network, number: i64) -> bool
    ensures { result ≡ is_live_unit network.now number }
{
    unit_place(network, number).is_some()
}

/// The place of the unit of a row that a live unit has.
fn place_named(network: &Network, number: i64) -> usize
    requires { is_live_unit network.now number ≡ true }
    ensures live { result < length network.now.units }
    ensures is { result ≡ place_named network.now number }
{
    match unit_place(network, number) {
        Some(place) => place,
        None => 0,
    }
}

/// Whether both units of a record are gen rows.
fn are_gen_rows(network: &Network, numbers: TakerRecord) -> bool
    ensures { result ≡ are_gen_rows network.now numbers }
{
    is_gen_row(network, numbers.unit) && is_gen_row(network, numbers.taker)
}

/// Whether both units of a record are live.
fn are_live(network: &Network, numbers: TakerRecord) -> bool
    ensures { result ≡ are_live network.now numbers }
{
    is_live_unit(network, numbers.unit) && is_live_unit(network, numbers.taker)
}

/// Refuses a record that names no two live units, or has no share.
#[tactic(auto, unfolding(crate::specs::PickupRecords::unit_pickup_faults))]
fn check_unit_pickup(
    network: &Network,
    numbers: TakerRecord,
    line: usize,
) -> Result<(), UnitOutageFault>
    ensures live { IfOk result (λ _. are_live network.now numbers ≡ true) }
    ensures share { IfOk result (λ _. pos 0 <ℤ numbers.share) }
    ensures is { result ≡ checked (unit_pickup_faults network.now line numbers) fine }
{
    if !are_gen_rows(network, numbers) {
        return Err(UnitOutageFault::NoUnit { line });
    }
    if !are_live(network, numbers) {
        return Err(UnitOutageFault::DeadUnit { line });
    }
    if numbers.unit == numbers.taker {
        return Err(UnitOutageFault::SameUnit { line });
    }
    if numbers.share <= 0 {
        return Err(UnitOutageFault::Share { line });
    }
    Ok(())
}

/// Whether a record of these units stands among others.
fn stands(done: &[UnitPickup], unit_pickup: UnitPickup) -> bool
    ensures { result ≡ stands done.now unit_pickup }
{
    done.iter().any(|other| other.lost == unit_pickup.lost && other.taker == unit_pickup.taker)
}

/// What a record says, in the light of those before it.
#[tactic(auto, unfolding(crate::specs::PickupRecords::unit_pickup_in))]
fn unit_pickup_of(
    network: &Network,
    done: &[UnitPickup],
    table: &Table,
    place: usize,
) -> Result<UnitPickup, UnitOutageFault>
    requires { (place < length table.now) × (place + 2 < 2 ^ 64) }
    ensures kept { IfOk result (IsUnitPickup (length network.now.units)) }
    ensures is { result ≡ unit_pickup_in network.now done.now (place + 2) (get_or table.now place []) }
{
    let numbers = record_of(table, place)?;
    check_unit_pickup(network, numbers, place + 2)?;
    let unit_pickup = UnitPickup {
        lost: place_named(network, numbers.unit),
        taker: place_named(network, numbers.taker),
        share: numbers.share,
    };
    if stands(done, unit_pickup) {
        return Err(UnitOutageFault::Twice { line: place + 2 });
    }
    Ok(unit_pickup)
}

/// What the records of a table say.
pub(crate) fn unit_pickups_of(
    alloc: Global,
    network: &Network,
    table: &Table,
) -> Result<List<UnitPickup>, UnitOutageFault>
    ensures count { IfOk result (λ unit_pickups. length unit_pickups ≤ length table.now) }
    ensures kept { IfOk result (All (IsUnitPickup (length network.now.units))) }
    ensures ok { IfOk result (λ unit_pickups. read_records (unit_pickup_in network.now) [] 2 table.now ≡ Ok unit_pickups) }
    ensures err { IfErr result (λ fault. fault ≢ UnitOutageFault.Memory → read_records (unit_pickup_in network.now) [] 2 table.now ≡ Err fault) }
{
    let mut unit_pickups = List::new(alloc);
    for place in 0..table.len() {
        let unit_pickup = unit_pickup_of(network, unit_pickups.slice(), table, place)?;
        unit_pickups.push(unit_pickup)?;
    }
    Ok(unit_pickups)
}
