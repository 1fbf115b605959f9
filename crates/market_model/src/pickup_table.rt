//! Pickup factors by outage of a unit, and by line.

ghost use Rattle.std.specs.Prelude.{◌≡◌, ◌*◌, ◌<◌, ◌≤◌, unsigned_abs, length, IfOk};
ghost use Rattle.fraction_theory.specs.Fraction.{over, ◌*ℚ◌};
ghost use Rattle.market_data.specs.Scales.{most_factor, share_one, pickup_one};
ghost use Rattle.market_model.specs.Dispatch.{unit_at};
ghost use Rattle.market_model.specs.Factors.{factor_in, IsTable};
ghost use Rattle.market_model.specs.LimitRows.{lost_unit, pickup_factor, pickups_of, share_value, shift_factor};
ghost use Rattle.market_model.specs.Market.{IsMarket, IsPickup};
ghost use Rattle.market_model.specs.PickupTable.{IsPickupTable};

use crate::{Parts, Pickup};
use market_data::SHARE_ONE;
use plain_list::Memory;
use std::alloc::Global;

/// What is picked up at an outage of a unit, in the order of the records.
fn takers(alloc: Global, parts: &Parts, outage: usize) -> Result<Vec<Pickup>, Memory>
    ensures { IfOk result (λ takers. takers.items ≡ pickups_of parts.now outage) }
{
    let mut takers = Vec::new(alloc);
    for pickup in parts.pickups.slice() {
        if pickup.outage == outage {
            match takers.push(*pickup) {
                Ok(()) => {}
                Err(_) => return Err(Memory),
            }
        }
    }
    Ok(takers)
}

/// The shift factor of a line for the bus of a unit, in 10^-9, by the table of all shift factors.
fn shift_for_unit(parts: &Parts, shift: &[i64], line: usize, unit: usize) -> i64
    requires market { IsMarket parts.now }
    requires shift { IsTable (length parts.now.lines) (length parts.now.buses) (factor_in parts.now.shift) shift.now }
    requires line { line < length parts.now.lines }
    requires unit { unit < length parts.now.units }
    ensures size { unsigned_abs result ≤ most_factor }
    ensures is { result ≡ factor_in parts.now.shift line (unit_at parts.now unit).bus }
{
    shift[line * parts.buses.len() + parts.units.at(unit).bus]
}

/// How much of a lost unit's output flows on a line where the taker of one pickup puts in its share, in 10^-15.
fn taker_share(parts: &Parts, shift: &[i64], line: usize, pickup: &Pickup) -> i64
    requires market { IsMarket parts.now }
    requires shift { IsTable (length parts.now.lines) (length parts.now.buses) (factor_in parts.now.shift) shift.now }
    requires line { line < length parts.now.lines }
    requires pickup { IsPickup (length parts.now.unit_outages) (length parts.now.units) pickup.now }
    ensures size { unsigned_abs result ≤ share_one * most_factor }
    ensures is { over result pickup_one ≡ share_value pickup.now *ℚ shift_factor parts.now line (unit_at parts.now pickup.now.taker).bus }
{
    pickup.share * shift_for_unit(parts, shift, line, pickup.taker)
}

/// How much of a lost unit's output flows on a line where the unit itself puts it in, in 10^-15.
fn own_share(parts: &Parts, shift: &[i64], line: usize, outage: usize) -> i64
    requires market { IsMarket parts.now }
    requires shift { IsTable (length parts.now.lines) (length parts.now.buses) (factor_in parts.now.shift) shift.now }
    requires line { line < length parts.now.lines }
    requires outage { outage < length parts.now.unit_outages }
    ensures size { unsigned_abs result ≤ share_one * most_factor }
    ensures is { over result pickup_one ≡ shift_factor parts.now line (unit_at parts.now (lost_unit parts.now outage)).bus }
{
    shift_for_unit(parts, shift, line, *parts.unit_outages.at(outage)) * SHARE_ONE as i64
}

/// The pickup factor of a line at an outage of a unit, in 10^-15, by those who pick up then.
fn whole_pickup(parts: &Parts, shift: &[i64], line: usize, outage: usize, takers: &[Pickup]) -> i128
    requires market { IsMarket parts.now }
    requires shift { IsTable (length parts.now.lines) (length parts.now.buses) (factor_in parts.now.shift) shift.now }
    requires line { line < length parts.now.lines }
    requires outage { outage < length parts.now.unit_outages }
    requires takers { takers.now ≡ pickups_of parts.now outage }
    ensures { pickup_factor parts.now line outage ≡ over result pickup_one }
{
    let mut taken: i128 = 0;
    for pickup in takers {
        taken += i128::from(taker_share(parts, shift, line, pickup));
    }
    taken - i128::from(own_share(parts, shift, line, outage))
}

/// The pickup factors in a table row by row, in 10^-15, with a row of all lines for each outage of a unit.
pub(crate) fn pickup_table(alloc: Global, parts: &Parts, shift: &[i64]) -> Result<Vec<i128>, Memory>
    requires market { IsMarket parts.now }
    requires shift { IsTable (length parts.now.lines) (length parts.now.buses) (factor_in parts.now.shift) shift.now }
    ensures { IfOk result (λ table. IsPickupTable parts.now table.items) }
{
    let mut table = Vec::new(alloc);
    for outage in 0..parts.unit_outages.len() {
        let takers = takers(alloc, parts, outage)?;
        for line in 0..parts.lines.len() {
            match table.push(whole_pickup(parts, shift, line, outage, &takers)) {
                Ok(()) => {}
                Err(_) => return Err(Memory),
            }
        }
    }
    Ok(table)
}
