//! Reading the gen rows of a case.

ghost use Rattle.std.specs.Prelude.{◌≡◌, ◌≢◌, ℕ, ◌≤◌, ◌<◌, [], length, map, All, IfOk, IfSome, Err};
ghost use Rattle.market_data.specs.Scales.{most_units};
ghost use Rattle.record_reading.specs.Gathering.{gather};
ghost use Rattle.net_case.specs.Networks.{IsNetUnit, AreRows, ArePlaces};
ghost use Rattle.net_case.specs.NetworkReading.{row_at, bounds_in, unit_where, unit_row};

use crate::bus_rows::named_place;
use crate::cells::{in_service, number};
use crate::columns::{GEN_BUS, GEN_STATUS, PMAX, PMIN};
use crate::live_parts::{NetFault, NetUnit, Places, place_of_number};
use case_text::{Field, RawCase};
use market_data::MW_PLACES;
use plain_list::List;
use record_reading::push_some;
use std::alloc::Global;

/// The bounds of a live unit.
#[tactic(auto, unfolding(crate::specs::NetworkReading::bounds_in))]
fn live_unit(case: &RawCase<'_>, row: u32, bus: usize) -> Result<NetUnit, NetFault>
    requires { 1 ≤ row }
    ensures unit { (buses : ℕ) → bus < buses → IfOk result (IsNetUnit buses) }
    ensures row { IfOk result (λ unit. unit.row ≡ row) }
    ensures is { result ≡ bounds_in row (row_at case.now.generators row) bus }
{
    let high = number(case, Field::Gen, row as usize, PMAX, MW_PLACES)?;
    let low = number(case, Field::Gen, row as usize, PMIN, MW_PLACES)?;
    if low > high {
        return Err(NetFault::MinAboveMax { unit: row });
    }
    Ok(NetUnit {
        row,
        bus,
        low,
        high,
    })
}

/// The unit of a gen row, where its bus is live and it is in service.
#[tactic(auto, unfolding(crate::specs::NetworkReading::unit_where))]
fn unit_at(
    case: &RawCase<'_>,
    row: u32,
    bus: Option<usize>,
    in_service: bool,
) -> Result<Option<NetUnit>, NetFault>
    requires { 1 ≤ row }
    ensures unit { (buses : ℕ) → IfSome bus (λ place. place < buses) → IfOk result (λ unit. IfSome unit (IsNetUnit buses)) }
    ensures row { IfOk result (λ unit. IfSome unit (λ unit. unit.row ≡ row)) }
    ensures is { result ≡ unit_where row (row_at case.now.generators row) bus in_service }
{
    match bus {
        Some(bus) if in_service => match live_unit(case, row, bus) {
            Ok(unit) => Ok(Some(unit)),
            Err(fault) => Err(fault),
        },
        _ => Ok(None),
    }
}

/// The unit of a gen row, where it is live.
#[tactic(auto, unfolding(crate::specs::NetworkReading::unit_row))]
fn read_unit(case: &RawCase<'_>, places: &Places, row: u32) -> Result<Option<NetUnit>, NetFault>
    requires { 1 ≤ row }
    ensures unit { (buses : ℕ) → ArePlaces buses places.now.entries → IfOk result (λ unit. IfSome unit (IsNetUnit buses)) }
    ensures row { IfOk result (λ unit. IfSome unit (λ unit. unit.row ≡ row)) }
    ensures is { result ≡ unit_row places.now.entries row (row_at case.now.generators row) }
{
    let number = number(case, Field::Gen, row as usize, GEN_BUS, 0)?;
    let bus = named_place(place_of_number(places, number), Field::Gen, row as usize)?;
    let in_service = in_service(case, Field::Gen, row as usize, GEN_STATUS)?;
    unit_at(case, row, bus, in_service)
}

/// The live units.
pub fn read_units(
    alloc: Global,
    case: &RawCase<'_>,
    places: &Places,
    count: usize,
) -> Result<List<NetUnit>, NetFault>
    requires count { count ≤ most_units }
    requires all { count ≡ length case.now.generators }
    ensures count { IfOk result (λ units. length units ≤ count) }
    ensures units { (buses : ℕ) → ArePlaces buses places.now.entries → IfOk result (All (IsNetUnit buses)) }
    ensures rows { IfOk result (λ units. AreRows count (map (λ unit. unit.row) units)) }
    ensures is { result ≢ Err NetFault.Memory → result ≡ gather (λ _. unit_row places.now.entries) [] 1 case.now.generators }
{
    let mut units = List::new(alloc);
    for row in 0..count {
        let unit = read_unit(case, places, row as u32 + 1)?;
        push_some(&mut units, unit)?;
    }
    Ok(units)
}
