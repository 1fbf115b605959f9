//! The columns and the rows of the dictionary: which bus or branch stands where, and how it is named.
ghost use Rattle.std.specs.Prelude.{◌≡◌, ◌≢◌, ◌+◌, ◌<◌, ◌≤◌, IfOk};
ghost use Rattle.exact_flows.specs.Building.{AreAngles, IsSmall, bus_of, column_place, row_at};
ghost use Rattle.exact_flows.specs.FlowSystems.{name};
ghost use Rattle.market_data.specs.Scales.{most_buses};

use plain_list::{List, Memory};
use std::alloc::Global;

/// What a row of the dictionary gives: what the branch at a place carries, or what is put in at the bus at a place.
#[derive(Clone, Copy, PartialEq, Eq, Debug)]
pub enum Row {
    Flow(usize),
    Injection(usize),
}

/// The bus whose angle is the column at a place: all buses in their order, but for the reference.
pub(crate) fn bus_at(reference: usize, column: usize) -> usize
    requires { column < most_buses }
    ensures { result ≡ bus_of reference column }
{
    if column < reference {
        column
    } else {
        column + 1
    }
}

/// The place of the column that is the angle of a bus other than the reference.
pub(crate) fn column_of(reference: usize, bus: usize) -> usize
    requires { bus ≢ reference }
    ensures { result ≡ column_place reference bus }
{
    if bus < reference { bus } else { bus - 1 }
}

/// The row at a place: first the branches, and then the buses other than the reference.
pub(crate) fn row_at_place(branches: usize, reference: usize, place: usize) -> Row
    requires { place < branches + most_buses }
    ensures { result ≡ row_at branches reference place }
{
    if place < branches {
        Row::Flow(place)
    } else {
        Row::Injection(bus_at(reference, place - branches))
    }
}

/// The name of a row. An angle is named by the place of its bus, and rows by the numbers from then on.
pub(crate) fn row_name(buses: usize, row: Row) -> u32
    requires buses { buses ≤ most_buses }
    requires row { IsSmall row }
    ensures { result ≡ name buses row }
{
    match row {
        Row::Flow(branch) => (2 * buses + branch) as u32,
        Row::Injection(bus) => (buses + bus) as u32,
    }
}

/// The names of the columns.
pub(crate) fn angle_names(
    alloc: Global,
    buses: usize,
    reference: usize,
) -> Result<List<u32>, Memory>
    requires reference { reference < buses }
    requires few { buses ≤ most_buses }
    ensures { IfOk result (AreAngles buses reference) }
{
    let mut names = List::new(alloc);
    for column in 0..buses - 1 {
        names.push(bus_at(reference, column) as u32)?;
    }
    Ok(names)
}
