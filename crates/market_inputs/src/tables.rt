//! The tables of a network.

ghost use Rattle.std.specs.Prelude.{◌≡◌, ◌≤◌, length, IfOk};
ghost use Rattle.market_data.specs.Scales.{most_outages};
ghost use Rattle.refusal_text.specs.declared.refusals.Input.TheVariants as input;
ghost use Rattle.refusal_text.specs.declared.refusals.Refusal.TheVariants as refusal;
ghost use Rattle.market_tables.specs.Tables.{grid_lent};
ghost use Rattle.market_inputs.specs.Files.{sized, sized_grid};
ghost use Rattle.market_inputs.specs.Steps.{Is};
ghost use Rattle.market_inputs.specs.Stops.{IsToldAs};
ghost use Rattle.market_inputs.specs.Tables.{AreOutagesIn, AreTables, MayBeLost, MayLoseUnits, cover_in, loss_in, outage_numbers_in, offsets_in, penalties_in, shift_in, unit_outages_in};

use crate::lengths::check_length;
use crate::stops::{InputStop, table_stop};
use factor_tables::{
    Loss, Offsets, OutageRows, Penalties, Shift, cover, offsets, outage, outage_rows, penalties,
    shift,
};
use market_data::FactorPlaces;
use market_tables::GridTables;
use net_case::Network;
use outage_list::{Outages, UnitOutages, listed, unit_outages};
use refusal_text::{Input, Refusal};
use std::alloc::Global;

/// The tables of factors of a network, and its outages.
#[derive(Drop)]
pub(crate) struct Tables {
    pub shift: Shift,
    pub loss: Loss,
    pub outages: Outages,
}

/// The shift factors of a table, which may have so many places.
fn shift_table(
    alloc: Global,
    network: &Network,
    bytes: &[u8],
    places: FactorPlaces,
) -> Result<Shift, InputStop>
    ensures { IsToldAs (Is (shift_in places network.now (sized (refusal.TooLong input.Ptdf) bytes.now))) result }
{
    check_length(bytes, Input::Ptdf)?;
    match shift(alloc, network, bytes, places) {
        Ok(shift) => Ok(shift),
        Err(fault) => Err(table_stop(Input::Ptdf, fault)),
    }
}

/// The outage factors of a table, which may have so many places.
fn loss_table(
    alloc: Global,
    network: &Network,
    bytes: &[u8],
    places: FactorPlaces,
) -> Result<Loss, InputStop>
    ensures { IsToldAs (Is (loss_in places network.now (sized (refusal.TooLong input.Lodf) bytes.now))) result }
{
    check_length(bytes, Input::Lodf)?;
    match outage(alloc, network, bytes, places) {
        Ok(loss) => Ok(loss),
        Err(fault) => Err(table_stop(Input::Lodf, fault)),
    }
}

/// The numbers of a table of outages.
fn numbers_table(alloc: Global, bytes: &[u8]) -> Result<OutageRows, InputStop>
    ensures told { IsToldAs (Is (outage_numbers_in (sized (refusal.TooLong input.Contingencies) bytes.now))) result }
    ensures few { IfOk result (λ rows. length rows ≤ most_outages) }
{
    check_length(bytes, Input::Contingencies)?;
    match outage_rows(alloc, bytes) {
        Ok(rows) => Ok(rows),
        Err(fault) => Err(table_stop(Input::Contingencies, fault)),
    }
}

/// The outages of a table.
pub(crate) fn outage_table(
    alloc: Global,
    network: &Network,
    bytes: &[u8],
) -> Result<Outages, InputStop>
    ensures told { IsToldAs (AreOutagesIn network.now (sized (refusal.TooLong input.Contingencies) bytes.now)) result }
    ensures kept { IfOk result (MayBeLost network.now) }
{
    let rows = numbers_table(alloc, bytes)?;
    Ok(listed(alloc, network, &rows)?)
}

/// The tables of factors, and the outages.
pub(crate) fn read_tables(
    alloc: Global,
    network: &Network,
    grid: &GridTables<&[u8]>,
    places: FactorPlaces,
) -> Result<Tables, InputStop>
    ensures told { IsToldAs (AreTables places network.now (sized_grid (grid_lent grid.now))) result }
    ensures kept { IfOk result (λ tables. MayBeLost network.now tables.outages) }
{
    let shift = shift_table(alloc, network, grid.ptdf, places)?;
    let loss = loss_table(alloc, network, grid.lodf, places)?;
    let outages = outage_table(alloc, network, grid.contingencies)?;
    Ok(Tables {
        shift,
        loss,
        outages,
    })
}

/// The outages of units of a table.
pub(crate) fn unit_outage_table(
    alloc: Global,
    network: &Network,
    bytes: &[u8],
) -> Result<UnitOutages, InputStop>
    ensures told { IsToldAs (Is (unit_outages_in network.now (sized (refusal.TooLong input.UnitOutages) bytes.now))) result }
    ensures kept { IfOk result (MayLoseUnits network.now) }
{
    check_length(bytes, Input::UnitOutages)?;
    Ok(unit_outages(alloc, network, bytes)?)
}

/// Stops at what the tables of factors lack for the outages that are listed.
pub(crate) fn check_cover(
    network: &Network,
    tables: &Tables,
    lost: &UnitOutages,
) -> Result<(), InputStop>
    ensures { IsToldAs (Is (cover_in network.now tables.now lost.now)) result }
{
    let outages = tables.outages.slice();
    let units = !lost.lost.slice().is_empty();
    match cover(network, &tables.shift, &tables.loss, outages, units) {
        Ok(()) => Ok(()),
        Err(lack) => Err(InputStop::Refused(Refusal::Uncovered(lack))),
    }
}

/// The offsets of a table.
pub(crate) fn offset_table(
    alloc: Global,
    network: &Network,
    bytes: &[u8],
) -> Result<Offsets, InputStop>
    ensures { IsToldAs (Is (offsets_in network.now (sized (refusal.TooLong input.Offsets) bytes.now))) result }
{
    check_length(bytes, Input::Offsets)?;
    match offsets(alloc, network, bytes) {
        Ok(offsets) => Ok(offsets),
        Err(fault) => Err(table_stop(Input::Offsets, fault)),
    }
}

/// The penalties of a table.
pub(crate) fn penalty_table(
    alloc: Global,
    network: &Network,
    bytes: &[u8],
) -> Result<Penalties, InputStop>
    ensures { IsToldAs (Is (penalties_in network.now (sized (refusal.TooLong input.Penalties) bytes.now))) result }
{
    check_length(bytes, Input::Penalties)?;
    match penalties(alloc, network, bytes) {
        Ok(penalties) => Ok(penalties),
        Err(fault) => Err(table_stop(Input::Penalties, fault)),
    }
}
