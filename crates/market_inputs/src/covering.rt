//! Tables of factors that are enough for the outages of a network.

ghost use Rattle.std.specs.Prelude.{IfOk};
ghost use Rattle.market_tables.specs.Tables.{tables_lent};
ghost use Rattle.refusal_text.specs.declared.refusals.Input.TheVariants as input;
ghost use Rattle.refusal_text.specs.declared.refusals.Refusal.TheVariants as refusal;
ghost use Rattle.market_inputs.specs.Clearing.{AreCovered, AreCoveredUnits};
ghost use Rattle.market_inputs.specs.Files.{sized, sized_tables};
ghost use Rattle.market_inputs.specs.Stops.{IsToldAs};
ghost use Rattle.market_inputs.specs.Tables.{MayBeLost, MayLoseUnits};

use crate::stops::InputStop;
use crate::tables::{Tables, check_cover, read_tables, unit_outage_table};
use market_data::FactorPlaces;
use market_tables::MarketTables;
use net_case::Network;
use outage_list::UnitOutages;
use std::alloc::Global;

/// The tables of factors, with the outages of branches and of units.
#[derive(Drop)]
pub(crate) struct Covered {
    pub tables: Tables,
    pub lost: UnitOutages,
}

/// The outages of units of a table, where the tables of factors lack nothing for any outage.
fn covered_units(
    alloc: Global,
    network: &Network,
    tables: &Tables,
    bytes: &[u8],
) -> Result<UnitOutages, InputStop>
    ensures told { IsToldAs (AreCoveredUnits network.now tables.now (sized (refusal.TooLong input.UnitOutages) bytes.now)) result }
    ensures kept { IfOk result (MayLoseUnits network.now) }
{
    let lost = unit_outage_table(alloc, network, bytes)?;
    check_cover(network, tables, &lost)?;
    Ok(lost)
}

/// The tables of factors of a network and its outages, where the tables lack nothing for these.
pub(crate) fn covered_tables(
    alloc: Global,
    network: &Network,
    bytes: &MarketTables<&[u8]>,
    places: FactorPlaces,
) -> Result<Covered, InputStop>
    ensures told { IsToldAs (AreCovered places network.now (sized_tables (tables_lent bytes.now))) result }
    ensures outages { IfOk result (λ covered. MayBeLost network.now covered.tables.outages) }
    ensures lost { IfOk result (λ covered. MayLoseUnits network.now covered.lost) }
{
    let tables = read_tables(alloc, network, &bytes.grid, places)?;
    let lost = covered_units(alloc, network, &tables, bytes.unit_outages)?;
    Ok(Covered { tables, lost })
}
