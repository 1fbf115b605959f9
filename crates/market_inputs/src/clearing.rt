//! The market of a case with its tables, its outages of units, its offers, its reserve, its offsets and its penalties.

ghost use Rattle.std.specs.Prelude.{◌≡◌, ◌↔◌, IfOk};
ghost use Rattle.market_model.specs.Market.{IsMarket};
ghost use Rattle.market_model.specs.Reserves.{no_reserve};
ghost use Rattle.net_case.specs.Networks.{IsNetwork};
ghost use Rattle.market_tables.specs.Tables.{tables_lent};
ghost use Rattle.market_inputs.specs.Clearing.{AreLimited, AreLimitedParts, AreMarketParts, IsClearMarket, whole_of};
ghost use Rattle.market_inputs.specs.Files.{sized_tables};
ghost use Rattle.market_inputs.specs.Stops.{IsToldAs};
ghost use Rattle.market_inputs.specs.Tables.{ListsNoReserve, MayBeLost, MayLoseUnits};

use crate::cases::read_network;
use crate::covering::{Covered, covered_tables};
use crate::limits::{factors_of, line_list};
use crate::offers::{offer_table, reserve_table};
use crate::stops::InputStop;
use crate::tables::Tables;
use market_data::FactorPlaces;
use market_model::{List, Market, Parts, assemble};
use market_tables::MarketTables;
use net_case::{Network, PostRating};
use std::alloc::Global;

/// The units with their offers and their reserve, and the lines with their factors; no buses yet and no outages.
fn limited_parts(
    alloc: Global,
    network: &Network,
    tables: &Tables,
    bytes: &MarketTables<&[u8]>,
) -> Result<Parts, InputStop>
    ensures told { IsToldAs (AreLimitedParts network.now tables.now (sized_tables (tables_lent bytes.now))) result }
    ensures kept { IfOk result (AreLimited network.now) }
    ensures energy_alone { IfOk result (λ parts. (parts.reserve ≡ no_reserve) ↔ ListsNoReserve bytes.now.reserves.now) }
{
    let offered = offer_table(alloc, network, bytes.offers)?;
    let reserve = reserve_table(alloc, network, bytes.reserves)?;
    let mut parts = Parts::bare(alloc, List::new(alloc), offered.units, offered.blocks);
    parts.reserve = reserve;
    parts.lines = line_list(alloc, network, bytes.offsets, bytes.penalties)?;
    let branches = network.branches().slice();
    parts.shift = factors_of(alloc, branches, network.buses().slice(), &tables.shift)?;
    parts.loss = factors_of(alloc, branches, branches, &tables.loss)?;
    Ok(parts)
}

/// The same parts with the buses, and the outages that the tables are enough for.
fn whole_parts(network: Network, covered: Covered, limited: Parts, places: FactorPlaces) -> Parts
    requires network { IsNetwork network }
    requires outages { MayBeLost network covered.tables.outages }
    requires lost { MayLoseUnits network covered.lost }
    requires limited { AreLimited network limited }
    ensures is { result ≡ whole_of places network covered limited }
    ensures market { IsMarket result }
    ensures reserve { result.reserve ≡ limited.reserve }
{
    let Covered { tables, lost } = covered;
    let mut parts = limited;
    parts.buses = network.into_buses();
    parts.outages = tables.outages;
    parts.unit_outages = lost.lost;
    parts.pickups = lost.pickups;
    parts.factor_places = places;
    parts
}

/// The parts of the market of a network with its tables.
fn market_parts(
    alloc: Global,
    network: Network,
    bytes: &MarketTables<&[u8]>,
    places: FactorPlaces,
) -> Result<Parts, InputStop>
    requires network { IsNetwork network }
    ensures told { IsToldAs (AreMarketParts places (sized_tables (tables_lent bytes.now)) network) result }
    ensures kept { IfOk result IsMarket }
    ensures energy_alone { IfOk result (λ parts. (parts.reserve ≡ no_reserve) ↔ ListsNoReserve bytes.now.reserves.now) }
{
    let covered = covered_tables(alloc, &network, bytes, places)?;
    let limited = limited_parts(alloc, &network, &covered.tables, bytes)?;
    Ok(whole_parts(network, covered, limited, places))
}

/// The market of a case with its tables, its outages of units, its offers, its reserve, its offsets and its penalties, of the whole
/// bytes of these. The limits after an outage are of the rating that is asked for, and the factors may have as many places.
///
/// The whole case is read first, then the tables of factors, the outages of branches and of units, the offers, the reserve, the
/// offsets and the penalties. The market is of energy alone exactly where the table of reserves has no records.
pub fn clear_market(
    alloc: Global,
    bytes: &MarketTables<&[u8]>,
    rating: PostRating,
    places: FactorPlaces,
) -> Result<Market, InputStop>
    ensures told { IsToldAs (IsClearMarket rating places (sized_tables (tables_lent bytes.now))) result }
    ensures kept { IfOk result IsMarket }
    ensures energy_alone { IfOk result (λ m. (m.reserve ≡ no_reserve) ↔ ListsNoReserve bytes.now.reserves.now) }
{
    let network = read_network(alloc, bytes.grid.case, rating)?;
    let parts = market_parts(alloc, network, bytes, places)?;
    Ok(assemble(alloc, parts)?)
}
