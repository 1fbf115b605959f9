//! The network of a case, and the tables that are to fit it.

ghost use Rattle.std.specs.Prelude.{IfOk};
ghost use Rattle.market_tables.specs.Tables.{grid_lent};
ghost use Rattle.market_inputs.specs.Checking.{AreFit, AreInputs, AreInputsOf};
ghost use Rattle.market_inputs.specs.Files.{sized_grid};
ghost use Rattle.market_inputs.specs.Stops.{IsToldAs};

use crate::cases::{case_matrices, case_reactances, joined_network};
use crate::stops::InputStop;
use crate::tables::read_tables;
use case_text::RawCase;
use factor_tables::{Loss, Shift};
use market_data::FactorPlaces;
use market_tables::GridTables;
use net_case::{Network, PostRating, Reactances};
use outage_list::Outages;
use std::alloc::Global;

/// What a check works on.
#[derive(Drop)]
pub struct Inputs {
    pub network: Network,
    pub reactances: Reactances,
    pub shift: Shift,
    pub loss: Loss,
    pub outages: Outages,
}

/// The network of a case's rows, and the tables that are to fit it.
fn inputs_of(
    alloc: Global,
    raw: &RawCase<'_>,
    bytes: &GridTables<&[u8]>,
    places: FactorPlaces,
) -> Result<Inputs, InputStop>
    ensures told { IsToldAs (AreInputsOf places (sized_grid (grid_lent bytes.now)) raw.now) result }
    ensures fit { IfOk result AreFit }
{
    let network = joined_network(alloc, raw, PostRating::C)?;
    let reactances = case_reactances(alloc, raw, &network)?;
    let tables = read_tables(alloc, &network, bytes, places)?;
    Ok(Inputs {
        network,
        reactances,
        shift: tables.shift,
        loss: tables.loss,
        outages: tables.outages,
    })
}

/// The network, and the tables that are to fit it, of the whole bytes of these. The factors may have so many places.
pub fn check_inputs(
    alloc: Global,
    bytes: &GridTables<&[u8]>,
    places: FactorPlaces,
) -> Result<Inputs, InputStop>
    ensures told { IsToldAs (AreInputs places (sized_grid (grid_lent bytes.now))) result }
    ensures fit { IfOk result AreFit }
{
    let raw = case_matrices(alloc, bytes.case)?;
    inputs_of(alloc, &raw, bytes, places)
}
