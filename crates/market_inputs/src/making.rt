//! What tables of factors are made of.

ghost use Rattle.std.specs.Prelude.{IfOk};
ghost use Rattle.refusal_text.specs.declared.refusals.Input.TheVariants as input;
ghost use Rattle.refusal_text.specs.declared.refusals.Refusal.TheVariants as refusal;
ghost use Rattle.market_inputs.specs.Files.{sized};
ghost use Rattle.market_inputs.specs.Making.{AreFactorInputs, AreFactorInputsOf, AreFitToMake};
ghost use Rattle.market_inputs.specs.Stops.{IsToldAs};

use crate::cases::{case_matrices, case_reactances, joined_network};
use crate::stops::InputStop;
use crate::tables::outage_table;
use case_text::RawCase;
use net_case::{Network, PostRating, Reactances};
use outage_list::Outages;
use std::alloc::Global;

/// What tables of factors are made of.
#[derive(Drop)]
pub struct FactorInputs {
    pub network: Network,
    pub reactances: Reactances,
    /// The outages that have outage factors.
    pub outages: Outages,
}

/// What tables of factors are made of, by the rows of a case and the whole bytes of a table of outages.
fn factor_inputs_of(
    alloc: Global,
    raw: &RawCase<'_>,
    contingencies: &[u8],
) -> Result<FactorInputs, InputStop>
    ensures told { IsToldAs (AreFactorInputsOf (sized (refusal.TooLong input.Contingencies) contingencies.now) raw.now) result }
    ensures fit { IfOk result AreFitToMake }
{
    let network = joined_network(alloc, raw, PostRating::C)?;
    let reactances = case_reactances(alloc, raw, &network)?;
    let outages = outage_table(alloc, &network, contingencies)?;
    Ok(FactorInputs {
        network,
        reactances,
        outages,
    })
}

/// What tables of factors are made of, by the whole bytes of a case and of a table of outages.
pub fn factor_inputs(
    alloc: Global,
    case: &[u8],
    contingencies: &[u8],
) -> Result<FactorInputs, InputStop>
    ensures told { IsToldAs (AreFactorInputs case.now contingencies.now) result }
    ensures fit { IfOk result AreFitToMake }
{
    let raw = case_matrices(alloc, case)?;
    factor_inputs_of(alloc, &raw, contingencies)
}
