//! What tables are prepared of: a case with its network, its reactances and the costs of its units.

ghost use Rattle.std.specs.Prelude.{IfOk, length};
ghost use Rattle.factor_residuals.specs.Residuals.{AreReactances};
ghost use Rattle.net_paths.specs.Connection.{JoinAll};
ghost use Rattle.refusal_text.specs.declared.refusals.Input.TheVariants as input;
ghost use Rattle.refusal_text.specs.declared.refusals.Refusal.TheVariants as refusal;
ghost use Rattle.market_inputs.specs.Cases.{case_reactances};
ghost use Rattle.market_inputs.specs.Files.{sized};
ghost use Rattle.market_inputs.specs.Preparing.{AreCaseInputs, costs_in};
ghost use Rattle.market_inputs.specs.Steps.{Is};
ghost use Rattle.market_inputs.specs.Stops.{IsToldAs};

use crate::cases::{case_matrices, case_reactances, joined_network};
use crate::lengths::check_length;
use crate::stops::InputStop;
use case_text::{RawCase, RawCosts, read_costs};
use net_case::{Network, PostRating, Reactances};
use refusal_text::{Input, Refusal};
use std::alloc::Global;

/// The rows of a case, and its network.
#[derive(Drop)]
pub struct CaseInputs<'a> {
    pub raw: RawCase<'a>,
    pub network: Network,
}

/// The rows of the whole bytes of a case, and its network with this rating after an outage, whose branches join all its buses.
pub fn case_inputs<'a>(
    alloc: Global,
    case: &'a [u8],
    rating: PostRating,
) -> Result<CaseInputs<'a>, InputStop>
    ensures told { IsToldAs (AreCaseInputs rating case.entry.now) result }
    ensures joined { IfOk result (λ inputs. JoinAll inputs.network.branches (length inputs.network.buses)) }
{
    let raw = case_matrices(alloc, case)?;
    let network = joined_network(alloc, &raw, rating)?;
    Ok(CaseInputs { raw, network })
}

/// The reactances of the network's branches.
pub fn network_reactances(alloc: Global, inputs: &CaseInputs<'_>) -> Result<Reactances, InputStop>
    ensures told { IsToldAs (Is (case_reactances inputs.now.raw inputs.now.network)) result }
    ensures fit { IfOk result (AreReactances inputs.now.network) }
{
    case_reactances(alloc, &inputs.raw, &inputs.network)
}

/// The rows of the costs of the units, of the whole bytes of a case.
pub fn unit_costs<'a>(alloc: Global, case: &'a [u8]) -> Result<RawCosts<'a>, InputStop>
    ensures { IsToldAs (Is (costs_in (sized (refusal.TooLong input.Case) case.entry.now))) result }
{
    check_length(case, Input::Case)?;
    match read_costs(alloc, case)? {
        Some(costs) => Ok(costs),
        None => Err(InputStop::Refused(Refusal::NoCosts)),
    }
}
