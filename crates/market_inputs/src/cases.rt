//! The network of a case.

ghost use Rattle.std.specs.Prelude.{◌≡◌, IfOk, length};
ghost use Rattle.factor_residuals.specs.Residuals.{AreReactances};
ghost use Rattle.net_case.specs.Networks.{IsNetwork};
ghost use Rattle.net_paths.specs.Connection.{JoinAll};
ghost use Rattle.refusal_text.specs.declared.refusals.Input.TheVariants as input;
ghost use Rattle.refusal_text.specs.declared.refusals.Refusal.TheVariants as refusal;
ghost use Rattle.market_inputs.specs.Cases.{AreReadBuses, IsJoinedNetwork, IsReadNetwork, matrices_in, network_in, case_reactances};
ghost use Rattle.market_inputs.specs.Files.{sized};
ghost use Rattle.market_inputs.specs.Steps.{Is};
ghost use Rattle.market_inputs.specs.Stops.{IsToldAs};

use crate::lengths::check_length;
use crate::stops::InputStop;
use case_text::{RawCase, read_case};
use net_case::{Branches, Network, PostRating, Reactances, network, reactances};
use net_paths::connected;
use refusal_text::Input;
use std::alloc::Global;

/// The matrices of a case.
pub(crate) fn case_matrices<'a>(alloc: Global, bytes: &'a [u8]) -> Result<RawCase<'a>, InputStop>
    ensures { IsToldAs (Is (matrices_in (sized (refusal.TooLong input.Case) bytes.now))) result }
{
    check_length(bytes, Input::Case)?;
    Ok(read_case(alloc, bytes)?)
}

/// The network of a case.
pub(crate) fn case_network(
    alloc: Global,
    raw: &RawCase<'_>,
    branches: Branches,
) -> Result<Network, InputStop>
    ensures told { IsToldAs (Is (network_in branches raw.now)) result }
    ensures kept { IfOk result IsNetwork }
{
    Ok(network(alloc, raw, branches)?)
}

/// The network of a case with its branches, which join all its buses.
pub(crate) fn joined_network(
    alloc: Global,
    raw: &RawCase<'_>,
    rating: PostRating,
) -> Result<Network, InputStop>
    ensures told { IsToldAs (IsJoinedNetwork rating raw.now) result }
    ensures kept { IfOk result IsNetwork }
    ensures joined { IfOk result (λ network. JoinAll network.branches (length network.buses)) }
{
    let network = case_network(alloc, raw, Branches::Read(rating))?;
    connected(alloc, &network)?;
    Ok(network)
}

/// The network of the whole bytes of a case, whose branches join all its buses.
pub(crate) fn read_network(
    alloc: Global,
    bytes: &[u8],
    rating: PostRating,
) -> Result<Network, InputStop>
    ensures told { IsToldAs (IsReadNetwork rating (sized (refusal.TooLong input.Case) bytes.now)) result }
    ensures kept { IfOk result IsNetwork }
{
    let raw = case_matrices(alloc, bytes)?;
    joined_network(alloc, &raw, rating)
}

/// The buses and the units of the whole bytes of a case: a network without branches.
pub(crate) fn read_buses(alloc: Global, bytes: &[u8]) -> Result<Network, InputStop>
    ensures told { IsToldAs (AreReadBuses (sized (refusal.TooLong input.Case) bytes.now)) result }
    ensures kept { IfOk result IsNetwork }
{
    let raw = case_matrices(alloc, bytes)?;
    case_network(alloc, &raw, Branches::Skip)
}

/// The reactances of a network's branches.
pub(crate) fn case_reactances(
    alloc: Global,
    raw: &RawCase<'_>,
    network: &Network,
) -> Result<Reactances, InputStop>
    ensures told { IsToldAs (Is (case_reactances raw.now network.now)) result }
    ensures fit { IfOk result (AreReactances network.now) }
{
    Ok(reactances(alloc, raw, network)?)
}
