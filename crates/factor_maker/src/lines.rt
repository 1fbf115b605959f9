//! The network of the live branches, but for one that is lost, as guesses take it and as exact flows do.

ghost use Rattle.std.specs.Prelude.{◌≡◌, ◌<◌, ◌≤◌, ◌<ℤ◌, pos, length, map, Contains, IfErr, IfOk, unsigned_abs};
ghost use Rattle.market_data.specs.Scales.{most_scaled_reactance};
ghost use Rattle.net_case.specs.declared.live_parts.NetBranch.{NetBranch};
ghost use Rattle.net_paths.specs.Loops.{kept};
ghost use Rattle.factor_residuals.specs.Kirchhoff.{reactance_at};
ghost use Rattle.factor_residuals.specs.Residuals.{AreReactances};
ghost use Rattle.dc_network.specs.DcNetworks.{dc_branch, dc_network};
ghost use Rattle.dc_network.specs.Laws.{IsSound};
ghost use Rattle.exact_flows.specs.FlowSystems.{IsFlowStop};
ghost use Rattle.exact_flows.specs.Lines.{AreFlows, line_branch};
ghost use Rattle.factor_maker.specs.Columns.{link_of};

use crate::numbers::FactorNumber;
use exact_flows::{FlowStop, Line, exact_flows};
use exact_fraction::{Exact, Frac};
use flow_guess::{Guesser, Link};
use net_case::{NetBranch, Network, Reactances};
use net_paths::is_lost;
use plain_list::{List, Memory};
use std::alloc::Global;

/// The live branches, but for a lost one.
pub(crate) fn kept_branches(
    alloc: Global,
    network: &Network,
    lost: Option<u32>,
) -> Result<List<NetBranch>, Memory>
    ensures { IfOk result (λ list. list ≡ kept lost network.now.branches) }
{
    let mut list = List::new(alloc);
    for branch in network.branches().slice() {
        if !is_lost(lost, branch) {
            list.push(*branch)?;
        }
    }
    Ok(list)
}

/// The reactance times the ratio of the branch of a row, in 10^-18.
fn reactance_at(network: &Network, reactances: &Reactances, row: u32) -> i128
    requires { AreReactances network.now reactances.now }
    ensures size { unsigned_abs result ≤ most_scaled_reactance }
    ensures is { result ≡ reactance_at network.now reactances.now row }
{
    match network.branch_place(i64::from(row)) {
        Some(place) => *reactances.at(place),
        None => 0,
    }
}

/// Branches with their reactances.
fn links_of(
    alloc: Global,
    network: &Network,
    reactances: &Reactances,
    branches: &[NetBranch],
) -> Result<List<Link>, Memory>
    requires { AreReactances network.now reactances.now }
    ensures { IfOk result (λ links. links ≡ map (link_of network.now reactances.now) branches.now) }
{
    let mut links = List::new(alloc);
    for branch in branches {
        links.push(Link {
            from: branch.from,
            to: branch.to,
            reactance: reactance_at(network, reactances, branch.row),
        })?;
    }
    Ok(links)
}

/// The network without a lost branch, ready for guesses.
pub(crate) fn guesser_of(
    alloc: Global,
    network: &Network,
    reactances: &Reactances,
    lost: Option<u32>,
) -> Result<Guesser, Memory>
    requires sound { IsSound network.now reactances.now lost }
    ensures { IfOk result (λ guesser. guesser ≡ record {
      buses = length network.now.buses;
      reference = network.now.reference;
      links = map (link_of network.now reactances.now) (kept lost network.now.branches);
    }) }
{
    let branches = kept_branches(alloc, network, lost)?;
    let links = links_of(alloc, network, reactances, branches.slice())?;
    Guesser::new(
        alloc,
        network.buses().len(),
        network.reference(),
        links.slice(),
    )
}

/// Branches with their susceptances.
fn lines_of<N: FactorNumber>(
    alloc: Global,
    network: &Network,
    reactances: &Reactances,
    branches: &[NetBranch],
) -> Result<List<Line<N>>, Memory>
    requires reactances { AreReactances network.now reactances.now }
    requires above { (l : NetBranch) → Contains branches.now l → pos 0 <ℤ reactance_at network.now reactances.now l.row }
    ensures { IfOk result (λ lines. map (line_branch N.value) lines ≡ map (dc_branch network.now reactances.now) branches.now) }
{
    let mut lines = List::new(alloc);
    for branch in branches {
        lines.push(Line {
            from: branch.from,
            to: branch.to,
            susceptance: N::one_over(reactance_at(network, reactances, branch.row)),
        })?;
    }
    Ok(lines)
}

/// By branch and by bus what is carried from there to the reference without a lost branch, exact.
pub(crate) fn flows_of(
    alloc: Global,
    network: &Network,
    reactances: &Reactances,
    lost: Option<u32>,
) -> Result<List<Frac>, FlowStop<Frac>>
    requires sound { IsSound network.now reactances.now lost }
    ensures flows { IfOk result (AreFlows ⟦<Frac as Exact>⟧.value (dc_network network.now reactances.now lost) network.now.reference) }
    ensures stop { IfErr result (IsFlowStop ⟦<Frac as Exact>⟧.value ⟦<Frac as Exact>⟧.bound (dc_network network.now reactances.now lost) network.now.reference) }
{
    let branches = kept_branches(alloc, network, lost)?;
    let lines = lines_of::<Frac>(alloc, network, reactances, branches.slice())?;
    exact_flows(
        alloc,
        network.buses().len(),
        network.reference(),
        lines.slice(),
    )
}
