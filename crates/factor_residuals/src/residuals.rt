//! The residuals of the tables of factors.

ghost use Rattle.std.specs.Prelude.{◌≡◌, ◌<◌, ◌≤◌, List, All, IfOk, length};
ghost use Rattle.market_data.specs.Scales.{most_buses};
ghost use Rattle.net_case.specs.declared.live_parts.NetBranch.{NetBranch};
ghost use Rattle.net_paths.specs.Loops.{AreLoops, kept};
ghost use Rattle.net_paths.specs.Detours.{IsLiveRow, IsBranchOf};
ghost use Rattle.factor_tables.specs.Factors.{FactorRecords};
ghost use Rattle.factor_residuals.specs.Columns.{column_of};
ghost use Rattle.factor_residuals.specs.Residuals.{AreReactances, IsBusResidual, IsLoopResidual, IsOutageBusResidual, IsOutageLoopResidual, shift_column, outage_column};

use crate::columns::Flow;
use crate::loop_sums::note_loops;
use crate::node_sums::note_buses;
use crate::spots::Residual;
use factor_tables::{Loss, Shift};
use net_case::{Network, Reactances};
use net_paths::{Loops, branch_of, loops};
use outage_list::Outages;
use plain_list::Memory;
use std::alloc::Global;

/// One MW from the bus at a place to the reference.
fn shift_flow(network: &Network, place: usize) -> Flow
    requires { place < length network.now.buses }
    ensures { (shift : FactorRecords) → column_of network.now shift result ≡ shift_column network.now shift place }
{
    Flow {
        name: network.buses().at(place).number,
        lost: None,
        source: place,
        sink: network.reference(),
    }
}

/// One MW from F_BUS to T_BUS of the live branch of a row, over the others.
fn outage_flow(network: &Network, row: u32) -> Flow
    requires { IsLiveRow network.now row }
    ensures { (loss : FactorRecords) → (branch : NetBranch) × IsBranchOf network.now row branch
        × (column_of network.now loss result ≡ outage_column network.now loss branch) }
{
    let branch = branch_of(network, row);
    Flow {
        name: row,
        lost: Some(row),
        source: branch.from,
        sink: branch.to,
    }
}

/// The loops of the live branches without a lost one.
fn loops_of(alloc: Global, network: &Network, lost: Option<u32>) -> Result<Loops, Memory>
    ensures are { IfOk result (AreLoops (kept lost network.now.branches)) }
    ensures short { IfOk result (λ loops. All (λ members. length members ≤ most_buses) loops) }
{
    let _buses = network.buses();
    loops(alloc, network, lost)
}

/// The residuals of shift factors at the buses.
pub fn bus_residual(alloc: Global, network: &Network, shift: &Shift) -> Result<Residual, Memory>
    ensures { IfOk result (IsBusResidual network.now shift.now) }
{
    let mut residual = Residual::of_none();
    for place in 0..network.buses().len() {
        let column = shift_flow(network, place);
        residual = note_buses(alloc, network, shift, &column, residual)?;
    }
    Ok(residual)
}

/// The residuals of shift factors round the loops.
pub fn loop_residual(
    alloc: Global,
    network: &Network,
    reactances: &Reactances,
    shift: &Shift,
) -> Result<Residual, Memory>
    requires { AreReactances network.now reactances.now }
    ensures { IfOk result (IsLoopResidual network.now reactances.now shift.now) }
{
    let loops = loops_of(alloc, network, None)?;
    let mut residual = Residual::of_none();
    for place in 0..network.buses().len() {
        let column = shift_flow(network, place);
        residual = note_loops(network, reactances, shift, &column, &loops, residual);
    }
    Ok(residual)
}

/// The residuals of outage factors at the buses.
pub fn outage_bus_residual(
    alloc: Global,
    network: &Network,
    loss: &Loss,
    outages: &Outages,
) -> Result<Residual, Memory>
    requires { All (IsLiveRow network.now) outages.now }
    ensures { IfOk result (IsOutageBusResidual network.now loss.now outages.now) }
{
    let mut residual = Residual::of_none();
    for outage in outages.slice() {
        let column = outage_flow(network, *outage);
        residual = note_buses(alloc, network, loss, &column, residual)?;
    }
    Ok(residual)
}

/// The residuals of outage factors round the loops that are left without the lost branch.
pub fn outage_loop_residual(
    alloc: Global,
    network: &Network,
    reactances: &Reactances,
    loss: &Loss,
    outages: &Outages,
) -> Result<Residual, Memory>
    requires reactances { AreReactances network.now reactances.now }
    requires outages { All (IsLiveRow network.now) outages.now }
    ensures { IfOk result (IsOutageLoopResidual network.now reactances.now loss.now outages.now) }
{
    let mut residual = Residual::of_none();
    for outage in outages.slice() {
        let loops = loops_of(alloc, network, Some(*outage))?;
        let column = outage_flow(network, *outage);
        residual = note_loops(network, reactances, loss, &column, &loops, residual);
    }
    Ok(residual)
}
