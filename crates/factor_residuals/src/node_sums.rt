//! What leaves each bus.

ghost use Rattle.std.specs.Prelude.{◌≡◌, ◌++◌, ◌∷◌, [], ◌≤◌, ◌<◌, ◌+◌, ◌*◌, ◌^◌, ◌+ℤ◌, ◌-ℤ◌, ℕ, pos, List, length, unsigned_abs, get_or, slice_set, IfOk};
ghost use Rattle.market_data.specs.Scales.{factor_one, most_factor, most_lines, place_step};
ghost use Rattle.net_case.specs.Networks.{IsNetBranch};
ghost use Rattle.net_case.specs.declared.live_parts.NetBranch.{NetBranch};
ghost use Rattle.net_paths.specs.Loops.{kept};
ghost use Rattle.factor_tables.specs.Factors.{FactorRecords};
ghost use Rattle.factor_residuals.specs.Kirchhoff.{Flows, bus_spot, one_at};
ghost use Rattle.factor_residuals.specs.Columns.{HoldNodes, IsWithin, left_by, node_at, column_of, flows_of};
ghost use Rattle.factor_residuals.specs.Residuals.{IsResidual, bus_spots};

use crate::columns::{Flow, rounding};
use crate::spots::{Residual, Spot};
use factor_tables::{FactorTable, TableKind};
use market_data::{FACTOR_ONE, FactorPlaces};
use net_case::{NetBranch, Network};
use net_paths::{bus_number, is_lost};
use plain_list::Memory;
use std::alloc::Global;

/// What leaves a bus less what enters it, in 10^-9, and how many branches stand there.
#[derive(Clone, Copy, Debug)]
pub(crate) struct Node {
    pub outflow: i64,
    pub branches: i64,
}

/// With a flow more that leaves the bus.
fn left_by(node: Node, flow: i64) -> Node
    requires flow { unsigned_abs flow ≤ most_factor }
    requires within { IsWithin most_lines node }
    ensures { result ≡ left_by node flow }
{
    Node {
        outflow: node.outflow + flow,
        branches: node.branches + 1,
    }
}

/// Notes that a flow leaves a bus over one more branch.
fn leave(nodes: &mut Vec<Node>, place: usize, flow: i64)
    requires place { place < length nodes.old.items }
    requires flow { unsigned_abs flow ≤ most_factor }
    requires within { (d : Node) → IsWithin most_lines (get_or nodes.old.items place d) }
    ensures { (d : Node) → nodes.new.items ≡ slice_set nodes.old.items place (left_by (get_or nodes.old.items place d) flow) }
{
    nodes[place] = left_by(nodes[place], flow);
}

/// Notes that a flow goes over one more branch.
fn pass(nodes: &mut Vec<Node>, branch: &NetBranch, flow: i64)
    requires flow { unsigned_abs flow ≤ most_factor }
    requires branch { IsNetBranch (length nodes.old.items) branch.now }
    requires within { (p : ℕ) (d : Node) → p < length nodes.old.items → IsWithin most_lines (get_or nodes.old.items p d) }
    ensures within { (k p : ℕ) (d : Node) → p < length nodes.old.items → IsWithin k (get_or nodes.old.items p d) → IsWithin (k + 1) (get_or nodes.new.items p d) }
    ensures passed { (flows : Flows) (before : List NetBranch) → HoldNodes flows before (length nodes.old.items) nodes.old.items → flow ≡ flows branch.now.row
        → HoldNodes flows (before ++ branch.now ∷ []) (length nodes.old.items) nodes.new.items }
{
    leave(nodes, branch.from, flow);
    leave(nodes, branch.to, -flow);
}

/// What leaves each bus over the branches of a column.
fn nodes_of<K: TableKind>(
    alloc: Global,
    network: &Network,
    factors: &FactorTable<K>,
    column: &Flow,
) -> Result<Vec<Node>, Memory>
    ensures within { IfOk result (λ nodes. (p : ℕ) (d : Node) → p < length network.now.buses → IsWithin most_lines (get_or nodes.items p d)) }
    ensures nodes { IfOk result (λ nodes. HoldNodes (flows_of factors.now column.now.name) (kept column.now.lost network.now.branches) (length network.now.buses) nodes.items) }
{
    let empty = Node {
        outflow: 0,
        branches: 0,
    };
    let mut nodes = match vec![in alloc; empty; network.buses().len()] {
        Ok(nodes) => nodes,
        Err(_) => return Err(Memory),
    };
    for branch in network.branches().slice() {
        if !is_lost(column.lost, branch) {
            let flow = factors.factor(branch.row, column.name);
            pass(&mut nodes, branch, flow);
        }
    }
    Ok(nodes)
}

/// One MW at a place, in 10^-9.
fn one_at(place: usize, bus: usize) -> i64
    ensures size { unsigned_abs result ≤ factor_one }
    ensures is { result ≡ one_at place bus }
{
    if place == bus { FACTOR_ONE as i64 } else { 0 }
}

/// What leaves a bus and did not go in there.
fn missing_at(node: Node, goes_in: i64, goes_out: i64) -> i128
    requires node { IsWithin most_lines node }
    requires goes_in { unsigned_abs goes_in ≤ factor_one }
    requires goes_out { unsigned_abs goes_out ≤ factor_one }
    ensures size { unsigned_abs result < 10 ^ 37 }
    ensures is { result ≡ node.outflow -ℤ goes_in +ℤ goes_out }
{
    i128::from(node.outflow - goes_in + goes_out)
}

/// What rounding explains at a bus: half a unit of the last place for each branch there.
fn bound_at(node: Node, places: FactorPlaces) -> i128
    requires { IsWithin most_lines node }
    ensures { (count : ℕ) → node.branches ≡ pos count → result ≡ pos (5 * place_step places * count) }
{
    rounding(places, i128::from(node.branches))
}

/// The residual of a column at a bus.
fn bus_spot(network: &Network, node: Node, column: &Flow, bus: usize, places: FactorPlaces) -> Spot
    requires bus { bus < length network.now.buses }
    requires within { IsWithin most_lines node }
    ensures { (factors : FactorRecords) → places ≡ factors.places → node ≡ node_at (flows_of factors column.now.name) (kept column.now.lost network.now.branches) bus
        → result ≡ bus_spot network.now (column_of network.now factors column.now) bus }
{
    Spot {
        value: missing_at(node, one_at(column.source, bus), one_at(column.sink, bus)),
        bound: bound_at(node, places),
        at: bus_number(network, bus),
        of: column.name,
    }
}

/// Takes the residuals of a column at the buses in row order.
pub(crate) fn note_buses<K: TableKind>(
    alloc: Global,
    network: &Network,
    factors: &FactorTable<K>,
    column: &Flow,
    residual: Residual,
) -> Result<Residual, Memory>
    ensures { (spots : List Spot) → IsResidual spots residual
        → IfOk result (IsResidual (spots ++ bus_spots network.now (column_of network.now factors.now column.now))) }
{
    let nodes = nodes_of(alloc, network, factors, column)?;
    let places = factors.places();
    let mut residual = residual;
    for bus in 0..network.buses().len() {
        residual = residual.with(bus_spot(network, nodes[bus], column, bus, places));
    }
    Ok(residual)
}
