//! What the flows come to round a loop.

ghost use Rattle.std.specs.Prelude.{◌≡◌, ◌++◌, ◌≤◌, ◌<◌, ◌+◌, ◌^◌, ◌*ℤ◌, ℕ, List, length, unsigned_abs, All};
ghost use Rattle.market_data.specs.Scales.{most_buses, most_factor, most_scaled_reactance};
ghost use Rattle.factor_residuals.specs.Kirchhoff.{loop_spot, reactance_at, directed, first_branch};
ghost use Rattle.factor_residuals.specs.Columns.{IsLoopSum, with_drop, column_of};
ghost use Rattle.factor_residuals.specs.Residuals.{AreReactances, IsResidual, loop_spots};

use crate::columns::{Flow, rounding};
use crate::spots::{Residual, Spot};
use factor_tables::{FactorTable, TableKind};
use net_case::{Network, Reactances};
use net_paths::{Loops, Member};

/// The reactance times the ratio of the branch of a row, in 10^-18.
fn reactance_at(network: &Network, reactances: &Reactances, row: u32) -> i128
    requires { AreReactances network.now reactances.now }
    ensures size { unsigned_abs result ≤ most_scaled_reactance }
    ensures is { result ≡ reactance_at network.now reactances.now row }
{
    match network.branch_place(i64::from(row)) {
        Some(place) => *reactances.at(place),
        None => 0,
    }
}

/// What some branches of a loop come to: their products of reactance and flow, and the sizes of their reactances.
#[derive(Clone, Copy, Debug)]
struct LoopSum {
    miss: i128,
    sizes: i128,
}

/// The product of reactance and flow, with minus where the branch is passed from T_BUS to F_BUS.
fn drop_over(reactance: i128, flow: i64, forward: bool) -> i128
    requires reactance { unsigned_abs reactance ≤ most_scaled_reactance }
    requires flow { unsigned_abs flow ≤ most_factor }
    ensures size { unsigned_abs result ≤ 10 ^ 34 }
    ensures is { result ≡ directed forward (reactance *ℤ flow) }
{
    let drop = reactance * i128::from(flow);
    if forward { drop } else { -drop }
}

/// With one branch more.
fn with_drop(loop_sum: LoopSum, reactance: i128, flow: i64, forward: bool) -> LoopSum
    requires reactance { unsigned_abs reactance ≤ most_scaled_reactance }
    requires flow { unsigned_abs flow ≤ most_factor }
    requires loop_sum { IsLoopSum most_buses loop_sum }
    ensures is { result ≡ with_drop loop_sum (directed forward (reactance *ℤ flow)) reactance }
    ensures grows { (k : ℕ) → IsLoopSum k loop_sum → IsLoopSum (k + 1) result }
{
    LoopSum {
        miss: loop_sum.miss + drop_over(reactance, flow, forward),
        sizes: loop_sum.sizes + reactance.abs(),
    }
}

/// The row of a loop's first branch.
fn first_branch(members: &[Member]) -> u32
    ensures { result ≡ first_branch members.now }
{
    match members.first() {
        Some(member) => member.branch,
        None => 0,
    }
}

/// The residual of a column round a loop.
fn loop_spot<K: TableKind>(
    network: &Network,
    reactances: &Reactances,
    factors: &FactorTable<K>,
    column: &Flow,
    members: &[Member],
) -> Spot
    requires reactances { AreReactances network.now reactances.now }
    requires few { length members.now ≤ most_buses }
    ensures { result ≡ loop_spot (reactance_at network.now reactances.now) (column_of network.now factors.now column.now) members.now }
{
    let mut loop_sum = LoopSum { miss: 0, sizes: 0 };
    for member in members {
        let reactance = reactance_at(network, reactances, member.branch);
        let flow = factors.factor(member.branch, column.name);
        loop_sum = with_drop(loop_sum, reactance, flow, member.forward);
    }
    Spot {
        value: loop_sum.miss,
        bound: rounding(factors.places(), loop_sum.sizes),
        at: first_branch(members),
        of: column.name,
    }
}

/// Takes the residuals of a column round the loops in their order.
pub(crate) fn note_loops<K: TableKind>(
    network: &Network,
    reactances: &Reactances,
    factors: &FactorTable<K>,
    column: &Flow,
    loops: &Loops,
    residual: Residual,
) -> Residual
    requires reactances { AreReactances network.now reactances.now }
    requires few { All (λ members. length members ≤ most_buses) loops.now }
    ensures { (spots : List Spot) → IsResidual spots residual
        → IsResidual (spots ++ loop_spots network.now reactances.now loops.now (column_of network.now factors.now column.now)) result }
{
    let mut residual = residual;
    for members in loops.slice() {
        residual = residual.with(loop_spot(network, reactances, factors, column, members.slice()));
    }
    residual
}
