//! The way round a branch that is lost, or the side that its loss parts off.

ghost use Rattle.std.specs.Prelude.{◌≡◌, ℕ, ◌<◌, ◌==◌, not, List, [], length, filter, map, All, Contains, IfOk, slice_index_or};
ghost use Rattle.net_case.specs.declared.live_parts.NetBranch.{NetBranch};
ghost use Rattle.net_case.specs.Networks.{IsNetBranch, IsNetwork};
ghost use Rattle.net_paths.specs.Searching.{visit_at, IsSearch};
ghost use Rattle.net_paths.specs.Detours.{others, IsLiveRow, IsBranchOf, IsDetour, HoldsSide};

use crate::parts::{bus_count, bus_number, live_branches};
use crate::search::Search;
use crate::steps::Step;
use net_case::{NetBranch, Network};
use plain_list::{List, Memory};
use std::alloc::Global;

/// What is left between the buses of a branch that is lost.
#[derive(Drop, Debug)]
pub enum Detour {
    /// The rows of branches that lead from its F_BUS to its T_BUS, at no bus twice.
    Path(List<u32>),
    /// The numbers of the buses that stay joined to its T_BUS, in row order. F_BUS is not among them.
    Side(List<u32>),
}

/// The live branch of a row.
pub fn branch_of(network: &Network, row: u32) -> NetBranch
    requires { IsLiveRow network.now row }
    ensures is { IsBranchOf network.now row result }
    ensures ends { All (IsNetBranch (length network.now.buses)) network.now.branches }
    ensures network { IsNetwork network.now }
{
    for branch in live_branches(network) {
        if branch.row == row {
            return *branch;
        }
    }
    unreachable!()
}

/// The branches of other rows.
fn other_branches(
    alloc: Global,
    branches: &[NetBranch],
    row: u32,
) -> Result<List<NetBranch>, Memory>
    ensures { IfOk result (λ kept. kept ≡ others row branches.now) }
{
    let mut kept = List::new(alloc);
    for branch in branches {
        if branch.row != row {
            kept.push(*branch)?;
        }
    }
    Ok(kept)
}

fn rows_of(alloc: Global, steps: &[Step]) -> Result<List<u32>, Memory>
    ensures { IfOk result (λ rows. rows ≡ map (λ s. s.branch.row) steps.now) }
{
    let mut rows = List::new(alloc);
    for step in steps {
        rows.push(step.branch.row)?;
    }
    Ok(rows)
}

/// The numbers of the buses at the places that a search has visited, in row order.
fn visited_numbers(alloc: Global, network: &Network, search: &Search) -> Result<List<u32>, Memory>
    requires { length search.now.seen.items ≡ length network.now.buses }
    ensures { IfOk result (HoldsSide network.now search.now.seen.items (length network.now.buses)) }
{
    let mut numbers = List::new(alloc);
    for place in 0..bus_count(network) {
        if search.visit_of(place).is_some() {
            numbers.push(bus_number(network, place))?;
        }
    }
    Ok(numbers)
}

/// A search over the live branches of other rows.
fn search_without(alloc: Global, network: &Network, row: u32, root: usize) -> Result<Search, Memory>
    requires { root < length network.now.buses }
    ensures { IfOk result (IsSearch (others row network.now.branches) (length network.now.buses) root) }
{
    let kept = other_branches(alloc, live_branches(network), row)?;
    Search::over(alloc, bus_count(network), kept.slice(), root)
}

/// The way from the F_BUS of a live branch to its T_BUS without it, or the side of its T_BUS.
pub fn without(alloc: Global, network: &Network, k: u32) -> Result<Detour, Memory>
    requires { IsLiveRow network.now k }
    ensures { IfOk result (λ detour. (branch : NetBranch) × IsBranchOf network.now k branch × IsDetour network.now branch detour) }
{
    let branch = branch_of(network, k);
    let search = search_without(alloc, network, k, branch.to)?;
    match search.visit_of(branch.from) {
        Some(visit) => {
            let steps = search.way_back(alloc, visit)?;
            let rows = rows_of(alloc, steps.slice())?;
            Ok(Detour::Path(rows))
        }
        None => {
            let numbers = visited_numbers(alloc, network, &search)?;
            Ok(Detour::Side(numbers))
        }
    }
}
