//! The loops that the branches outside a tree close.

ghost use Rattle.std.specs.Prelude.{◌≡◌, ℕ, ◌<◌, List, [], ◌∷◌, ◌++◌, length, IfOk, MatchOption, true, map};
ghost use Rattle.net_case.specs.declared.live_parts.NetBranch.{NetBranch};
ghost use Rattle.net_case.specs.Networks.{IsNetBranch};
ghost use Rattle.net_paths.specs.Chains.{AreJoined};
ghost use Rattle.net_paths.specs.Searching.{IsIncidence, HasBranches, IsWayBack};
ghost use Rattle.net_paths.specs.Loops.{is_lost, kept, members_of, HoldsTree, AreLoops};

use crate::incidence::Incidence;
use crate::parts::{bus_count, live_branches};
use crate::search::Search;
use crate::steps::Step;
use net_case::{NetBranch, Network};
use plain_list::{List, Memory};
use std::alloc::Global;

/// A branch of a loop, by its row.
#[derive(Clone, Copy, Debug, PartialEq, Eq)]
pub struct Member {
    pub branch: u32,
    /// Whether it is passed from its F_BUS to its T_BUS.
    pub forward: bool,
}

/// The branches of a loop, each beginning at the bus where the one before it ends.
pub type Loop = List<Member>;

pub type Loops = List<Loop>;

/// Whether a branch is the lost one.
pub fn is_lost(lost: Option<u32>, branch: &NetBranch) -> bool
    ensures { result ≡ is_lost lost branch.now }
{
    match lost {
        Some(row) => branch.row == row,
        None => false,
    }
}

/// The way from a branch's T_BUS back to its F_BUS through a tree, where the tree joins them.
fn way_through(
    alloc: Global,
    tree: &Incidence,
    branch: &NetBranch,
) -> Result<Option<List<Step>>, Memory>
    requires tree { HasBranches tree.now.lists.items }
    requires branch { IsNetBranch (length tree.now.lists.items) branch.now }
    ensures { (branches : List NetBranch) → IsIncidence branches (length tree.now.lists.items) tree.now.lists.items
        → IfOk result (λ way. MatchOption way (¬ AreJoined branches branch.now.from branch.now.to) (IsWayBack branches branch.now.to branch.now.from)) }
{
    let search = Search::new(alloc, tree, branch.from)?;
    match search.visit_of(branch.to) {
        Some(visit) => {
            let steps = search.way_back(alloc, visit)?;
            Ok(Some(steps))
        }
        None => Ok(None),
    }
}

fn member_of(step: &Step) -> Member
    ensures { result ≡ record { branch = step.now.branch.row; forward = step.now.forward } }
{
    Member {
        branch: step.branch.row,
        forward: step.forward,
    }
}

/// The loop that begins with a branch and goes back by these steps.
fn closed_loop(alloc: Global, branch: NetBranch, way: &[Step]) -> Result<Loop, Memory>
    ensures { IfOk result (λ made. made ≡ members_of (record { branch = branch; forward = true } ∷ way.now)) }
{
    let mut made = List::new(alloc);
    made.push(member_of(&Step {
        branch,
        forward: true,
    }))?;
    for step in way {
        made.push(member_of(step))?;
    }
    Ok(made)
}

/// Takes a branch into the tree, or where the tree joins its buses the loop that it closes.
fn take_branch(
    alloc: Global,
    tree: &mut Incidence,
    loops: &mut Loops,
    branch: NetBranch,
) -> Result<(), Memory>
    requires tree { HasBranches tree.old.lists.items }
    requires branch { IsNetBranch (length tree.old.lists.items) branch }
    ensures { (branches : List NetBranch) → HoldsTree branches (length tree.old.lists.items) tree.old.lists.items loops.old
        → IfOk result (λ _. HoldsTree (branches ++ branch ∷ []) (length tree.old.lists.items) tree.new.lists.items loops.new) }
{
    match way_through(alloc, tree, &branch)? {
        Some(way) => {
            let made = closed_loop(alloc, branch, way.slice())?;
            loops.push(made)
        }
        None => tree.add(branch),
    }
}

/// One loop for each live branch that no tree branch is, the lost one left out. The tree's are,
/// in row order, those that join two parts not joined by tree branches before them.
pub fn loops(alloc: Global, network: &Network, lost: Option<u32>) -> Result<Loops, Memory>
    ensures { IfOk result (AreLoops (kept lost network.now.branches)) }
{
    let mut tree = Incidence::new(alloc, bus_count(network))?;
    let mut loops = List::new(alloc);
    for branch in live_branches(network) {
        if !is_lost(lost, branch) {
            take_branch(alloc, &mut tree, &mut loops, *branch)?;
        }
    }
    Ok(loops)
}
