//! The branches at each bus.

ghost use Rattle.std.specs.Prelude.{◌≡◌, ℕ, ◌<◌, [], ◌∷◌, ◌++◌, List, length, All, slice_index_or, IfOk};
ghost use Rattle.net_case.specs.declared.live_parts.NetBranch.{NetBranch};
ghost use Rattle.net_case.specs.Networks.{IsNetBranch};
ghost use Rattle.net_paths.specs.Chains.{start_of};
ghost use Rattle.net_paths.specs.Searching.{IsIncidence, with_step};

use crate::steps::Step;
use net_case::NetBranch;
use plain_list::{List, Memory};
use std::alloc::Global;

/// For each place of a bus the steps that begin there.
#[derive(Drop, Debug)]
pub struct Incidence {
    pub lists: Vec<List<Step>>,
}

impl Incidence {
    /// So many buses, at which no branch stands.
    pub fn new(alloc: Global, places: usize) -> Result<Incidence, Memory>
        ensures { IfOk result (λ made. IsIncidence [] places made.lists.items) }
    {
        let mut lists = Vec::new(alloc);
        for _place in 0..places {
            match lists.push(List::new(alloc)) {
                Ok(()) => {}
                Err(_) => return Err(Memory),
            }
        }
        Ok(Incidence { lists })
    }

    fn add_step(&mut self, step: Step) -> Result<(), Memory>
        requires { start_of step < length self.old.lists.items }
        ensures { IfOk result (λ _. self.new.lists.items ≡ with_step self.old.lists.items step) }
    {
        self.lists[step.start()].push(step)
    }

    /// Adds a branch, at both of its buses.
    pub fn add(&mut self, branch: NetBranch) -> Result<(), Memory>
        requires { IsNetBranch (length self.old.lists.items) branch }
        ensures { (before : List NetBranch) → IsIncidence before (length self.old.lists.items) self.old.lists.items
            → IfOk result (λ _. IsIncidence (before ++ branch ∷ []) (length self.old.lists.items) self.new.lists.items) }
    {
        self.add_step(Step {
            branch,
            forward: true,
        })?;
        self.add_step(Step {
            branch,
            forward: false,
        })
    }

    /// The steps along branches between so many buses.
    pub fn of(alloc: Global, places: usize, branches: &[NetBranch]) -> Result<Incidence, Memory>
        requires { All (IsNetBranch places) branches.now }
        ensures { IfOk result (λ made. IsIncidence branches.now places made.lists.items) }
    {
        let mut incidence = Incidence::new(alloc, places)?;
        for branch in branches {
            incidence.add(*branch)?;
        }
        Ok(incidence)
    }

    /// The steps that begin at a place.
    pub fn at(&self, place: usize) -> &[Step]
        requires { place < length self.now.lists.items }
        ensures { result.now ≡ slice_index_or self.now.lists.items place [] }
    {
        self.lists[place].slice()
    }
}
