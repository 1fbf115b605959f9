//! The places that branches join to one place, by a search in breadth.

ghost use Rattle.std.specs.Prelude.{◌≡◌, ℕ, ◌<◌, [], ◌∷◌, ◌++◌, List, length, All, Contains, slice_index_or, is_some, IsSome, IfOk};
ghost use Rattle.net_case.specs.declared.live_parts.NetBranch.{NetBranch};
ghost use Rattle.net_case.specs.Networks.{IsNetBranch};
ghost use Rattle.net_paths.specs.declared.steps.Step.{Step};
ghost use Rattle.net_paths.specs.declared.search.Visit.{Visit};
ghost use Rattle.net_paths.specs.Chains.{start_of, end_of, Pass, Lead};
ghost use Rattle.net_paths.specs.Searching.{HasBranches, HasVisits, IsWayBack, place_at, IsIncidence, AreVisits, IsSearch, IsClosed, GoesOn, visit_at};

use crate::incidence::Incidence;
use crate::steps::Step;
use net_case::NetBranch;
use plain_list::{List, Memory};
use std::alloc::Global;

/// The step back from a place to that of an earlier visit.
#[derive(Clone, Copy, Debug)]
pub struct Back {
    pub step: Step,
    pub visit: usize,
}

/// A place that was visited, and the way back, but for the first one.
#[derive(Clone, Copy, Debug)]
pub struct Visit {
    pub place: usize,
    pub back: Option<Back>,
}

/// The visits in their order, and the number of each by its place.
#[derive(Drop, Debug)]
pub struct Search {
    pub visits: List<Visit>,
    pub seen: Vec<Option<usize>>,
}

impl Search {
    /// A search among so many places that has visited its root alone.
    fn begin(alloc: Global, places: usize, root: usize) -> Result<Search, Memory>
        requires { root < places }
        ensures { (branches : List NetBranch) → IfOk result (λ search. AreVisits branches places root search.visits search.seen.items) }
    {
        let mut seen = match vec![in alloc; None; places] {
            Ok(seen) => seen,
            Err(_) => return Err(Memory),
        };
        seen[root] = Some(0);
        let mut visits = List::new(alloc);
        visits.push(Visit {
            place: root,
            back: None,
        })?;
        Ok(Search { visits, seen })
    }

    /// Visits the end of a step from the place of a visit, where it is not visited yet.
    fn follow(&mut self, step: Step, visit: usize) -> Result<(), Memory>
        requires end { end_of step < length self.old.seen.items }
        requires visit { visit < length self.old.visits }
        ensures search { (branches : List NetBranch) (places root : ℕ) → AreVisits branches places root self.old.visits self.old.seen.items → Contains branches step.branch
            → ((d : Visit) → start_of step ≡ (slice_index_or self.old.visits visit d).place) → IfOk result (λ _. AreVisits branches places root self.new.visits self.new.seen.items) }
        ensures on { IfOk result (λ _. GoesOn self.old self.new) }
        ensures seen { IfOk result (λ _. IsSome (visit_at self.new.seen.items (end_of step))) }
        ensures room { length self.new.seen.items ≡ length self.old.seen.items }
    {
        let place = step.end();
        if self.seen[place].is_none() {
            let number = self.visits.len();
            self.visits.push(Visit {
                place,
                back: Some(Back {
                    step: step.turned(),
                    visit,
                }),
            })?;
            self.seen[place] = Some(number);
        }
        Ok(())
    }

    /// Follows the steps from the place of a visit.
    fn follow_all(&mut self, incidence: &Incidence, visit: usize) -> Result<(), Memory>
        requires branches { HasBranches incidence.now.lists.items }
        requires room { length self.old.seen.items ≡ length incidence.now.lists.items }
        requires visit { visit < length self.old.visits }
        requires place { (d : Visit) → (slice_index_or self.old.visits visit d).place < length incidence.now.lists.items }
        ensures visits { (branches : List NetBranch) (places root : ℕ) → IsIncidence branches places incidence.now.lists.items → AreVisits branches places root self.old.visits self.old.seen.items
            → IfOk result (λ _. AreVisits branches places root self.new.visits self.new.seen.items) }
        ensures on { IfOk result (λ _. GoesOn self.old self.new) }
        ensures seen { (place : ℕ) → ((d : Visit) → (slice_index_or self.old.visits visit d).place ≡ place)
            → IfOk result (λ _. All (λ s. IsSome (visit_at self.new.seen.items (end_of s))) (slice_index_or incidence.now.lists.items place [])) }
    {
        let place = self.visits.at(visit).place;
        for step in incidence.at(place) {
            self.follow(*step, visit)?;
        }
        Ok(())
    }

    /// Visits all places that the branches join to the root.
    pub fn new(alloc: Global, incidence: &Incidence, root: usize) -> Result<Search, Memory>
        requires branches { HasBranches incidence.now.lists.items }
        requires root { root < length incidence.now.lists.items }
        ensures { (branches : List NetBranch) → IsIncidence branches (length incidence.now.lists.items) incidence.now.lists.items
            → IfOk result (IsSearch branches (length incidence.now.lists.items) root) }
    {
        let places = incidence.lists.len();
        let mut search = Search::begin(alloc, places, root)?;
        for visit in 0..places {
            if visit == search.visits.len() {
                return Ok(search);
            }
            search.follow_all(incidence, visit)?;
        }
        Ok(search)
    }

    /// A search over branches between so many buses.
    pub fn over(
        alloc: Global,
        places: usize,
        branches: &[NetBranch],
        root: usize,
    ) -> Result<Search, Memory>
        requires branches { All (IsNetBranch places) branches.now }
        requires root { root < places }
        ensures { IfOk result (IsSearch branches.now places root) }
    {
        let incidence = Incidence::of(alloc, places, branches)?;
        Search::new(alloc, &incidence, root)
    }

    /// The number of the visit at a place.
    pub fn visit_of(&self, place: usize) -> Option<usize>
        requires { place < length self.now.seen.items }
        ensures { result ≡ visit_at self.now.seen.items place }
    {
        self.seen[place]
    }

    /// The steps from the place of a visit back to the root.
    pub fn way_back(&self, alloc: Global, visit: usize) -> Result<List<Step>, Memory>
        requires visits { HasVisits self.now }
        requires visit { visit < length self.now.visits }
        ensures { (branches : List NetBranch) (places root : ℕ) → AreVisits branches places root self.now.visits self.now.seen.items
            → IfOk result (IsWayBack branches (place_at self.now.visits visit) root) }
    {
        let mut steps = List::new(alloc);
        let mut visit = visit;
        while let Some(back) = self.visits.at(visit).back {
            steps.push(back.step)?;
            visit = back.visit;
        }
        Ok(steps)
    }
}
