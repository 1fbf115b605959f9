// The numbers of the calls that are to fail, the first call being number 0.
ghost use Rattle.std.specs.Prelude.{◌≡◌, ℕ, IfOk, IsTrue, ◌↔◌};
ghost use Rattle.outside_store.specs.Plan.{IsNextListed, advanced};

use std::alloc::{AllocError, Global};
use std::marker::Model;

#[derive(Drop)]
pub(crate) struct FailurePlan {
    numbers: Vec<u64>,
    count: u64,
}

impl Model for FailurePlan {
    ghost use Rattle.outside_store.specs.Plan.{Plan};

    ghost Value = { Plan };

    ghost view = { λ plan. record { failing = plan.numbers.items; calls = plan.count } };
}

impl FailurePlan {
    pub(crate) fn new(alloc: Global, failing: &[u64]) -> Result<FailurePlan, AllocError>
        ensures { IfOk result (λ plan. plan ≡ record { failing = failing.now; calls = 0 }) }
    {
        let numbers = Vec::from_slice(alloc, failing)?;
        Ok(FailurePlan { numbers, count: 0 })
    }

    pub(crate) fn calls(&self) -> u64
        ensures { result ≡ self.now.calls }
    {
        self.count
    }

    /// Counts a call, and says whether it is to fail.
    pub(crate) fn next_fails(&mut self) -> bool
        ensures listed { IsTrue result ↔ IsNextListed self.old }
        ensures counted { self.new ≡ advanced self.old }
    {
        let number = self.count;
        self.count = number.saturating_add(1);
        self.numbers.contains(&number)
    }
}
