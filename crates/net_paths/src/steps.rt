//! A branch that is passed in one of its two directions.

ghost use Rattle.std.specs.Prelude.{◌≡◌, not};
ghost use Rattle.net_paths.specs.Chains.{start_of, end_of, turned};

use net_case::NetBranch;

/// A branch that is passed, forward from its F_BUS to its T_BUS or the other way round.
#[derive(Clone, Copy, Debug)]
pub struct Step {
    pub branch: NetBranch,
    pub forward: bool,
}

impl Step {
    /// The place of the bus where it begins.
    pub fn start(&self) -> usize
        ensures { result ≡ start_of self.now }
    {
        if self.forward {
            self.branch.from
        } else {
            self.branch.to
        }
    }

    /// The place of the bus where it ends.
    pub fn end(&self) -> usize
        ensures { result ≡ end_of self.now }
    {
        if self.forward {
            self.branch.to
        } else {
            self.branch.from
        }
    }

    /// The same branch the other way round.
    pub fn turned(&self) -> Step
        ensures { result ≡ turned self.now }
    {
        Step {
            branch: self.branch,
            forward: !self.forward,
        }
    }
}
