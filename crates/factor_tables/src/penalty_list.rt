//! Penalties by limit.

ghost use Rattle.std.specs.Prelude.{◌≡◌, IfSome};
ghost use Rattle.factor_tables.specs.Penalties.{IsSoftness, softness_at};

use indexmap::IndexMap;
use std::marker::Model;

/// What lets a limit give way.
#[derive(Clone, Copy, Debug, PartialEq, Eq)]
pub struct Softness {
    /// What a MW beyond the limit costs, in 10^-6 per MWh.
    pub price: i64,
    /// The most by which a flow may exceed the limit, in 10^-9 MW.
    pub most_excess: i64,
}

/// The penalties of the limits that give way, by the row of the branch and whether it is the limit after an outage. Contracts see it
/// as the list of its records.
#[derive(Drop)]
pub struct Penalties {
    pub(crate) by_limit: IndexMap<(u32, bool), Softness>,
}

impl Model for Penalties {
    ghost use Rattle.std.specs.Prelude.{List};
    ghost use Rattle.factor_tables.specs.Penalties.{ArePenalties, PenaltyEntry};

    ghost Value = { List PenaltyEntry };

    ghost view = { λ penalties. penalties.by_limit.entries };

    ghost invariant = { λ penalties. ArePenalties penalties.by_limit.entries };
}

impl Penalties {
    /// The penalty of the limit after an outage, or else of that in the base, of a branch's row, where it has a record.
    pub fn softness(&self, branch: u32, post: bool) -> Option<Softness>
        ensures kept { IfSome result IsSoftness }
        ensures is { result ≡ softness_at self.now (branch, post) }
    {
        self.by_limit.get(&(branch, post)).copied()
    }
}
