//! Whether the tables have what the limits and the outages of a market want.

ghost use Rattle.std.specs.Prelude.{◌≡◌, ◌||◌, ◌&&◌, not, length, option_map, is_some, nat_lt};
ghost use Rattle.std.specs.List.{find};
ghost use Rattle.factor_tables.specs.Covering.{cover_of, is_listed, lacks_shift, needs_shift};
ghost use Rattle.factor_tables.specs.Factors.{has_outage};

use crate::by_pair::{Loss, Shift};
use net_case::{NetBranch, Network};

/// What a table of factors lacks.
#[derive(Clone, Copy, Debug, PartialEq, Eq)]
pub enum Uncovered {
    /// A branch with a limit, or one whose outage is listed, has no record in the shift table.
    NoShift { branch: u32 },
    /// No record of the outage table is of a listed outage.
    NoLoss { branch: u32 },
}

/// Whether a branch has to have a record in the shift table.
#[tactic(auto, unfolding(crate::specs::Covering::needs_shift))]
fn needs_shift(branch: &NetBranch, outages: &[u32], units: bool) -> bool
    ensures { result ≡ needs_shift outages.now units branch.now }
{
    branch.base.is_some()
        || outages.contains(&branch.row)
        || (branch.post.is_some() && (!outages.is_empty() || units))
}

/// Whether a branch has to have a record in the shift table and has none.
fn lacks_shift(shift: &Shift, branch: &NetBranch, outages: &[u32], units: bool) -> bool
    ensures { result ≡ lacks_shift shift.now.entries outages.now units branch.now }
{
    needs_shift(branch, outages, units) && !shift.has(branch.row)
}

/// The row of the first branch that has to have a record in the shift table and has none.
fn without_shift(branches: &[NetBranch], shift: &Shift, outages: &[u32], units: bool) -> Option<u32>
    ensures { result ≡ option_map (λ branch. branch.row) (find (lacks_shift shift.now.entries outages.now units) branches.now) }
{
    for branch in branches {
        if lacks_shift(shift, branch, outages, units) {
            return Some(branch.row);
        }
    }
    None
}

/// The first of some outages that the outage table has no record of.
fn without_loss(loss: &Loss, outages: &[u32]) -> Option<u32>
    ensures { result ≡ find (λ outage. not (has_outage loss.now.entries outage)) outages.now }
{
    for outage in outages {
        if !loss.has(*outage) {
            return Some(*outage);
        }
    }
    None
}

/// Whether each live branch that needs a record in the shift table has one, and each outage of the list one in the outage table. A
/// branch needs one where it has a base limit, where it is listed, and where it has a post-outage limit and some outage is listed;
/// `units` tells whether one of a unit is.
#[tactic(auto, unfolding(crate::specs::Covering::cover_of))]
pub fn cover(
    network: &Network,
    shift: &Shift,
    loss: &Loss,
    outages: &[u32],
    units: bool,
) -> Result<(), Uncovered>
    ensures { result ≡ cover_of network.now shift.now.entries loss.now.entries outages.now units }
{
    let branches = network.branches().slice();
    if let Some(branch) = without_shift(branches, shift, outages, units) {
        return Err(Uncovered::NoShift { branch });
    }
    if let Some(branch) = without_loss(loss, outages) {
        return Err(Uncovered::NoLoss { branch });
    }
    Ok(())
}
