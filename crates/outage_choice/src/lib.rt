//! Which branches of a network may be listed as outages: those that have a way round.
#![tactic(auto)]

ghost use Rattle.std.specs.Prelude.{IfOk, true, false, ◌≡◌};
ghost use Rattle.net_paths.specs.Detours.{IsLiveRow};
ghost use Rattle.outage_list.specs.Listing.{IsOutage};
ghost use Rattle.outage_choice.specs.Choices.{IsOutageChoice, IsRadial};

use net_case::Network;
use net_paths::{Detour, without};
use plain_list::{List, Memory};
use std::alloc::Global;

pub mod laws;

/// The rows of the live branches of a network, by what the loss of each leaves.
#[derive(Drop, Debug)]
pub struct OutageChoice {
    /// Those whose loss parts no bus from the others, in row order.
    pub listed: List<u32>,
    /// The radial ones, whose loss does, in row order.
    pub radial: List<u32>,
}

/// Whether other live branches lead round the live branch of a row.
fn has_way_round(alloc: Global, network: &Network, row: u32) -> Result<bool, Memory>
    requires { IsLiveRow network.now row }
    ensures yes { IfOk result (λ round. round ≡ true → IsOutage network.now row) }
    ensures no { IfOk result (λ round. round ≡ false → IsRadial network.now row) }
{
    match without(alloc, network, row)? {
        Detour::Path(_) => Ok(true),
        Detour::Side(_) => Ok(false),
    }
}

/// Parts the live branches into those that may be listed as outages and the radial ones.
pub fn choose_outages(alloc: Global, network: &Network) -> Result<OutageChoice, Memory>
    ensures { IfOk result (IsOutageChoice network.now) }
{
    let mut listed = List::new(alloc);
    let mut radial = List::new(alloc);
    for branch in network.branches().slice() {
        if has_way_round(alloc, network, branch.row)? {
            listed.push(branch.row)?;
        } else {
            radial.push(branch.row)?;
        }
    }
    Ok(OutageChoice { listed, radial })
}
