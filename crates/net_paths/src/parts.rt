//! The buses and branches of a network, by what contracts say of them.

ghost use Rattle.std.specs.Prelude.{◌≡◌, ◌<◌, length, All};
ghost use Rattle.net_case.specs.Networks.{IsNetBranch, IsNetwork};
ghost use Rattle.net_paths.specs.Connection.{bus_number};

use net_case::{NetBranch, Network};

/// The number of live buses.
pub fn bus_count(network: &Network) -> usize
    ensures { result ≡ length network.now.buses }
{
    network.buses().len()
}

/// The number of the bus at a place.
pub fn bus_number(network: &Network, place: usize) -> u32
    requires { place < length network.now.buses }
    ensures { result ≡ bus_number network.now place }
{
    network.buses().at(place).number
}

/// The live branches.
pub fn live_branches(network: &Network) -> &[NetBranch]
    ensures list { result.now ≡ network.now.branches }
    ensures ends { All (IsNetBranch (length network.now.buses)) network.now.branches }
    ensures network { IsNetwork network.now }
{
    network.branches().slice()
}
