//! Reading a network from the matrices of a case.

ghost use Rattle.std.specs.Prelude.{◌≡◌, ◌≢◌, IfOk, Err};
ghost use Rattle.net_case.specs.Networks.{IsNetwork};
ghost use Rattle.net_case.specs.NetworkReading.{network_of};

use crate::branch_rows::{count_branches, read_branches};
use crate::bus_rows::read_buses;
use crate::cells::row_count;
use crate::gen_rows::read_units;
use crate::live_parts::{Branches, NetFault, Network};
use case_text::{Field, RawCase};
use market_data::{MOST_BUSES, MOST_UNITS};
use std::alloc::Global;

/// The network of a case.
#[tactic(auto, unfolding(crate::specs::NetworkReading::network_of))]
pub fn network(alloc: Global, case: &RawCase<'_>, branches: Branches) -> Result<Network, NetFault>
    ensures network { IfOk result IsNetwork }
    ensures is { result ≢ Err NetFault.Memory → result ≡ network_of branches case.now }
{
    row_count(case, Field::Bus, MOST_BUSES)?;
    let gen_rows = row_count(case, Field::Gen, MOST_UNITS)?;
    let branch_rows = count_branches(case, branches)?;
    let rows = read_buses(alloc, case)?;
    let units = read_units(alloc, case, &rows.places, gen_rows)?;
    let branches = read_branches(alloc, case, &rows.places, branches, branch_rows)?;
    Ok(Network {
        buses: rows.buses,
        units,
        branches,
        reference: rows.reference,
        gen_rows,
        branch_rows,
        places: rows.places,
    })
}
