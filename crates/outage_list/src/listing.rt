//! Listing outages.

ghost use Rattle.std.specs.Prelude.{◌≡◌, ℕ, ◌+◌, ◌<◌, ◌≤◌, ◌^◌, length};
ghost use Rattle.outage_list.specs.Listing.{AreOutages, IsListed, IsTold};

use factor_tables::{OutageRows, is_live_branch, is_row};
use net_case::Network;
use net_paths::{Detour, without};
use plain_list::{List, Memory};
use std::alloc::Global;
use thiserror::Error;

/// Rows of live branches, each of which may be lost.
pub type Outages = List<u32>;

/// Why outages are not listed. A line is a record's place, where the header's is 1.
#[derive(Debug, Drop, Error)]
pub enum OutageFault {
    #[error("no branch row of the number in line {line}")]
    NoBranch { line: usize },
    #[error("the branch of line {line} is out of service")]
    DeadBranch { line: usize },
    #[error("line {line} repeats an earlier one")]
    Twice { line: usize },
    /// No other live branches join the two buses of the branch. The side are the numbers of the buses that stay joined to its T_BUS; F_BUS is not
    /// among them.
    #[error("branch {branch} islands {side:?}")]
    Islands { branch: u32, side: List<u32> },
    #[error("memory was refused")]
    Memory,
}

impl From<Memory> for OutageFault {
    ghost use Rattle.outage_list.specs.declared.listing.OutageFault.TheVariants as outage_fault;

    ghost from_gives = { λ _ fault. fault ≡ outage_fault.Memory };

    fn from(_refused: Memory) -> OutageFault {
        OutageFault::Memory
    }
}

/// The row of a live branch that may be lost, behind others.
fn outage_of(
    alloc: Global,
    network: &Network,
    before: &[u32],
    number: i64,
    line: usize,
) -> Result<u32, OutageFault>
    ensures { IsTold network.now before.now number line result }
{
    if !is_row(network, number) {
        return Err(OutageFault::NoBranch { line });
    }
    if !is_live_branch(network, number) {
        return Err(OutageFault::DeadBranch { line });
    }
    let row = number as u32;
    if before.contains(&row) {
        return Err(OutageFault::Twice { line });
    }
    match without(alloc, network, row) {
        Ok(Detour::Path(_)) => Ok(row),
        Ok(Detour::Side(side)) => Err(OutageFault::Islands { branch: row, side }),
        Err(Memory) => Err(OutageFault::Memory),
    }
}

/// Lists the outages of these numbers, or tells the first fault. `Memory` alone may come at any numbers.
pub fn listed(alloc: Global, network: &Network, rows: &OutageRows) -> Result<Outages, OutageFault>
    ensures { IsListed network.now rows.now result }
{
    let mut outages = List::new(alloc);
    for (place, number) in rows.slice().iter().enumerate() {
        let row = outage_of(alloc, network, outages.slice(), *number, place + 2)?;
        outages.push(row)?;
    }
    Ok(outages)
}
