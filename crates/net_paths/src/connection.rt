//! Whether the live branches join all live buses.

ghost use Rattle.std.specs.Prelude.{◌≡◌, ℕ, ◌<◌, length, slice_index, is_some, IsSome, IsNone, MatchOption, OnOk, IfErr, None, Some};
ghost use Rattle.net_paths.specs.Searching.{visit_at};
ghost use Rattle.net_paths.specs.Connection.{JoinAll, IsPathStop};

use crate::parts::{bus_count, bus_number, live_branches};
use crate::search::Search;
use net_case::Network;
use plain_list::Memory;
use std::alloc::Global;

/// Why a network is not known to be connected.
#[derive(Clone, Copy, Debug, PartialEq, Eq)]
pub enum PathStop {
    /// The number of the first live bus that no live branches join to the first one.
    Split { bus: u32 },
    Memory,
}

impl From<Memory> for PathStop {
    ghost use Rattle.net_paths.specs.declared.connection.PathStop.TheVariants as stop;

    ghost from_gives = { λ _ why. why ≡ stop.Memory };

    fn from(_refused: Memory) -> PathStop {
        PathStop::Memory
    }
}

/// The first place that a search has not visited.
fn first_apart(search: &Search) -> Option<usize>
    ensures { MatchOption result ((p : ℕ) → p < length search.now.seen.items → IsSome (visit_at search.now.seen.items p))
        (λ apart. (apart < length search.now.seen.items) × (visit_at search.now.seen.items apart ≡ None)
        × ((p : ℕ) → p < apart → IsSome (visit_at search.now.seen.items p))) }
{
    for place in 0..search.seen.len() {
        if search.visit_of(place).is_none() {
            return Some(place);
        }
    }
    None
}

/// Whether the live branches join all live buses to the first one.
pub fn connected(alloc: Global, network: &Network) -> Result<(), PathStop>
    ensures joined { OnOk result (JoinAll network.now.branches (length network.now.buses)) }
    ensures stop { IfErr result (IsPathStop network.now) }
{
    let places = bus_count(network);
    if places == 0 {
        return Ok(());
    }
    let search = Search::over(alloc, places, live_branches(network), 0)?;
    match first_apart(&search) {
        Some(place) => Err(PathStop::Split {
            bus: bus_number(network, place),
        }),
        None => Ok(()),
    }
}
