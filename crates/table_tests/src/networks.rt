//! The networks of the tests.

use case_text::read_case;
use net_case::{Branches, Network, PostRating, network};
use std::alloc::Global;

/// The live network of a case, where it has one.
pub(crate) fn read_network(alloc: Global, case: &str) -> Option<Network> {
    match read_case(alloc, case.as_bytes()) {
        Ok(case) => network(alloc, &case, Branches::Read(PostRating::C)).ok(),
        Err(_) => None,
    }
}
