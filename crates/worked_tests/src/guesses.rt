//! `flow_guess`: flows that are known by hand.

use flow_guess::{Guesser, Link, are_links};
use std::alloc::Global;

fn link(from: usize, to: usize, reactance: i128) -> Link {
    Link {
        from,
        to,
        reactance,
    }
}

/// What each link of a loop of sixteen carries at three places. The near way carries 15/16 and the far one 1/16, which are ties there.
const SIXTEENTHS: [i64; 16] = [
    -938, 63, 63, 63, 63, 63, 63, 63, 63, 63, 63, 63, 63, 63, 63, 63,
];

/// Whether these are what the links carry of 1 that goes from the second bus to the first, which is the reference.
fn are_flows(alloc: Global, buses: usize, links: &[Link], places: u8, flows: &[i64]) -> bool {
    if !are_links(buses, links) || places > 9 {
        return false;
    }
    let Ok(guesser) = Guesser::new(alloc, buses, 0, links) else {
        return false;
    };
    match guesser.carried(alloc, 1, 0, places) {
        Ok(told) => told.len() == flows.len()
            && told
                .slice()
                .iter()
                .zip(flows.iter())
                .all(|(told, flow)| *told == Some(*flow)),
        Err(_) => false,
    }
}

#[test]
fn loops_divide(rt: HostRuntime) {
    let apart = [link(0, 1, 10), link(0, 2, 10), link(1, 2, 20)];
    assert!(rt; are_flows(rt.alloc(), 3, &apart, 3, &[-750, -250, 250]));
    let alike = [link(0, 1, 7), link(0, 2, 7), link(1, 2, 7)];
    assert!(rt; are_flows(rt.alloc(), 3, &alike, 6, &[-666_667, -333_333, 333_333]));
    let mut ring = [link(0, 1, 30); 16];
    for bus in 1..16 {
        ring[bus] = link(bus, (bus + 1) % 16, 30);
    }
    assert!(rt; are_flows(rt.alloc(), 16, &ring, 3, &SIXTEENTHS));
}
