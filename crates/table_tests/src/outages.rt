//! `outage_list`: outages of branches and of units.

use crate::networks::read_network;
use factor_tables::outage_rows;
use market_model::Pickup;
use outage_choice::choose_outages;
use outage_list::{OutageFault, Outages, UnitOutageFault, UnitOutages, listed, unit_outages};
use record_reading::{FrameFault, Why};
use std::alloc::Global;
use std::test::Fail;

/// Buses 1, 2, 3 in a line and 4 in a triangle with 1 and 2; branch 5 is out of service.
const CASE: &str = "function mpc = line
mpc.version = '2';
mpc.baseMVA = 100;
mpc.bus = [
1 3 0 0 0 0 1 1 0 230 1 1.1 0.9;
2 1 0 0 0 0 1 1 0 230 1 1.1 0.9;
3 1 60 0 0 0 1 1 0 230 1 1.1 0.9;
4 1 0 0 0 0 1 1 0 230 1 1.1 0.9;
];
mpc.gen = [
1 0 0 0 0 1 100 1 100 0;
2 0 0 0 0 1 100 0 100 0;
2 0 0 0 0 1 100 1 100 0;
4 0 0 0 0 1 100 1 100 0;
];
mpc.branch = [
1 2 0 0.2 0 0 0 0 0 0 1 -360 360;
2 3 0 0.1 0 0 0 0 0 0 1 -360 360;
2 4 0 0.1 0 0 0 0 0 0 1 -360 360;
4 1 0 0.1 0 0 0 0 0 0 1 -360 360;
2 3 0 0.1 0 0 0 0 0 0 0 -360 360;
];
";

/// The outages of branches that a table lists.
fn branches_lost(alloc: Global, table: &str) -> Result<Outages, OutageFault> {
    let Some(network) = read_network(alloc, CASE) else {
        return Err(OutageFault::Memory);
    };
    match outage_rows(alloc, table.as_bytes()) {
        Ok(rows) => listed(alloc, &network, &rows),
        Err(_) => Err(OutageFault::Memory),
    }
}

#[test]
fn lists_outages(rt: HostRuntime) -> Result<(), Fail> {
    let outages = branches_lost(rt.alloc(), "branch\n4\n1\n3\n")?;
    assert_eq!(rt; outages.slice(), [4, 1, 3].as_slice());
    Ok(())
}

/// Branch 2 is radial, and branch 5 out of service.
#[test]
fn chooses_outages(rt: HostRuntime) -> Result<(), Fail> {
    let Some(network) = read_network(rt.alloc(), CASE) else {
        panic!(&rt; "no network");
    };
    let choice = choose_outages(rt.alloc(), &network)?;
    assert_eq!(rt; choice.listed.slice(), [1, 3, 4].as_slice());
    assert_eq!(rt; choice.radial.slice(), [2].as_slice());
    Ok(())
}

/// Tables that are refused, each with its first fault.
const FAULTS: &[(&str, &str)] = &[
    ("branch\n1\n6\n5\n", "NoBranch { line: 3 }"),
    // Bus 3 hangs on branch 2 alone.
    (
        "branch\n1\n2\n2\n",
        "Islands { branch: 2, side: List { items: [3] } }",
    ),
    ("branch\n0\n", "NoBranch { line: 2 }"),
    ("branch\n5\n", "DeadBranch { line: 2 }"),
    ("branch\n1\n3\n1\n2\n", "Twice { line: 4 }"),
];

/// Whether a table is refused for this fault.
fn is_refused(alloc: Global, table: &str, want: &str) -> bool {
    match branches_lost(alloc, table) {
        Err(fault) => match format!(in alloc; "{fault:?}") {
            Ok(told) => told.as_str() == want,
            Err(_) => false,
        },
        Ok(_) => false,
    }
}

#[test]
fn tells_the_first_fault_of_branches(rt: HostRuntime) {
    for (table, want) in FAULTS {
        assert!(rt; is_refused(rt.alloc(), *table, *want), "{want}");
    }
}

/// The outages of units that these records list.
fn units_lost(alloc: Global, records: &str) -> Result<UnitOutages, UnitOutageFault> {
    let Some(network) = read_network(alloc, CASE) else {
        return Err(UnitOutageFault::Memory);
    };
    match format!(in alloc; "unit,taker,share\n{records}") {
        Ok(table) => unit_outages(alloc, &network, table.as_bytes()),
        Err(_) => Err(UnitOutageFault::Memory),
    }
}

#[test]
fn lists_outages_of_units(rt: HostRuntime) -> Result<(), Fail> {
    let outages = units_lost(rt.alloc(), "4,1,0.25\n1,3,1\n4,3,0.75\n")?;
    assert_eq!(rt; outages.lost.slice(), [2, 0].as_slice());
    let wanted = [
        Pickup {
            outage: 0,
            taker: 0,
            share: 250_000,
        },
        Pickup {
            outage: 1,
            taker: 1,
            share: 1_000_000,
        },
        Pickup {
            outage: 0,
            taker: 1,
            share: 750_000,
        },
    ];
    assert_eq!(rt; outages.pickups.slice(), wanted.as_slice());
    Ok(())
}

/// Records that are refused, each list with its first fault.
const UNIT_FAULTS: &[(&str, UnitOutageFault)] = &[
    ("1,5,-1\n", UnitOutageFault::NoUnit { line: 2 }),
    ("1,3,1\n0,2,1\n", UnitOutageFault::NoUnit { line: 3 }),
    ("1,2,-1\n", UnitOutageFault::DeadUnit { line: 2 }),
    ("2,2,1\n", UnitOutageFault::DeadUnit { line: 2 }),
    ("3,3,0\n", UnitOutageFault::SameUnit { line: 2 }),
    ("1,3,0\n", UnitOutageFault::Share { line: 2 }),
    ("1,3,0.5\n1,3,-0.5\n", UnitOutageFault::Share { line: 3 }),
    (
        "1,3,0.5\n3,1,1\n1,3,0.5\n",
        UnitOutageFault::Twice { line: 4 },
    ),
    (
        "3,1,1\n1,3,0.5\n4,1,1.5\n1,4,0.4\n",
        UnitOutageFault::ShareSum {
            unit: 1,
            sum: 900_000,
        },
    ),
    (
        "1,3,1000.1\n",
        UnitOutageFault::Frame(FrameFault::Cell {
            line: 2,
            col: 3,
            why: Why::Bounds,
        }),
    ),
];

#[test]
fn tells_the_first_fault_of_units(rt: HostRuntime) {
    for (records, want) in UNIT_FAULTS {
        assert_eq!(rt;
            units_lost(rt.alloc(), *records).err(),
            Some(*want),
            "{records}"
        );
    }
}
