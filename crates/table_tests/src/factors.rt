//! `factor_tables`: penalties, shift factors, and tables that are made.

ghost use Rattle.std.specs.Prelude.{◌≡◌};

use crate::networks::read_network;
use factor_tables::{Loss, MadeFactor, Penalties, Shift, Softness, TableFault, penalties, shift};
use market_data::FactorPlaces;
use record_reading::{FrameFault, Why};
use scaled_decimal::DecimalFault;
use std::alloc::Global;
use std::test::Fail;

/// Branch 1 has limits in the base and after an outage, branch 2 in the base alone and branch 3 none. Branch 4 has both and is out of
/// service.
const CASE: &str = "function mpc = triangle
mpc.version = '2';
mpc.baseMVA = 100;
mpc.bus = [
1 3 0 0 0 0 1 1 0 230 1 1.1 0.9;
2 1 0 0 0 0 1 1 0 230 1 1.1 0.9;
3 1 60 0 0 0 1 1 0 230 1 1.1 0.9;
];
mpc.gen = [
1 0 0 0 0 1 100 1 100 0;
];
mpc.branch = [
1 2 0 0.1 0 30 0 40 0 0 1 -360 360;
1 3 0 0.1 0 40 0 0 0 0 1 -360 360;
2 3 0 0.1 0 0 0 0 0 0 1 -360 360;
2 3 0 0.1 0 30 0 40 0 0 0 -360 360;
];
";

/// The penalties of a table over that case.
fn penalties_of(alloc: Global, table: &str) -> Result<Penalties, TableFault> {
    match read_network(alloc, CASE) {
        Some(network) => penalties(alloc, &network, table.as_bytes()),
        None => Err(TableFault::Memory),
    }
}

/// The penalties of so many times these records.
fn repeated(alloc: Global, records: &str, count: usize) -> Result<Penalties, TableFault> {
    let Ok(records) = records.repeat(alloc, count) else {
        return Err(TableFault::Memory);
    };
    match format!(in alloc; "branch,limit,price,excess\n{records}") {
        Ok(table) => penalties_of(alloc, table.as_str()),
        Err(_) => Err(TableFault::Memory),
    }
}

/// By branch and whether the limit is the one after an outage.
const PENALTIES: &[(u32, bool, Option<Softness>)] = &[
    (
        1,
        false,
        Some(Softness {
            price: 1_000_000_000,
            most_excess: 2_500_000_000,
        }),
    ),
    (
        1,
        true,
        Some(Softness {
            price: 1,
            most_excess: 0,
        }),
    ),
    (
        2,
        false,
        Some(Softness {
            price: 25_000_000,
            most_excess: 10_000_000_000,
        }),
    ),
    (2, true, None),
    (3, false, None),
];

#[test]
fn reads_penalties(rt: HostRuntime) -> Result<(), Fail> {
    let records = "1,post,0.000001,0\n2,base,25,10\n1,base,1e3,2.5\n";
    let penalties = repeated(rt.alloc(), records, 1)?;
    for (branch, post, want) in PENALTIES {
        assert_eq!(rt;
            penalties.softness(*branch, *post),
            *want,
            "branch {branch}, post {post}"
        );
    }
    Ok(())
}

/// Records that are refused, each list with its first fault.
const FAULTS: &[(&str, usize, TableFault)] = &[
    (
        "1,base,25\n",
        1,
        TableFault::Frame(FrameFault::Width { line: 2 }),
    ),
    // The word comes before the numbers of its record.
    ("x,Base,x,x\n", 1, TableFault::Kind { line: 2 }),
    ("1,base,25,10\n1,,25,10\n", 1, TableFault::Kind { line: 3 }),
    (
        "1.5,base,x,10\n",
        1,
        TableFault::Frame(FrameFault::Cell {
            line: 2,
            col: 1,
            why: Why::Decimal(DecimalFault::TooFine),
        }),
    ),
    (
        "1,base,0.0000001,x\n",
        1,
        TableFault::Frame(FrameFault::Cell {
            line: 2,
            col: 3,
            why: Why::Decimal(DecimalFault::TooFine),
        }),
    ),
    (
        "9,base,25,\n",
        1,
        TableFault::Frame(FrameFault::Cell {
            line: 2,
            col: 4,
            why: Why::Decimal(DecimalFault::BadNumber),
        }),
    ),
    ("0,base,0,10\n", 1, TableFault::NoBranch { line: 2 }),
    (
        "1,base,25,10\n5,base,25,10\n",
        1,
        TableFault::NoBranch { line: 3 },
    ),
    // A branch without this limit, one without any, and one out of service.
    ("2,post,0,10\n", 1, TableFault::NoLimit { line: 2 }),
    ("3,base,25,10\n", 1, TableFault::NoLimit { line: 2 }),
    ("4,base,25,10\n", 1, TableFault::NoLimit { line: 2 }),
    ("1,base,0,10\n", 1, TableFault::Penalty { line: 2 }),
    ("1,base,-25,10\n", 1, TableFault::Penalty { line: 2 }),
    (
        "1,base,25,-0.000000001\n",
        1,
        TableFault::Penalty { line: 2 },
    ),
    (
        "1,base,25,10\n1,base,0,5\n",
        1,
        TableFault::Penalty { line: 3 },
    ),
    (
        "1,base,25,10\n1,post,25,10\n1,base,30,5\n",
        1,
        TableFault::Twice { line: 4 },
    ),
    // As many records as there may be, and one more.
    ("1,base,25,10\n", 4000, TableFault::Twice { line: 3 }),
    (
        "1,base,25,10\n",
        4001,
        TableFault::Frame(FrameFault::TooMany { count: 4001 }),
    ),
];

#[test]
fn tells_the_first_fault_of_penalties(rt: HostRuntime) {
    for (records, count, want) in FAULTS {
        assert_eq!(rt;
            repeated(rt.alloc(), *records, *count).err(),
            Some(*want),
            "{records}"
        );
    }
    let header = penalties_of(rt.alloc(), "branch,limit,excess,price\n").err();
    assert_eq!(rt; header, Some(TableFault::Frame(FrameFault::Header)));
}

/// The factors of a shift table over that case.
fn shift_of(alloc: Global, table: &str, places: FactorPlaces) -> Result<Shift, TableFault> {
    match read_network(alloc, CASE) {
        Some(network) => shift(alloc, &network, table.as_bytes(), places),
        None => Err(TableFault::Memory),
    }
}

/// Factors that are looked for from a place among the records on: in their order, out of it, and where there is none.
const NEAR: &[(usize, u32, u32, (i64, usize))] = &[
    (0, 1, 2, (-500_000_000, 1)),
    (1, 1, 3, (250_000_000, 2)),
    (2, 1, 1, (0, 2)),
    (2, 2, 1, (0, 3)),
    (3, 1, 2, (-500_000_000, 1)),
    (0, 3, 3, (1_000_000_000, 4)),
    (4, 3, 3, (1_000_000_000, 4)),
    (4, 3, 1, (0, 4)),
    (usize::MAX, 1, 3, (250_000_000, 2)),
];

#[test]
fn finds_factors_from_a_place(rt: HostRuntime) -> Result<(), Fail> {
    let table = "branch,bus,factor\n1,2,-0.5\n1,3,0.25\n2,1,0\n3,3,1\n";
    let shift = shift_of(rt.alloc(), table, FactorPlaces::Six)?;
    for (place, branch, bus, want) in NEAR {
        assert_eq!(rt;
            shift.factor_near(*place, *branch, *bus),
            *want,
            "{place}: {branch}, {bus}"
        );
    }
    Ok(())
}

/// Shift tables of one record, by the text of its factor, with what it is in 10^-9 or the fault with six places and with nine.
const FACTORS: &[(&str, Told, Told)] = &[
    ("-0.500000001", TOO_FINE, Ok(-500_000_001)),
    ("0.0000001", TOO_FINE, Ok(100)),
    ("-0.333333", Ok(-333_333_000), Ok(-333_333_000)),
    ("1e-9", TOO_FINE, Ok(1)),
    ("1e-10", TOO_FINE, TOO_FINE),
    // The greatest size is 1000.
    ("1000", Ok(1_000_000_000_000), Ok(1_000_000_000_000)),
    ("-1000", Ok(-1_000_000_000_000), Ok(-1_000_000_000_000)),
    ("1000.000001", BOUNDS, BOUNDS),
    ("-1000.000000001", TOO_FINE, BOUNDS),
    // Its number of 10^-9 is no i64, that of 10^-6 is one.
    ("9000000000000", BOUNDS, OUT_OF_RANGE),
];

/// A factor in 10^-9, or the fault of its table.
type Told = Result<i64, TableFault>;

const TOO_FINE: Told = Err(TableFault::Frame(FrameFault::Cell {
    line: 2,
    col: 3,
    why: Why::Decimal(DecimalFault::TooFine),
}));

const BOUNDS: Told = Err(TableFault::Frame(FrameFault::Cell {
    line: 2,
    col: 3,
    why: Why::Bounds,
}));

const OUT_OF_RANGE: Told = Err(TableFault::Frame(FrameFault::Cell {
    line: 2,
    col: 3,
    why: Why::Decimal(DecimalFault::OutOfRange),
}));

/// The factor of a shift table of one record.
fn factor_told(alloc: Global, factor: &str, places: FactorPlaces) -> Told {
    match format!(in alloc; "branch,bus,factor\n1,2,{factor}\n") {
        Ok(table) => Ok(shift_of(alloc, table.as_str(), places)?.factor(1, 2)),
        Err(_) => Err(TableFault::Memory),
    }
}

#[test]
fn reads_factors_of_so_many_places(rt: HostRuntime) {
    for (factor, six, nine) in FACTORS {
        assert_eq!(rt;
            factor_told(rt.alloc(), *factor, FactorPlaces::Six),
            *six,
            "{factor}, six"
        );
        assert_eq!(rt;
            factor_told(rt.alloc(), *factor, FactorPlaces::Nine),
            *nine,
            "{factor}, nine"
        );
    }
}

/// Of these records a shift table has the branches 1 and 2, and an outage table has the outage of row 3.
const MADE: [MadeFactor; 2] = [
    MadeFactor {
        branch: 1,
        of: 3,
        units: -250_000,
    },
    MadeFactor {
        branch: 2,
        of: 3,
        units: 1,
    },
];

/// What a table is: its places, the factors of two records and of none, and which of three rows it has.
type Made = (FactorPlaces, [i64; 3], [bool; 3]);

fn made_shift(alloc: Global, places: FactorPlaces) -> Option<Made> {
    let shift = Shift::of(alloc, places, &MADE).ok()?;
    Some((
        shift.places(),
        [shift.factor(1, 3), shift.factor(2, 3), shift.factor(3, 1)],
        [shift.has(1), shift.has(2), shift.has(3)],
    ))
}

fn made_loss(alloc: Global, places: FactorPlaces) -> Option<Made> {
    let loss = Loss::of(alloc, places, &MADE).ok()?;
    Some((
        loss.places(),
        [loss.factor(1, 3), loss.factor(2, 3), loss.factor(3, 1)],
        [loss.has(1), loss.has(2), loss.has(3)],
    ))
}

#[test]
fn makes_tables(rt: HostRuntime) {
    for (places, factors) in [
        (FactorPlaces::Six, [-250_000_000, 1_000, 0]),
        (FactorPlaces::Nine, [-250_000, 1, 0]),
    ] {
        let shift = made_shift(rt.alloc(), places);
        assert_eq!(rt; shift, Some((places, factors, [true, true, false])));
        let loss = made_loss(rt.alloc(), places);
        assert_eq!(rt; loss, Some((places, factors, [false, false, true])));
    }
}
