//! Checks of tables, with texts worked by hand.

use crate::tells::tells;
use crate::triangle::TRIANGLE;
use command_answers::{Status, check_told};
use market_data::FactorPlaces;
use market_tables::GridTables;
use std::process::Abort;
use std::test::Fail;

/// Three buses in a line.
const LINE: &str = "function mpc = l3
mpc.version = '2';
mpc.baseMVA = 100;
mpc.bus = [
1 3 0 0 0 0 1 1 0 230 1 1.1 0.9;
2 1 0 0 0 0 1 1 0 230 1 1.1 0.9;
3 1 60 0 0 0 1 1 0 230 1 1.1 0.9;
];
mpc.gen = [
1 0 0 0 0 1 100 1 100 0;
];
mpc.branch = [
1 2 0 0.2 0 0 0 0 0 0 1 -360 360;
2 3 0 0.1 0 0 0 0 0 0 1 -360 360;
];
";

/// Two buses whose branch is out of service.
const SPLIT: &str = "function mpc = s2
mpc.version = '2';
mpc.baseMVA = 100;
mpc.bus = [
1 3 0 0 0 0 1 1 0 230 1 1.1 0.9;
2 1 0 0 0 0 1 1 0 230 1 1.1 0.9;
];
mpc.gen = [
1 0 0 0 0 1 100 1 100 0;
];
mpc.branch = [
1 2 0 0.2 0 0 0 0 0 0 0 -360 360;
];
";

const SHIFT: &str =
    "branch,bus,factor\n1,2,-0.5\n2,2,-0.5\n3,2,0.5\n1,3,-0.25\n2,3,-0.75\n3,3,-0.25\n";

const LOSS: &str = "branch,outage,factor\n2,1,1\n3,1,-1\n1,2,1\n3,2,1\n1,3,-1\n2,3,1\n";

/// Tables without records, of outage factors and of outages.
const NO_LOSS: &str = "branch,outage,factor\n";

const NO_OUTAGES: &str = "branch\n";

/// Too little flows over branch 2 for bus 3.
const SHIFT_OFF: &str =
    "branch,bus,factor\n1,2,-0.5\n2,2,-0.5\n3,2,0.5\n1,3,-0.25\n2,3,-0.74\n3,3,-0.25\n";

/// Too little flows over branch 2 where branch 1 is lost.
const LOSS_OFF: &str = "branch,outage,factor\n2,1,0.9\n3,1,-1\n1,2,1\n3,2,1\n1,3,-1\n2,3,1\n";

const FITS: &str =
    "bus most 0 at 1 for 1\nbus within\nloop most 0 at 3 for 1\nloop within\noutage bus most 0 at 1 for 1\noutage bus within\noutage loop none\n";

const OUTAGE_OVER: &str =
    "bus most 0 at 1 for 1\nbus within\nloop most 0 at 3 for 1\nloop within\noutage bus most -0.1 at 1 for 1\noutage bus over -0.1 bound 0.0000005 at 1 for 1\noutage loop none\n";

const SHIFT_OVER: &str =
    "bus most 0.01 at 1 for 3\nbus over 0.01 bound 0.000001 at 1 for 3\nloop most -0.001 at 3 for 3\nloop over -0.001 bound 0.0000002 at 3 for 3\noutage bus none\noutage loop none\n";

/// Checks the three tables against the case, and compares.
fn expect<R: Abort + AllocGlobal>(
    rt: &R,
    texts: [&str; 4],
    want: (Status, &str),
) -> Result<(), Fail> {
    let grid = GridTables {
        case: texts[0].as_bytes(),
        ptdf: texts[1].as_bytes(),
        lodf: texts[2].as_bytes(),
        contingencies: texts[3].as_bytes(),
    };
    let told = check_told(rt.alloc(), &grid, FactorPlaces::Six)?;
    assert!(rt; tells(told, want.0, want.1.as_bytes()));
    Ok(())
}

/// A case, a table of shift factors, one of outage factors and a list of outages, and what is told.
static TABLES: [([&str; 4], (Status, &str)); 8] = [
    ([TRIANGLE, SHIFT, LOSS, "branch\n1\n"], (Status::Done, FITS)),
    (
        [TRIANGLE, SHIFT, LOSS_OFF, "branch\n1\n"],
        (Status::Refuted, OUTAGE_OVER),
    ),
    (
        [
            TRIANGLE,
            "branch,bus,factor\n1,2,-0.5\n2,2,-0.5\n3,2,0.5\n1,3,-0.25\n2,3,-0.75\n3,3,-0.25\n2,3,-0.75\n",
            "",
            "",
        ],
        (Status::Refused, "refused ptdf Twice line 8\n"),
    ),
    (
        [
            LINE,
            "branch,bus,factor\n",
            "branch,outage,factor\n",
            "branch\n2\n",
        ],
        (
            Status::Refused,
            "refused contingencies Islands branch 2 side 3\n",
        ),
    ),
    (
        [TRIANGLE, SHIFT_OFF, NO_LOSS, NO_OUTAGES],
        (Status::Refuted, SHIFT_OVER),
    ),
    (
        [SPLIT, "", "", ""],
        (Status::Refused, "refused case Split bus 2\n"),
    ),
    (
        [TRIANGLE, SHIFT, "branch,bus,factor\n", ""],
        (Status::Refused, "refused lodf Header\n"),
    ),
    (
        [TRIANGLE, SHIFT, LOSS, "branch\n4\n"],
        (Status::Refused, "refused contingencies NoBranch line 2\n"),
    ),
];

#[test]
fn checks_tables(rt: HostRuntime) -> Result<(), Fail> {
    for (files, want) in &TABLES {
        expect(&rt, *files, *want)?;
    }
    Ok(())
}

/// Shift tables with a record more, and a branch from a bus to itself.
#[test]
fn refuses_shift_tables(rt: HostRuntime) -> Result<(), Fail> {
    for (record, told) in [
        ("1,2\n", "Width line 8"),
        ("9,2,0.1\n", "NoBranch line 8"),
        ("1,9,0\n", "NoBus line 8"),
        ("1,2,1000.000001\n", "Cell line 8 col 3 Bounds"),
    ] {
        let table = format!(in rt.alloc(); "{SHIFT}{record}")?;
        let told = format!(in rt.alloc(); "refused ptdf {told}\n")?;
        let texts = [TRIANGLE, table.as_str(), NO_LOSS, NO_OUTAGES];
        expect(&rt, texts, (Status::Refused, told.as_str()))?;
    }
    let looped = TRIANGLE.replace(rt.alloc(), "1 2 0 0.2", "1 1 0 0.2")?;
    let texts = [looped.as_str(), SHIFT, NO_LOSS, NO_OUTAGES];
    expect(
        &rt,
        texts,
        (Status::Refused, "refused case SameEnds row 1\n"),
    )
}
