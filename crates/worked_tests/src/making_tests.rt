//! Tables that are made, with texts worked by hand.

use crate::triangle::TRIANGLE;
use command_answers::{Status, Told, check_told, factors_told};
use market_data::FactorPlaces;
use market_tables::GridTables;
use std::process::Abort;
use std::test::Fail;

const SHIFT: &str =
    "branch,bus,factor\n1,1,0\n1,2,-0.5\n1,3,-0.25\n2,1,0\n2,2,-0.5\n2,3,-0.75\n3,1,0\n3,2,0.5\n3,3,-0.25\n";

const LOSS: &str = "branch,outage,factor\n2,1,1\n3,1,-1\n";

/// Those of three branches of one reactance, which are thirds.
const THIRDS: &str =
    "branch,bus,factor\n1,1,0\n1,2,-0.666667\n1,3,-0.333333\n2,1,0\n2,2,-0.333333\n2,3,-0.666667\n3,1,0\n3,2,0.333333\n3,3,-0.333333\n";

/// With 0.001 in its first branch, of 1 MW from bus 2 to bus 1, the reference, 127/128 goes over the branch between them and 1/128 by
/// bus 3; of 1 MW from bus 3, 101/128 goes over the branch between them and 27/128 by bus 2.
const UNEVEN: &str = "function mpc = uneven
mpc.version = '2';
mpc.baseMVA = 100;
mpc.bus = [
1 3 0 0 0 0 1 1 0 230 1 1.1 0.9;
2 1 0 0 0 0 1 1 0 230 1 1.1 0.9;
3 1 0 0 0 0 1 1 0 230 1 1.1 0.9;
];
mpc.gen = [
1 0 0 0 0 1 100 1 100 0;
];
mpc.branch = [
1 2 0 0.2 0 0 0 0 0 0 1 -360 360;
1 3 0 0.027 0 0 0 0 0 0 1 -360 360;
2 3 0 0.1 0 0 0 0 0 0 1 -360 360;
];
";

/// Each is half-way between two numbers of six places, and the one farther from 0 is taken.
const HALVES: &str =
    "branch,bus,factor\n1,1,0\n1,2,-0.992188\n1,3,-0.210938\n2,1,0\n2,2,-0.007813\n2,3,-0.789063\n3,1,0\n3,2,0.007813\n3,3,-0.210938\n";

/// No outages are lost, and so there are no records of outage factors.
const NO_OUTAGES: &str = "branch\n";

const NO_LOSS: &str = "branch,outage,factor\n";

const THIRDS_RESIDUALS: &str =
    "bus most 0 at 1 for 1\nbus within\nloop most -0.0000001 at 3 for 2\nloop within\noutage bus none\noutage loop none\n";

/// What is to be told: no table is written where its text is empty.
#[derive(Clone, Copy)]
struct Want {
    status: Status,
    text: &'static str,
    shift: &'static str,
    loss: &'static str,
}

/// Compares what is told, and the tables, where one that is not made has no text.
fn compare<R: Abort>(rt: &R, told: &Told, want: Want) {
    assert_eq!(rt; told.status, want.status);
    assert_eq!(rt; told.text.as_slice(), want.text.as_bytes());
    let shift = told.outputs.ptdf.as_deref().unwrap_or(b"".as_slice());
    assert_eq!(rt; shift, want.shift.as_bytes());
    let loss = told.outputs.lodf.as_deref().unwrap_or(b"".as_slice());
    assert_eq!(rt; loss, want.loss.as_bytes());
}

/// Makes tables of a case with this start of its first branch, and compares.
fn makes<R: Abort + AllocGlobal>(
    rt: &R,
    case: &str,
    branch: &str,
    outages: &str,
    wanted: bool,
    want: Want,
) -> Result<(), Fail> {
    let case = case.replace(rt.alloc(), "1 2 0 0.2", branch)?;
    let told = factors_told(
        rt.alloc(),
        case.as_bytes(),
        outages.as_bytes(),
        wanted,
        FactorPlaces::Six,
    )?;
    compare(rt, &told, want);
    Ok(())
}

/// A case, the start of its first branch, the outages, whether their factors are wanted, and what is told.
static MADE: [(&str, &str, &str, bool, Want); 4] = [
    (
        TRIANGLE,
        "1 2 0 0.2",
        "branch\n1\n",
        true,
        Want {
            status: Status::Done,
            text: "shift records 9\noutage records 2\n",
            shift: SHIFT,
            loss: LOSS,
        },
    ),
    (
        TRIANGLE,
        "1 2 0 0.2",
        "branch\n1\n",
        false,
        Want {
            status: Status::Done,
            text: "shift records 9\n",
            shift: SHIFT,
            loss: "",
        },
    ),
    (
        TRIANGLE,
        "1 2 0 0.1",
        NO_OUTAGES,
        true,
        Want {
            status: Status::Done,
            text: "shift records 9\noutage records 0\n",
            shift: THIRDS,
            loss: NO_LOSS,
        },
    ),
    (
        UNEVEN,
        "1 2 0 0.001",
        "branch\n1\n",
        true,
        Want {
            status: Status::Done,
            text: "shift records 9\noutage records 2\n",
            shift: HALVES,
            loss: LOSS,
        },
    ),
];

#[test]
fn makes_tables(rt: HostRuntime) -> Result<(), Fail> {
    for (case, branch, outages, wanted, want) in &MADE {
        makes(&rt, case, branch, outages, *wanted, *want)?;
    }
    Ok(())
}

#[test]
fn refuses_to_make(rt: HostRuntime) -> Result<(), Fail> {
    for (branch, outages, text) in [
        (
            "1 2 0 0",
            NO_OUTAGES,
            "refused factors NotPositive branch 1\n",
        ),
        ("1 1 0 0.2", NO_OUTAGES, "refused case SameEnds row 1\n"),
        (
            "1 2 0 0.2",
            "branch\n4\n",
            "refused contingencies NoBranch line 2\n",
        ),
    ] {
        let want = Want {
            status: Status::Refused,
            text,
            shift: "",
            loss: "",
        };
        makes(&rt, TRIANGLE, branch, outages, true, want)?;
    }
    Ok(())
}

/// Round the loop there is 0.1 of what three thirds of six places miss.
#[test]
fn checks_what_is_made(rt: HostRuntime) -> Result<(), Fail> {
    let case = TRIANGLE.replace(rt.alloc(), "1 2 0 0.2", "1 2 0 0.1")?;
    let grid = GridTables {
        case: case.as_bytes(),
        ptdf: THIRDS.as_bytes(),
        lodf: NO_LOSS.as_bytes(),
        contingencies: NO_OUTAGES.as_bytes(),
    };
    let told = check_told(rt.alloc(), &grid, FactorPlaces::Six)?;
    assert_eq!(rt; told.status, Status::Done);
    assert_eq!(rt; told.text.as_slice(), THIRDS_RESIDUALS.as_bytes());
    Ok(())
}
