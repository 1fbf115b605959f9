//! Clears within limits, with texts worked by hand.

use crate::fixture::{
    BUSES, LINE, LOSS, OFFERS, SHIFT, Text, UNITS, Want, case, expect, told, whole,
};
use command_answers::Status;
use std::process::Abort;
use std::test::Fail;

/// The words that name no table that may be left out.
const ALONE: &str = "sced clear --case case.m --ptdf shift.csv --offers offers.csv";

/// The words that name the outages.
const AFTER: &str =
    "sced clear --case case.m --ptdf shift.csv --offers offers.csv --lodf loss.csv --contingencies listed.csv";

/// The words for the limits after outages that are those before.
const AS_BEFORE: &str =
    "sced clear --case case.m --ptdf shift.csv --offers offers.csv --lodf loss.csv --contingencies listed.csv --post-rating a";

/// The words with the file of phase shifts, and those with one file another.
const WITH_OFFSETS: &str =
    "sced clear --case case.m --ptdf shift.csv --offers offers.csv --offsets offsets.csv";

const NO_OFFERS: &str = "sced clear --case case.m --ptdf shift.csv --offers no_offers.csv";

const WITHOUT_SHIFT: &str = "sced clear --case case.m --ptdf no_shift.csv --offers offers.csv";

const WITHOUT_LOSS: &str =
    "sced clear --case case.m --ptdf shift.csv --offers offers.csv --contingencies listed.csv";

const IN_A_LINE: &str =
    "sced clear --case line.m --ptdf no_shift.csv --offers offers.csv --contingencies second.csv";

const NO_OFFSET: &str = "refused offsets NoOffset branch 2\n";

const NO_SHIFT: &str = "refused factors NoShift branch 2\n";

const NO_LOSS: &str = "refused factors NoLoss branch 1\n";

const ISLANDS: &str = "refused contingencies Islands branch 2 side 3\n";

const UNLIMITED: &str = "cleared\nwelfare -600\nenergy 10\n";

const NOTHING: &str = "cleared\nwelfare 0\n";

const BOUND: &str = "infeasible\nbound -";

/// Unit 2 at bus 3.
const AT_DEMAND: Rows = (
    BUSES,
    "1 0 0 0 0 1 100 1 100 0;\n3 0 0 0 0 1 100 1 100 0;\n",
    "40 0 0 0 0",
);

/// A unit that runs at 60.
const HELD: Rows = (BUSES, "1 0 0 0 0 1 100 1 60 60;\n", "0 0 0 0 0");

/// The flow of branch 2 is 45 less half of what unit 2 makes.
const LIMITED: &str =
    "cleared\nwelfare -800\nenergy 10\nbus 1 price 10 congestion 0\nbus 2 price 30 congestion 20\nbus 3 price 40 congestion 30\nblock 1 sell 1 mw 50\nblock 2 sell 1 mw 10\nlimit 2 base flow 40 up 40 down 0 rent 1600\nunit 1 mw 50 paid 500\nunit 2 mw 10 paid 300\nload 1 mw 0 pays 0\nload 2 mw 0 pays 0\nload 3 mw 60 pays 2400\nsurplus 1600\n";

/// Its flow after the outage of branch 1 is 60 less what unit 2 makes.
const AFTER_OUTAGE: &str =
    "cleared\nwelfare -900\nenergy 10\nbus 1 price 10 congestion 0\nbus 2 price 30 congestion 20\nbus 3 price 30 congestion 20\nblock 1 sell 1 mw 45\nblock 2 sell 1 mw 15\nlimit 2 after 1 flow 45 up 20 down 0 rent 900\nunit 1 mw 45 paid 450\nunit 2 mw 15 paid 450\nload 1 mw 0 pays 0\nload 2 mw 0 pays 0\nload 3 mw 60 pays 1800\nsurplus 900\n";

/// The same with its limit at 40 after the outage too.
const AS_TIGHT: &str =
    "cleared\nwelfare -1000\nenergy 10\nbus 1 price 10 congestion 0\nbus 2 price 30 congestion 20\nbus 3 price 30 congestion 20\nblock 1 sell 1 mw 40\nblock 2 sell 1 mw 20\nlimit 2 after 1 flow 40 up 20 down 0 rent 800\nunit 1 mw 40 paid 400\nunit 2 mw 20 paid 600\nload 1 mw 0 pays 0\nload 2 mw 0 pays 0\nload 3 mw 60 pays 1800\nsurplus 800\n";

/// Unit 2 stands at bus 3, where the demand is: three quarters of the rest flow over branch 2.
const THIRDS: &str =
    "cleared\nwelfare -733.333333333333333:1/3\nenergy 10\nbus 1 price 10 congestion 0\nbus 2 price 23.333333:1/3 congestion 13.333333:1/3\nbus 3 price 30 congestion 20\nblock 1 sell 1 mw 53.333333333:1/3\nblock 2 sell 1 mw 6.666666666:2/3\nlimit 2 base flow 40 up 26.666666:2/3 down 0 rent 1066.666666666666666:2/3\nunit 1 mw 53.333333333:1/3 paid 533.333333333333333:1/3\nunit 2 mw 6.666666666:2/3 paid 200\nload 1 mw 0 pays 0\nload 2 mw 0 pays 0\nload 3 mw 60 pays 1800\nsurplus 1066.666666666666666:2/3\n";

/// The demand is at bus 1, and the flow of branch 2 is 10 less half of what unit 2 makes: what is fixed alone passes the limit.
const FIXED: &str =
    "cleared\nwelfare -600\nenergy 10\nbus 1 price 10 congestion 0\nbus 2 price 30 congestion 20\nbus 3 price 40 congestion 30\nblock 1 sell 1 mw 30\nblock 2 sell 1 mw 10\nlimit 2 base flow 5 up 40 down 0 rent -200\nunit 1 mw 30 paid 300\nunit 2 mw 10 paid 300\nload 1 mw 40 pays 400\nload 2 mw 0 pays 0\nload 3 mw 0 pays 0\nsurplus -200\n";

const FIRST_BUS: &str = "1 3 40 0 0 0 1 1 0 230 1 1.1 0.9;
2 1 0 0 0 0 1 1 0 230 1 1.1 0.9;
3 1 0 0 0 0 1 1 0 230 1 1.1 0.9;
";

/// More than the units have.
const SHORT: Rows = (DEMAND, UNITS, "0 0 0 0 0");

const DEMAND: &str = "1 3 0 0 0 0 1 1 0 230 1 1.1 0.9;
2 1 0 0 0 0 1 1 0 230 1 1.1 0.9;
3 1 250 0 0 0 1 1 0 230 1 1.1 0.9;
";

/// A load of 60 and a limit of 40 written another way, and no limit.
const SAME_40: Rows = (SAME_LOAD, UNITS, "0.4e2 0 0 0 0");

const ENDLESS: Rows = (BUSES, UNITS, "Inf 0 0 0 0");

const SAME_LOAD: &str = "1 3 0 0 0 0 1 1 0 230 1 1.1 0.9;
2 1 0 0 0 0 1 1 0 230 1 1.1 0.9;
3 1 6.000e1 -0 0 0 1 1 0 230 1 1.1 0.9;
";

/// A load of 60 at bus 4, to which three branches lead that may carry 10 each.
const STAR: &str = "function mpc = s4
mpc.version = '2';
mpc.baseMVA = 100;
mpc.bus = [
1 1 0 0 0 0 1 1 0 230 1 1.1 0.9;
2 1 0 0 0 0 1 1 0 230 1 1.1 0.9;
3 1 0 0 0 0 1 1 0 230 1 1.1 0.9;
4 3 60 0 0 0 1 1 0 230 1 1.1 0.9;
];
mpc.gen = [
1 0 0 0 0 1 100 1 100 0;
2 0 0 0 0 1 100 1 100 0;
3 0 0 0 0 1 100 1 100 0;
];
mpc.branch = [
1 4 0 0.1 0 10 0 0 0 0 1 -360 360;
2 4 0 0.1 0 10 0 0 0 0 1 -360 360;
3 4 0 0.1 0 10 0 0 0 0 1 -360 360;
];
";

/// 60 MW are wanted and 30 can come: a price of 1 on each branch and for energy leaves 30 less 60.
const CUT: &str =
    "infeasible\nbound -30\nenergy 1\nlimit 1 base up 1 down 0\nlimit 2 base up 1 down 0\nlimit 3 base up 1 down 0\n";

/// Runs words over a case and its tables.
fn expect_clear<R: Abort + AllocGlobal>(
    rt: &R,
    line: &str,
    case: &str,
    failing: (&[u64], &[u64]),
    want: Want<'_>,
) -> Result<(), Fail> {
    let files: [(&str, &[u8]); 10] = [
        ("case.m", case.as_bytes()),
        ("line.m", LINE.as_bytes()),
        ("shift.csv", SHIFT.as_bytes()),
        ("no_shift.csv", b"branch,bus,factor\n"),
        ("loss.csv", LOSS.as_bytes()),
        ("listed.csv", b"branch\n1\n"),
        ("second.csv", b"branch\n2\n"),
        ("offers.csv", OFFERS.as_bytes()),
        ("no_offers.csv", b"unit,side,mw,price\n"),
        ("offsets.csv", b"branch,mw\n2,10\n"),
    ];
    expect(rt, line, files.as_slice(), failing, want)
}

/// Bus rows, gen rows and ratings of branch 2.
type Rows = (&'static str, &'static str, &'static str);

const FREE: Rows = (BUSES, UNITS, "0 0 0 0 0");

const AT_10: Rows = (BUSES, UNITS, "10 0 0 0 0");

const AT_40: Rows = (BUSES, UNITS, "40 0 0 0 0");

const AT_40_AND_45: Rows = (BUSES, UNITS, "40 0 45 0 0");

const SHIFTED: Rows = (FIRST_BUS, UNITS, "5 0 0 0 3");

/// Words, rows of the case, and what is told, with wider numbers too.
static CLEARS: [(&str, Rows, Status, Text); 14] = [
    (ALONE, AT_40, Status::Done, Text::Whole(LIMITED)),
    (ALONE, SAME_40, Status::Done, Text::Whole(LIMITED)),
    (ALONE, ENDLESS, Status::Done, Text::Start(UNLIMITED)),
    (AFTER, AT_40_AND_45, Status::Done, Text::Whole(AFTER_OUTAGE)),
    (AS_BEFORE, AT_40_AND_45, Status::Done, Text::Whole(AS_TIGHT)),
    (ALONE, AT_DEMAND, Status::Done, Text::Whole(THIRDS)),
    (WITH_OFFSETS, SHIFTED, Status::Done, Text::Whole(FIXED)),
    (NO_OFFERS, HELD, Status::Done, Text::Start(NOTHING)),
    (ALONE, AT_10, Status::Infeasible, Text::Start(BOUND)),
    (ALONE, SHORT, Status::Infeasible, Text::Start(BOUND)),
    (ALONE, SHIFTED, Status::Refused, Text::Whole(NO_OFFSET)),
    (WITHOUT_SHIFT, AT_40, Status::Refused, Text::Whole(NO_SHIFT)),
    (WITHOUT_LOSS, FREE, Status::Refused, Text::Whole(NO_LOSS)),
    (IN_A_LINE, FREE, Status::Refused, Text::Whole(ISLANDS)),
];

#[test]
fn clears_within_limits(rt: HostRuntime) -> Result<(), Fail> {
    let all = ([].as_slice(), [].as_slice());
    for (line, rows, status, text) in &CLEARS {
        let case = case(&rt, rows.0, rows.1, rows.2)?;
        let wide = format!(in rt.alloc(); "{line} --number-bits 1023")?;
        let want = told(*status, *text);
        expect_clear(&rt, line, case.as_str(), all, want)?;
        expect_clear(&rt, wide.as_str(), case.as_str(), all, want)?;
    }
    Ok(())
}

#[test]
fn shows_infeasible_by_three_limits(rt: HostRuntime) -> Result<(), Fail> {
    let files: [(&str, &[u8]); 3] = [
        ("star.m", STAR.as_bytes()),
        ("shift.csv", b"branch,bus,factor\n1,1,1\n2,2,1\n3,3,1\n"),
        (
            "offers.csv",
            b"unit,side,mw,price\n1,sell,100,10\n2,sell,100,20\n3,sell,100,30\n",
        ),
    ];
    let line = "sced clear --case star.m --ptdf shift.csv --offers offers.csv";
    let all = ([].as_slice(), [].as_slice());
    expect(
        &rt,
        line,
        files.as_slice(),
        all,
        whole(Status::Infeasible, CUT),
    )
}
