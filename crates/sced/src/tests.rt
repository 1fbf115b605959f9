//! The pool, with texts worked by hand, and words that are refused.

use crate::fixture::{BUSES, OFFERS, Text, UNITS, Want, case, expect, told, whole};
use command_answers::Status;
use std::process::Abort;
use std::test::Fail;

const POOL: &str = "sced pool --case case.m --offers offers.csv";

/// Branches without limits.
const FREE: &str = "0 0 0 0 0";

const THREE_BUSES: &str =
    "cleared\nwelfare -600\nenergy 10\nbus 1 price 10 congestion 0\nbus 2 price 10 congestion 0\nbus 3 price 10 congestion 0\nblock 1 sell 1 mw 60\nblock 2 sell 1 mw 0\nunit 1 mw 60 paid 600\nunit 2 mw 0 paid 0\nload 1 mw 0 pays 0\nload 2 mw 0 pays 0\nload 3 mw 60 pays 600\nsurplus 0\n";

/// What a run with a dispatchable load at bus 3 puts, which buys 30 at 40 and would buy 20 at 5.
const BUYER: &str =
    "cleared\nwelfare 300\nenergy 10\nbus 1 price 10 congestion 0\nbus 2 price 10 congestion 0\nbus 3 price 10 congestion 0\nblock 1 sell 1 mw 90\nblock 2 sell 1 mw 0\nblock 3 buy 1 mw 30\nblock 3 buy 2 mw 0\nunit 1 mw 90 paid 900\nunit 2 mw 0 paid 0\nunit 3 mw -30 paid -300\nload 1 mw 0 pays 0\nload 2 mw 0 pays 0\nload 3 mw 60 pays 600\nsurplus 0\n";

/// What is put where unit 2 runs at 20 at least, bus 2 has a shunt of 5, and what stands out of
/// service or at an isolated bus drops out.
const DROPPED: &str =
    "cleared\nwelfare -450\nenergy 10\nbus 1 price 10 congestion 0\nbus 2 price 10 congestion 0\nbus 3 price 10 congestion 0\nblock 1 sell 1 mw 45\nblock 2 sell 1 mw 0\nunit 1 mw 45 paid 450\nunit 2 mw 20 paid 200\nload 1 mw 0 pays 0\nload 2 mw 5 pays 50\nload 3 mw 60 pays 600\nsurplus 0\n";

/// The three-bus case as a tool may save it: line ends of two bytes, comments, tabs and commas
/// between cells, a row that is continued on the next line, names and further fields.
const SAVED: &str =
    "function mpc = t3\r\n%% a case of three buses\r\nmpc.version = '2';\r\n\r\nmpc.baseMVA = 100; % MVA\r\n%% buses\r\nmpc.bus = [\r\n\t1\t3\t0\t0\t0\t0\t1\t1\t0\t230\t1\t1.1\t0.9;\r\n\t2, 1, 0, 0, 0, 0, 1, 1, 0, 230, 1, 1.1, 0.9\r\n 3 1 60 0 0 0 1 ... the rest is below\r\n 1 0 230 1 1.1 0.9;\r\n];\r\nmpc.gen = [1 0 0 0 0 1 100 1 100 0; 2 0 0 0 0 1 100 1 100 0];\r\nmpc.branch = [\r\n1 2 0 0.2 0 0 0 0 0 0 1 -360 360;\r\n1 3 0 0.1 0 0 0 0 0 0 1 -360 360;\r\n2 3 0 0.1 0 0 0 0 0 0 1 -360 360;\r\n];\r\nmpc.bus_name = { 'a % b'; 'two'; 'three' };\r\nmpc.gencost = [\r\n2 0 0 2 10 0;\r\n2 0 0 2 30 0\r\n];\r\n";

/// Runs `pool` over a case and its offers, and compares.
fn expect_pool<R: Abort + AllocGlobal>(
    rt: &R,
    case: &[u8],
    offers: &str,
    want: Want<'_>,
) -> Result<(), Fail> {
    let files = [("case.m", case), ("offers.csv", offers.as_bytes())];
    let all = ([].as_slice(), [].as_slice());
    expect(rt, POOL, files.as_slice(), all, want)
}

#[test]
fn clears(rt: HostRuntime) -> Result<(), Fail> {
    let buying = "1 0 0 0 0 1 100 1 100 0;\n2 0 0 0 0 1 100 1 100 0;\n3 0 0 0 0 1 100 1 0 -50;\n";
    let bids = "unit,side,mw,price\n1,sell,100,10\n2,sell,100,30\n3,buy,30,40\n3,buy,20,5\n";
    let dropped =
        "1 3 0 0 0 0 1 1 0 230 1 1.1 0.9;\n2 2 0 0 5 0 1 1 0 230 1 1.1 0.9;\n3 1 6e1 0 0 0 1 1 0 230 1 1.1 0.9;\n9 4 999 0 0 0 1 1 0 230 1 1.1 0.9;\n";
    let dropping =
        "1 0 0 0 0 1 100 1 100 0;\n2 0 0 0 0 1 100 1 100 20;\n2 0 0 0 0 1 100 0 100 0;\n9 0 0 0 0 1 100 1 100 0;\n";
    let four = "unit,side,mw,price\n1,sell,100,10\n2,sell,80,30\n3,sell,50,1\n4,sell,50,1\n";
    for (buses, units, offers, text) in [
        (BUSES, UNITS, OFFERS, THREE_BUSES),
        (BUSES, buying, bids, BUYER),
        (dropped, dropping, four, DROPPED),
    ] {
        let case = case(&rt, buses, units, FREE)?;
        let want = whole(Status::Done, text);
        expect_pool(&rt, case.as_bytes(), offers, want)?;
    }
    let want = whole(Status::Done, THREE_BUSES);
    expect_pool(&rt, SAVED.as_bytes(), OFFERS, want)
}

/// Words that are refused, or ask for help, and how the text begins.
static USAGES: [(&str, &str); 5] = [
    ("", "error: "),
    (
        "sced pool --help",
        "Clears the market as if no branch had a limit\n\nUsage: sced pool --case <FILE> --offers <FILE>\n",
    ),
    (
        "sced reply --case a",
        "error: unrecognized subcommand 'reply'\n",
    ),
    (
        "sced pool --case a --offer b",
        "error: unexpected argument '--offer' found\n",
    ),
    (
        "sced pool --case=a --case=a --offers=b",
        "error: the argument '--case <FILE>' cannot be used multiple times\n",
    ),
];

#[test]
fn refuses_words(rt: HostRuntime) -> Result<(), Fail> {
    let all = ([].as_slice(), [].as_slice());
    for (line, start) in &USAGES {
        let want = told(Status::Usage, Text::Start(start));
        expect(&rt, line, [].as_slice(), all, want)?;
    }
    let none = whole(Status::ReadFailed, "");
    let line = "sced pool --offers=b --case=a";
    expect(&rt, line, [].as_slice(), all, none)
}
