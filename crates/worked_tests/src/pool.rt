//! The pool of a case of three buses and its offers, compared with texts worked by hand.

use command_answers::{Status, Told, pool_told};
use std::process::Abort;
use std::test::Fail;

const BUSES: &str = "1 3 0 0 0 0 1 1 0 230 1 1.1 0.9;
2 1 0 0 0 0 1 1 0 230 1 1.1 0.9;
3 1 60 0 0 0 1 1 0 230 1 1.1 0.9;
";

const UNITS: &str = "1 0 0 0 0 1 100 1 100 0;
2 0 0 0 0 1 100 1 100 0;
";

const OFFERS: &str = "unit,side,mw,price\n1,sell,100,10\n2,sell,100,30\n";

const THREE_BUSES: &str =
    "cleared\nwelfare -600\nenergy 10\nbus 1 price 10 congestion 0\nbus 2 price 10 congestion 0\nbus 3 price 10 congestion 0\nblock 1 sell 1 mw 60\nblock 2 sell 1 mw 0\nunit 1 mw 60 paid 600\nunit 2 mw 0 paid 0\nload 1 mw 0 pays 0\nload 2 mw 0 pays 0\nload 3 mw 60 pays 600\nsurplus 0\n";

/// A text, or how one begins.
#[derive(Clone, Copy)]
enum Text<'a> {
    Whole(&'a str),
    Start(&'a str),
}

/// Three buses of these rows, joined in a triangle, with units of these rows.
fn case<R: AllocGlobal>(rt: &R, buses: &str, units: &str) -> Result<String, Fail> {
    let text = format!(in rt.alloc();
        "function mpc = t3\nmpc.version = '2';\nmpc.baseMVA = 100;\nmpc.bus = [\n{buses}];\nmpc.gen = [\n{units}];\nmpc.branch = [\n1 2 0 0.2 0 0 0 0 0 0 1 -360 360;\n1 3 0 0.1 0 0 0 0 0 0 1 -360 360;\n2 3 0 0.1 0 0 0 0 0 0 1 -360 360;\n];\n"
    )?;
    Ok(text)
}

/// Compares a status and a text.
fn compare<R: Abort>(rt: &R, told: &Told, want: (Status, Text<'_>)) {
    assert_eq!(rt; told.status, want.0);
    match want.1 {
        Text::Whole(text) => assert_eq!(rt; told.text.as_slice(), text.as_bytes()),
        Text::Start(text) => assert!(rt; told.text.starts_with(text.as_bytes())),
    }
}

/// Clears a case and its offers, and compares.
fn expect_pool<R: Abort + AllocGlobal>(
    rt: &R,
    case: &[u8],
    offers: &str,
    want: (Status, Text<'_>),
) -> Result<(), Fail> {
    let told = pool_told(rt.alloc(), case, offers.as_bytes())?;
    compare(rt, &told, want);
    Ok(())
}

/// The load of bus 3, written in other ways.
#[test]
fn reads_other_spellings(rt: HostRuntime) -> Result<(), Fail> {
    let plain = case(&rt, BUSES, UNITS)?;
    for load in ["3 1 6.000e1 0 ", "3 1 60e0 -0 ", "3 1 0.6e2 0 "] {
        let spelled = plain.replace(rt.alloc(), "3 1 60 0 ", load)?;
        let want = (Status::Done, Text::Whole(THREE_BUSES));
        expect_pool(&rt, spelled.as_bytes(), OFFERS, want)?;
    }
    Ok(())
}

/// Each text that ends inside a bracket is refused at its end, or at a last sign that is no number.
#[test]
fn refuses_a_case_that_ends_inside_a_bracket(rt: HostRuntime) -> Result<(), Fail> {
    let plain = case(&rt, BUSES, UNITS)?;
    let bytes = plain.as_bytes();
    let mut open = false;
    for length in 1..bytes.len() {
        match bytes[length - 1] {
            b'[' => open = true,
            b']' => open = false,
            _ => {}
        }
        if open {
            let signed = bytes[length - 1] == b'-';
            let at = if signed { length - 1 } else { length };
            let line = format!(in rt.alloc(); "refused case BadToken at {at}\n")?;
            let want = (Status::Refused, Text::Whole(line.as_str()));
            expect_pool(&rt, &bytes[..length], OFFERS, want)?;
        }
    }
    Ok(())
}

/// Markets that may be answered in more than one way, by what each right answer tells.
#[test]
fn tells_what_is_feasible(rt: HostRuntime) -> Result<(), Fail> {
    let held = "1 0 0 0 0 1 100 1 60 60;\n";
    let none = "unit,side,mw,price\n";
    let cleared = (Status::Done, Text::Start("cleared\nwelfare 0\n"));
    let infeasible = (Status::Infeasible, Text::Start("infeasible\nbound -"));
    for (demand, units, offers, want) in [
        ("250", UNITS, OFFERS, infeasible),
        ("60", held, none, cleared),
        ("60.000000001", held, none, infeasible),
        ("-0", held, none, infeasible),
    ] {
        let buses = format!(in rt.alloc();
            "1 3 0 0 0 0 1 1 0 230 1 1.1 0.9;\n2 1 0 0 0 0 1 1 0 230 1 1.1 0.9;\n3 1 {demand} 0 0 0 1 1 0 230 1 1.1 0.9;\n"
        )?;
        let case = case(&rt, buses.as_str(), units)?;
        expect_pool(&rt, case.as_bytes(), offers, want)?;
    }
    Ok(())
}

#[test]
fn passes_127_bits(rt: HostRuntime) -> Result<(), Fail> {
    let row = "0 0 0 0 1 100 1 9223372036.854775807 0;\n";
    let units = format!(in rt.alloc(); "1 {row}2 {row}3 {row}")?;
    let row = "sell,9223372036.854775807,9223372036854.775807\n";
    let offers = format!(in rt.alloc(); "unit,side,mw,price\n1,{row}2,{row}3,{row}")?;
    let passed =
        "range plus -170141183460469231694793815568465002498/1 -85070591730234615847396907784232501249/1\n";
    let dear =
        "cleared\nwelfare -27670116110564.327421\nenergy 9223372036854.775807\nbus 1 price 9223372036854.775807 congestion 0\n";
    for (demand, want) in [
        ("9223372036.854775807", (Status::Range, Text::Whole(passed))),
        ("1", (Status::Done, Text::Start(dear))),
    ] {
        let row = format!(in rt.alloc(); "3 {demand} 0 0 0 1 1 0 230 1 1.1 0.9;\n")?;
        let buses = format!(in rt.alloc(); "1 {row}2 {row}3 {row}")?;
        let case = case(&rt, buses.as_str(), units.as_str())?;
        expect_pool(&rt, case.as_bytes(), offers.as_str(), want)?;
    }
    let case = case(
        &rt,
        "1 3 0 0 0 0 1 1 0 230 1 1.1 0.9;\n2 1 0 0 0 0 1 1 0 230 1 1.1 0.9;\n3 1 0 0 0 0 1 1 0 230 1 1.1 0.9;\n",
        "1 0 0 0 0 1 100 1 9223372036.854775807 0;\n1 0 0 0 0 1 100 1 0 -9223372036.854775807;\n",
    )?;
    let offers =
        "unit,side,mw,price\n1,sell,9223372036.854775807,9223372036854\n2,buy,9223372036.854775807,9223372036854.775807\n";
    let traded = (
        Status::Done,
        Text::Start("cleared\nwelfare 7155556589.796193054501249\n"),
    );
    expect_pool(&rt, case.as_bytes(), offers, traded)
}

/// Texts that are no cases, and what is told of them.
static NO_CASES: [(&[u8], &str); 7] = [
    (b"", "refused case NoVersion\n"),
    (b"\xEF\xBB\xBF% nothing\n", "refused case NoVersion\n"),
    (b"\x00\xff\n[\x80;", "refused case Code line 1\n"),
    (b"function [x] = t\n", "refused case VersionOne\n"),
    (
        b"function mpc = t\nmpc.version = '1';\n",
        "refused case VersionOne\n",
    ),
    (
        b"function mpc = t\nmpc.version = '2';\n",
        "refused case Missing baseMVA\n",
    ),
    (
        b"function mpc = t\nmpc.version = '2';\nmpc.gen = [1 2 3\n4 5 6];\n",
        "refused case Narrow gen\n",
    ),
];

#[test]
fn refuses_cases(rt: HostRuntime) -> Result<(), Fail> {
    for (text, line) in &NO_CASES {
        let want = (Status::Refused, Text::Whole(line));
        expect_pool(&rt, text, "no table", want)?;
    }
    Ok(())
}

/// Texts of the case, others that come in their place, and the fault.
static CHANGES: [(&str, &str, &str); 14] = [
    (
        "360;\n];\n",
        "360;\n];\nmpc.bus(2,3) = 5;\n",
        "Code line 18",
    ),
    ("360;\n];\n", "360;\n];\n%{\n", "Code line 18"),
    (
        "360;\n];\n",
        "360;\n];\nmpc.baseMVA = 1e2;\n",
        "Twice baseMVA",
    ),
    (
        "2 1 0 0 0 0 1 1 0 230 1 1.1 0.9;",
        "2 1 0;",
        "Ragged bus row 2",
    ),
    (
        "mpc.gen = [\n1 0 0 0 0 1 100 1 100 0;\n2 0 0 0 0 1 100 1 100 0;\n];",
        "",
        "Missing gen",
    ),
    (
        "3 1 60 ",
        "3 1 1e999999999 ",
        "Cell bus row 3 col 3 OutOfRange",
    ),
    (
        "3 1 60 ",
        "3 1 1e-999999999 ",
        "Cell bus row 3 col 3 TooFine",
    ),
    (
        "3 1 60 0 0 ",
        "3 1 60 0 Inf ",
        "Cell bus row 3 col 5 NotFinite",
    ),
    ("3 1 60 ", "3 5 60 ", "Cell bus row 3 col 2 Bounds"),
    ("3 1 60 ", "2 1 60 ", "BusTwice row 3"),
    ("1 3 0 ", "1 1 0 ", "NoReference"),
    (
        "1 0 0 0 0 1 100 1 ",
        "7 0 0 0 0 1 100 1 ",
        "NoBus gen row 1",
    ),
    (
        "1 0 0 0 0 1 100 1 ",
        "1 0 0 0 0 1 100 NaN ",
        "Cell gen row 1 col 8 NotFinite",
    ),
    ("1 100 0;\n2 0", "1 100 200;\n2 0", "MinAboveMax unit 1"),
];

/// Refuses a case with another text in place of one of its own.
fn refuses_changed<R: Abort + AllocGlobal>(
    rt: &R,
    case: &str,
    old: &str,
    new: &str,
    line: &str,
) -> Result<(), Fail> {
    let text = case.replace(rt.alloc(), old, new)?;
    let line = format!(in rt.alloc(); "refused case {line}\n")?;
    let want = (Status::Refused, Text::Whole(line.as_str()));
    expect_pool(rt, text.as_bytes(), OFFERS, want)
}

/// The case with another text in place of one of its own, or with a statement more.
#[test]
fn refuses_changed_cases(rt: HostRuntime) -> Result<(), Fail> {
    let plain = case(&rt, BUSES, UNITS)?;
    for (old, new, line) in &CHANGES {
        refuses_changed(&rt, plain.as_str(), old, new, line)?;
    }
    let row = "1 3 0 0 0 0 1 1 0 230 1 1.1 0.9;\n";
    let rows = row.repeat(rt.alloc(), 999)?;
    refuses_changed(
        &rt,
        plain.as_str(),
        row,
        rows.as_str(),
        "TooMany bus count 1001",
    )
}

/// Ends of a header with records that are refused, and why.
static NO_OFFERS: [(&str, &str); 9] = [
    ("price\n1,sell,1\n", "Width line 2"),
    ("cost\n1,sell,1\n", "Width line 2"),
    ("price\n1,sell,x,1\n", "Cell line 2 col 3 BadNumber"),
    ("price\n1,give,1,1\n", "Side line 2"),
    (
        "price\n1,sell,100,10\n2,sell,100,30\n3,sell,1,1\n",
        "NoUnit line 4",
    ),
    ("price\n1,sell,-1,1\n", "Negative line 2"),
    ("price\n1,sell,1,2\n1,sell,1,1\n", "OutOfOrder line 3"),
    ("price\n1,sell,101,1\n", "OverCapacity line 2"),
    ("price\n1,buy,1,1\n", "OverCapacity line 2"),
];

#[test]
fn refuses_offers(rt: HostRuntime) -> Result<(), Fail> {
    let plain = case(&rt, BUSES, UNITS)?;
    for offers in ["", "unit,side,mw\n"] {
        let want = (Status::Refused, Text::Whole("refused offers Header\n"));
        expect_pool(&rt, plain.as_bytes(), offers, want)?;
    }
    for (records, line) in &NO_OFFERS {
        let offers = format!(in rt.alloc(); "unit,side,mw,{records}")?;
        let line = format!(in rt.alloc(); "refused offers {line}\n")?;
        let want = (Status::Refused, Text::Whole(line.as_str()));
        expect_pool(&rt, plain.as_bytes(), offers.as_str(), want)?;
    }
    Ok(())
}
