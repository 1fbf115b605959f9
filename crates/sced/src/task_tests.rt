//! Certificates that are written and verified, replays of edits, and rings.

use crate::fixture::{
    BUSES, LOSS, OFFERS, SHIFT, Text, UNITS, Want, answers, case, expect, stocked, told, whole,
};
use command_answers::Status;
use outside_store::MemoryStore;
use std::process::Abort;
use std::test::Fail;

/// The words for a market without outages, and with one.
const ALONE: &str = "--case case.m --ptdf shift.csv --offers offers.csv";

const AFTER: &str =
    "--case case.m --ptdf shift.csv --offers offers.csv --lodf loss.csv --contingencies listed.csv";

/// The certificate of the market with a limit of 40, and of 45 after the outage of branch 1.
const OPTIMAL: &str =
    "{\"blocks\":[\"45000000000/1\",\"15000000000/1\"],\"energy\":\"10000000/1\",\"kind\":\"optimal\",\"limits\":[{\"branch\":2,\"down\":\"0/1\",\"outage\":1,\"up\":\"20000000/1\"}],\"places\":6,\"version\":2}";

/// The same with its dual at the limit in the base, in a text of the first version.
const MOVED: &str =
    "{\"blocks\":[\"45000000000/1\",\"15000000000/1\"],\"energy\":\"10000000/1\",\"kind\":\"optimal\",\"limits\":[{\"branch\":2,\"down\":\"0/1\",\"outage\":0,\"up\":\"20000000/1\"}],\"version\":1}";

/// That as it is written anew.
const MOVED_ANEW: &str =
    "{\"blocks\":[\"45000000000/1\",\"15000000000/1\"],\"energy\":\"10000000/1\",\"kind\":\"optimal\",\"limits\":[{\"branch\":2,\"down\":\"0/1\",\"outage\":0,\"up\":\"20000000/1\"}],\"places\":6,\"version\":2}";

/// Duals that show that nothing is feasible where branch 2 has a limit of 10.
const FARKAS: &str =
    "{\"energy\":\"-1/1\",\"kind\":\"farkas\",\"limits\":[{\"branch\":2,\"down\":\"0/1\",\"outage\":0,\"up\":\"2/1\"}],\"places\":6,\"version\":2}";

const LIMITED: &str =
    "cleared\nwelfare -800\nenergy 10\nbus 1 price 10 congestion 0\nbus 2 price 30 congestion 20\nbus 3 price 40 congestion 30\nblock 1 sell 1 mw 50\nblock 2 sell 1 mw 10\nlimit 2 base flow 40 up 40 down 0 rent 1600\nunit 1 mw 50 paid 500\nunit 2 mw 10 paid 300\nload 1 mw 0 pays 0\nload 2 mw 0 pays 0\nload 3 mw 60 pays 2400\nsurplus 1600\n";

/// The first clear, then one with unit 2 at 20.
const CHEAPER: &str =
    "step 1 clear\ncleared\nwelfare -800\nenergy 10\nbus 1 price 10 congestion 0\nbus 2 price 30 congestion 20\nbus 3 price 40 congestion 30\nblock 1 sell 1 mw 50\nblock 2 sell 1 mw 10\nlimit 2 base flow 40 up 40 down 0 rent 1600\nunit 1 mw 50 paid 500\nunit 2 mw 10 paid 300\nload 1 mw 0 pays 0\nload 2 mw 0 pays 0\nload 3 mw 60 pays 2400\nsurplus 1600\nstep 2 edit accepted\nstep 3 clear\ncleared\nwelfare -700\nenergy 10\nbus 1 price 10 congestion 0\nbus 2 price 20 congestion 10\nbus 3 price 25 congestion 15\nblock 1 sell 1 mw 50\nblock 2 sell 1 mw 10\nlimit 2 base flow 40 up 20 down 0 rent 800\nunit 1 mw 50 paid 500\nunit 2 mw 10 paid 200\nload 1 mw 0 pays 0\nload 2 mw 0 pays 0\nload 3 mw 60 pays 1500\nsurplus 800\n";

const CHEAPER_CERTIFICATE: &str =
    "{\"blocks\":[\"50000000000/1\",\"10000000000/1\"],\"energy\":\"10000000/1\",\"kind\":\"optimal\",\"limits\":[{\"branch\":2,\"down\":\"0/1\",\"outage\":0,\"up\":\"20000000/1\"}],\"places\":6,\"version\":2}";

/// A demand of 40 more at bus 1, and no flow over branch 2.
const BLOCKED: &str =
    "step 1 edit accepted\nstep 2 edit accepted\nstep 3 clear\ncleared\nwelfare -2800\nenergy 10\nbus 1 price 10 congestion 0\nbus 2 price 30 congestion 20\nbus 3 price 40 congestion 30\nblock 1 sell 1 mw 10\nblock 2 sell 1 mw 90\nlimit 2 base flow 0 up 40 down 0 rent 0\nunit 1 mw 10 paid 100\nunit 2 mw 90 paid 2700\nload 1 mw 40 pays 400\nload 2 mw 0 pays 0\nload 3 mw 60 pays 2400\nsurplus 0\n";

/// Puts a file more into a store.
fn add<R: Abort>(rt: &R, store: &mut MemoryStore, name: &str, text: &str) {
    assert!(rt; store.add(name, text.as_bytes()).is_ok());
}

/// Runs a subcommand over the three-bus case with a limit of branch 2, with offers, edits and a certificate.
fn expect_task<R: Abort + AllocGlobal>(
    rt: &R,
    line: &str,
    ratings: &str,
    inputs: (&str, &str, &str),
    failing: (&[u64], &[u64]),
    want: Want<'_>,
) -> Result<(), Fail> {
    let case = case(rt, BUSES, UNITS, ratings)?;
    let tables: [(&str, &[u8]); 4] = [
        ("shift.csv", SHIFT.as_bytes()),
        ("loss.csv", LOSS.as_bytes()),
        ("listed.csv", b"branch\n1\n"),
        ("offsets.csv", b"branch,mw\n"),
    ];
    let mut store = stocked(rt, tables.as_slice(), 65_536, failing.0)?;
    add(rt, &mut store, "case.m", case.as_str());
    add(rt, &mut store, "offers.csv", inputs.0);
    add(rt, &mut store, "edits.csv", inputs.1);
    add(rt, &mut store, "in.json", inputs.2);
    answers(rt, line, &mut store, failing.1, want)
}

const ALL: (&[u64], &[u64]) = (&[], &[]);

/// The words of the market, ratings of branch 2, a certificate, and what is told of it.
static VERDICTS: [(&str, &str, &str, Status, &str); 5] = [
    (AFTER, "40 0 45 0 0", OPTIMAL, Status::Done, "yes\n"),
    (AFTER, "40 0 45 0 0", MOVED, Status::Refuted, NO_SLACK),
    (ALONE, "40 0 0 0 0", OPTIMAL, Status::Refuted, NO_ROW),
    (ALONE, "10 0 0 0 0", FARKAS, Status::Done, "yes\n"),
    (ALONE, "40 0 0 0 0", FARKAS, Status::Refuted, "no Bound\n"),
];

const NO_SLACK: &str = "no Slack branch 2 outage 0\n";

const NO_ROW: &str = "no NoRow branch 2 outage 1\n";

#[test]
fn verifies_certificates(rt: HostRuntime) -> Result<(), Fail> {
    for (market, ratings, certificate, status, text) in &VERDICTS {
        let line = format!(in rt.alloc(); "sced verify --certificate in.json {market}")?;
        let inputs = (OFFERS, "", *certificate);
        let want = whole(*status, text);
        expect_task(&rt, line.as_str(), ratings, inputs, ALL, want)?;
    }
    Ok(())
}

/// Words, ratings of branch 2, the other file, and what is told: the status, the text, and the certificate that is written.
static TASKS: [(&str, &str, &str, Status, Text, Option<&str>); 4] = [
    (
        "clear --certificate out.json --case case.m --ptdf shift.csv --offers offers.csv --lodf loss.csv --contingencies listed.csv",
        "40 0 45 0 0",
        "",
        Status::Done,
        Text::Ends("cleared\nwelfare -900\n", "surplus 900\n"),
        Some(OPTIMAL),
    ),
    (
        "clear --certificate out.json --case case.m --ptdf shift.csv --offers offers.csv",
        "10 0 0 0 0",
        "",
        Status::Infeasible,
        Text::Start("infeasible\nbound -"),
        Some(FARKAS),
    ),
    (
        "migrate --certificate in.json --out out.json",
        "40 0 0 0 0",
        MOVED,
        Status::Done,
        Text::Whole("migrated\n"),
        Some(MOVED_ANEW),
    ),
    (
        "rights --rights in.json --case case.m --ptdf shift.csv --offers offers.csv",
        "40 0 0 0 0",
        "from,to,mw\n1,3,50\n1,2,5\n",
        Status::Done,
        Text::Ends(
            LIMITED,
            "surplus 1600\nrights fit\nright 1 pays 1500\nright 2 pays 100\nrights pay 1600\n",
        ),
        None,
    ),
];

#[test]
fn writes_certificates(rt: HostRuntime) -> Result<(), Fail> {
    for (words, ratings, other, status, text, written) in &TASKS {
        let line = format!(in rt.alloc(); "sced {words}")?;
        let want = Want {
            status: *status,
            text: *text,
            written: *written,
        };
        expect_task(&rt, line.as_str(), ratings, (OFFERS, "", *other), ALL, want)?;
    }
    Ok(())
}

/// Edits, and what is told: a status, the text, and the certificate that is written, where one is asked for.
static REPLAYS: [(&str, Status, Text, Option<&str>); 8] = [
    ("", Status::Done, Text::Whole("no steps\n"), None),
    (
        "clear,,,,\nprice,2,sell,1,20\nclear,,,,\n",
        Status::Done,
        Text::Whole(CHEAPER),
        Some(CHEAPER_CERTIFICATE),
    ),
    (
        "demand,1,,,40\nlimit,2,base,,0\nclear,,,,\n",
        Status::Done,
        Text::Whole(BLOCKED),
        None,
    ),
    (
        "price,2,sell,2,5\nclear,,,,\n",
        Status::Refused,
        Text::Ends(
            "step 1 edit refused NoBlock\nstep 2 clear\ncleared\nwelfare -800\n",
            LIMITED,
        ),
        None,
    ),
    (
        "quantity,1,sell,1,120\n",
        Status::Refused,
        Text::Whole("step 1 edit refused OverCapacity 20\n"),
        None,
    ),
    (
        "limit,2,base,,10\nclear,,,,\nlimit,2,base,,40\nclear,,,,\n",
        Status::Infeasible,
        Text::Ends(
            "step 1 edit accepted\nstep 2 clear\ninfeasible\nbound -10\nenergy -1\nlimit 2 base up 2 down 0\nstep 3 edit accepted\n",
            LIMITED,
        ),
        None,
    ),
    (
        "price,1,sell,,5\n",
        Status::Refused,
        Text::Whole("refused edits Cell line 2 col 4 BadNumber\n"),
        None,
    ),
    (
        "demand,3,sell,,5\n",
        Status::Refused,
        Text::Whole("refused edits Word line 2\n"),
        None,
    ),
];

#[test]
fn replays_edits(rt: HostRuntime) -> Result<(), Fail> {
    for (edits, status, text, written) in &REPLAYS {
        let certificate = if written.is_some() {
            " --certificate out.json"
        } else {
            ""
        };
        let line = format!(in rt.alloc(); "sced replay {ALONE} --edits edits.csv{certificate}")?;
        let edits = format!(in rt.alloc(); "op,target,side,block,value\n{edits}")?;
        let want = Want {
            status: *status,
            text: *text,
            written: *written,
        };
        expect_task(
            &rt,
            line.as_str(),
            "40 0 0 0 0",
            (OFFERS, edits.as_str(), ""),
            ALL,
            want,
        )?;
    }
    Ok(())
}

/// Unit 1 sells 50 at 10 and 50 at 20: a price of its first block of 20 keeps their order, and one of 25 does not.
#[test]
fn keeps_the_order_of_prices(rt: HostRuntime) -> Result<(), Fail> {
    let offers = "unit,side,mw,price\n1,sell,50,10\n1,sell,50,20\n2,sell,100,30\n";
    let edits = "op,target,side,block,value\nprice,1,sell,1,25\nprice,1,sell,1,20\n";
    let line = format!(in rt.alloc(); "sced replay {ALONE} --edits edits.csv")?;
    let want = whole(
        Status::Refused,
        "step 1 edit refused OutOfOrder 20\nstep 2 edit accepted\n",
    );
    expect_task(
        &rt,
        line.as_str(),
        "40 0 0 0 0",
        (offers, edits, ""),
        ALL,
        want,
    )
}

#[test]
fn verifies_after_edits(rt: HostRuntime) -> Result<(), Fail> {
    let edits = "op,target,side,block,value\nprice,2,sell,2,5\nclear,,,,\nprice,2,sell,1,20\n";
    let line = format!(in rt.alloc();
        "sced verify {ALONE} --edits edits.csv --certificate in.json"
    )?;
    let yes = whole(Status::Done, "yes\n");
    expect_task(
        &rt,
        line.as_str(),
        "40 0 0 0 0",
        (OFFERS, edits, CHEAPER_CERTIFICATE),
        ALL,
        yes,
    )
}

/// Rings, their status, and what is told.
static RINGS: [(&str, Status, Text); 4] = [
    ("sced make 4 7", Status::Done, Text::Whole(FOUR)),
    ("sced make 16 1", Status::Done, Text::Whole(SIXTEEN)),
    ("sced make 64 1", Status::Done, Text::Start(MOST)),
    ("sced make 5 7", Status::Usage, Text::Start("error")),
];

const FOUR: &str =
    "ring 4 seed 7 buses 4 blocks 8 limits 16\ncleared\nwelfare -4631\nsurplus 1218\n";

const SIXTEEN: &str =
    "ring 16 seed 1 buses 16 blocks 32 limits 256\ncleared\nwelfare -21253\nsurplus 2766\n";

const MOST: &str = "ring 64 seed 1 buses 64 blocks 128 limits 4096\ncleared\nwelfare -";

/// On the ring of four, where branch 1 is lost, bus 1 sends its 42 MW over branch 4, which carries no more; the rest is made at bus 3 for 60.
/// The welfare of that of sixteen was worked out outside, with all rows at once; its surplus is that of one of several sets of duals.
#[test]
fn makes_rings(rt: HostRuntime) -> Result<(), Fail> {
    for (line, status, text) in &RINGS {
        let want = told(*status, *text);
        expect(&rt, line, [].as_slice(), ALL, want)?;
    }
    Ok(())
}

/// A clear with the outage of branch 1.
const AFTER_ONE: Text = Text::Ends("step 1 clear\ncleared\n", "surplus 900\n");

/// Ratings of branch 2, within 40 MW in the base.
const GOOD: &str = "40 0 45 0 0";

/// Ratings, the call of the store and the put that fail, the status, and what is written.
static FAILING: [(&str, u64, u64, Status, Option<&str>); 11] = [
    (GOOD, 0, 9, Status::ReadFailed, None),
    (GOOD, 1, 9, Status::ReadFailed, None),
    (GOOD, 2, 9, Status::ReadFailed, None),
    (GOOD, 3, 9, Status::ReadFailed, None),
    (GOOD, 4, 9, Status::ReadFailed, None),
    (GOOD, 5, 9, Status::ReadFailed, None),
    (GOOD, 6, 9, Status::ReadFailed, None),
    ("x 0 45 0 0", 1, 9, Status::ReadFailed, None),
    (GOOD, 7, 9, Status::WriteFailed, None),
    (GOOD, 8, 0, Status::WriteFailed, Some(OPTIMAL)),
    (GOOD, 8, 1, Status::Done, Some(OPTIMAL)),
];

/// Seven files are read, then a certificate is written and a text is put; one of these fails, or none, and there are no other calls. All
/// files are read before any is understood, so a failed read is told of a malformed case too.
#[test]
fn tells_the_call_that_fails(rt: HostRuntime) -> Result<(), Fail> {
    let edits = "op,target,side,block,value\nclear,,,,\n";
    let line = format!(in rt.alloc();
        "sced replay {AFTER} --offsets offsets.csv --edits edits.csv --certificate out.json"
    )?;
    for (ratings, store_call, put, status, written) in &FAILING {
        let done = *status == Status::Done;
        let want = Want {
            status: *status,
            text: if done { AFTER_ONE } else { Text::Whole("") },
            written: *written,
        };
        let failing = ([*store_call], [*put]);
        expect_task(
            &rt,
            line.as_str(),
            ratings,
            (OFFERS, edits, ""),
            (failing.0.as_slice(), failing.1.as_slice()),
            want,
        )?;
    }
    Ok(())
}
