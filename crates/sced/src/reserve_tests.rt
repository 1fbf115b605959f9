//! Markets that clear spinning reserve beside energy, with texts worked by hand.

use crate::fixture::{BUSES, OFFERS, SHIFT, Text, UNITS, Want, case, expect, whole};
use command_answers::Status;
use std::process::Abort;
use std::test::Fail;

/// Unit 1 offers 50 at 2 and unit 2 offers 50 at 5, of which 60 are needed.
const RESERVES: &str = "offer,1,50,2\noffer,2,50,5\nneed,,60,\n";

/// More is needed than is offered.
const TOO_FEW: &str = "offer,1,50,2\noffer,2,50,5\nneed,,110,\n";

/// Unit 1 sells 60 of its 100 and keeps 40 for reserve: a MW more of either would have unit 2 keep one in its place, for 3 more.
const CLEARED: &str =
    "cleared\nwelfare -780\nenergy 13\nreserve price 5 need 60\nbus 1 price 13 congestion 0\nbus 2 price 13 congestion 0\nbus 3 price 13 congestion 0\nblock 1 sell 1 mw 60\nblock 2 sell 1 mw 0\nroom 1 dual 3\nunit 1 mw 60 paid 780\nunit 2 mw 0 paid 0\nreserve 1 mw 40 paid 200\nreserve 2 mw 20 paid 100\nload 1 mw 0 pays 0\nload 2 mw 0 pays 0\nload 3 mw 60 pays 780\nsurplus 0\n";

const CERTIFICATE: &str =
    "{\"blocks\":[\"60000000000/1\",\"0/1\"],\"energy\":\"13000000/1\",\"kind\":\"optimal\",\"limits\":[],\"places\":6,\"reserve\":{\"price\":\"5000000/1\",\"quantities\":[\"40000000000/1\",\"20000000000/1\"],\"units\":[{\"dual\":\"3000000/1\",\"unit\":1}]},\"version\":3}";

/// 110 are needed and 100 are offered.
const INFEASIBLE: &str = "infeasible\nbound -10\nenergy 0\nreserve dual 1\n";

const FARKAS: &str =
    "{\"energy\":\"0/1\",\"kind\":\"farkas\",\"limits\":[],\"places\":6,\"reserve\":{\"price\":\"1/1\",\"units\":[]},\"version\":3}";

/// What is put and written where no table of reserves is named.
const ENERGY_ALONE: &str =
    "cleared\nwelfare -600\nenergy 10\nbus 1 price 10 congestion 0\nbus 2 price 10 congestion 0\nbus 3 price 10 congestion 0\nblock 1 sell 1 mw 60\nblock 2 sell 1 mw 0\nunit 1 mw 60 paid 600\nunit 2 mw 0 paid 0\nload 1 mw 0 pays 0\nload 2 mw 0 pays 0\nload 3 mw 60 pays 600\nsurplus 0\n";

const PLAIN: &str =
    "{\"blocks\":[\"60000000000/1\",\"0/1\"],\"energy\":\"10000000/1\",\"kind\":\"optimal\",\"limits\":[],\"places\":6,\"version\":2}";

/// Runs words over a case with the tables of factors and of offers, a table of reserves and another file.
fn expect_files<'a, R: Abort + AllocGlobal>(
    rt: &R,
    line: &str,
    case: &'a str,
    table: &'a str,
    other: &'a str,
    want: Want<'_>,
) -> Result<(), Fail> {
    let files: [(&str, &[u8]); 5] = [
        ("case.m", case.as_bytes()),
        ("shift.csv", SHIFT.as_bytes()),
        ("offers.csv", OFFERS.as_bytes()),
        ("reserves.csv", table.as_bytes()),
        ("other", other.as_bytes()),
    ];
    let all = ([].as_slice(), [].as_slice());
    expect(rt, line, files.as_slice(), all, want)
}

/// Runs a subcommand over the three-bus case without limits, with these records of reserve and another file.
fn expect_reserve<R: Abort + AllocGlobal>(
    rt: &R,
    words: &str,
    records: &str,
    other: &str,
    want: Want<'_>,
) -> Result<(), Fail> {
    let case = case(rt, BUSES, UNITS, "0 0 0 0 0")?;
    let table = format!(in rt.alloc(); "kind,unit,mw,price\n{records}")?;
    let line = format!(in rt.alloc();
        "sced {words} --case case.m --ptdf shift.csv --offers offers.csv"
    )?;
    expect_files(
        rt,
        line.as_str(),
        case.as_str(),
        table.as_str(),
        other,
        want,
    )
}

/// A text that is told whole, with the certificate that goes with it.
fn written<'a>(status: Status, text: &'a str, certificate: &'a str) -> Want<'a> {
    Want {
        status,
        text: Text::Whole(text),
        written: Some(certificate),
    }
}

#[test]
fn clears_reserve(rt: HostRuntime) -> Result<(), Fail> {
    let clear = "clear --reserves reserves.csv --certificate out.json";
    let alone = "clear --certificate out.json";
    for (words, records, want) in [
        (clear, RESERVES, written(Status::Done, CLEARED, CERTIFICATE)),
        (
            clear,
            TOO_FEW,
            written(Status::Infeasible, INFEASIBLE, FARKAS),
        ),
        (clear, "", written(Status::Done, ENERGY_ALONE, PLAIN)),
        (alone, RESERVES, written(Status::Done, ENERGY_ALONE, PLAIN)),
    ] {
        expect_reserve(&rt, words, records, "", want)?;
    }
    Ok(())
}

#[test]
fn verifies_reserve(rt: HostRuntime) -> Result<(), Fail> {
    let words = "verify --reserves reserves.csv --certificate other";
    for (records, certificate) in [(RESERVES, CERTIFICATE), (TOO_FEW, FARKAS), ("", PLAIN)] {
        let want = whole(Status::Done, "yes\n");
        expect_reserve(&rt, words, records, certificate, want)?;
    }
    Ok(())
}

/// An edit of the need, with and without reserve, and rights to what no limit earns.
#[test]
fn edits_the_need(rt: HostRuntime) -> Result<(), Fail> {
    let edits = "op,target,side,block,value\nneed,,,,60\nclear,,,,\n";
    let replay = "replay --reserves reserves.csv --edits other";
    let accepted = format!(in rt.alloc(); "step 1 edit accepted\nstep 2 clear\n{CLEARED}")?;
    let refused = format!(in rt.alloc();
        "step 1 edit refused NoReserve\nstep 2 clear\n{ENERGY_ALONE}"
    )?;
    let entitled = format!(in rt.alloc(); "{CLEARED}rights fit\nright 1 pays 0\nrights pay 0\n")?;
    for (words, records, other, want) in [
        (replay, TOO_FEW, edits, whole(Status::Done, &accepted)),
        (replay, "", edits, whole(Status::Refused, &refused)),
        (
            "rights --reserves reserves.csv --rights other",
            RESERVES,
            "from,to,mw\n1,3,50\n",
            whole(Status::Done, &entitled),
        ),
    ] {
        expect_reserve(&rt, words, records, other, want)?;
    }
    Ok(())
}

/// Records of reserve that are refused, and why.
static FAULTS: [(&str, &str); 7] = [
    ("offer,1,1\n", "Width line 2"),
    ("need,1,x,\n", "Word line 2"),
    ("offer,1,x,2\n", "Cell line 2 col 3 BadNumber"),
    ("offer,3,1,2\n", "NoUnit line 2"),
    ("offer,1,-1,2\n", "Negative line 2"),
    ("offer,1,1,2\noffer,1,1,3\n", "Twice line 3"),
    ("need,,1,\nneed,,1,\n", "Twice line 3"),
];

/// Refuses records of reserve.
fn refuses<R: Abort + AllocGlobal>(rt: &R, records: &str, told: &str) -> Result<(), Fail> {
    let line = format!(in rt.alloc(); "refused reserves {told}\n")?;
    let want = whole(Status::Refused, line.as_str());
    expect_reserve(rt, "clear --reserves reserves.csv", records, "", want)
}

#[test]
fn refuses_reserves(rt: HostRuntime) -> Result<(), Fail> {
    for (records, told) in &FAULTS {
        refuses(&rt, records, told)?;
    }
    let many = "need,,1,\n".repeat(rt.alloc(), 1002)?;
    refuses(&rt, many.as_str(), "TooMany count 1002")?;
    let want = whole(Status::Refused, "refused reserves Header\n");
    expect_reserve(&rt, "clear --reserves other", "", "kind,unit,mw\n", want)
}
