//! Limits that give way at a penalty, on the case of three buses, with texts worked by hand.
//!
//! Of the 60 MW at bus 3 each that unit 2 makes in place of unit 1 costs 20 more. It takes 0.5 MW of the flow of branch 2 in the base,
//! which is 45 where unit 1 makes all, and 1 MW of that after the loss of branch 1, which is 60. So a MW of flow is worth 40 in the base
//! and 20 after the loss: a limit gives way at once where its penalty is below that, and does not where it is above.

use crate::tells::tells;
use command_answers::{Status, Told, clear_told, verify_told};
use market_data::FactorPlaces;
use market_tables::{GridTables, MarketTables};
use net_case::PostRating;
use number_bits::NumberBits;
use std::alloc::Global;
use std::process::Abort;
use std::test::Fail;

/// The case up to the ratings of branch 2, and from there.
const HEAD: &str = "function mpc = t3
mpc.version = '2';
mpc.baseMVA = 100;
mpc.bus = [
1 3 0 0 0 0 1 1 0 230 1 1.1 0.9;
2 1 0 0 0 0 1 1 0 230 1 1.1 0.9;
3 1 60 0 0 0 1 1 0 230 1 1.1 0.9;
];
mpc.gen = [
1 0 0 0 0 1 100 1 100 0;
2 0 0 0 0 1 100 1 100 0;
];
mpc.branch = [
1 2 0 0.2 0 0 0 0 0 0 1 -360 360;
1 3 0 0.1 0 ";

const TAIL: &str = " 0 0 1 -360 360;
2 3 0 0.1 0 0 0 0 0 0 1 -360 360;
];
";

const PTDF: &[u8] =
    b"branch,bus,factor\n1,2,-0.5\n2,2,-0.5\n3,2,0.5\n1,3,-0.25\n2,3,-0.75\n3,3,-0.25\n";

const LODF: &[u8] = b"branch,outage,factor\n2,1,1\n3,1,-1\n";

const OFFERS: &[u8] = b"unit,side,mw,price\n1,sell,100,10\n2,sell,100,30\n";

/// A limit of 40 in the base that does not give way: 50 and 10.
const HARD: &str =
    "cleared\nwelfare -800\nenergy 10\nbus 1 price 10 congestion 0\nbus 2 price 30 congestion 20\nbus 3 price 40 congestion 30\nblock 1 sell 1 mw 50\nblock 2 sell 1 mw 10\nlimit 2 base flow 40 up 40 down 0 rent 1600\nunit 1 mw 50 paid 500\nunit 2 mw 10 paid 300\nload 1 mw 0 pays 0\nload 2 mw 0 pays 0\nload 3 mw 60 pays 2400\nsurplus 1600\n";

/// Unit 1 makes all for 600, and 5 MW beyond the limit cost 125.
const EXCEEDED: &str =
    "cleared\nwelfare -725\nenergy 10\nbus 1 price 10 congestion 0\nbus 2 price 22.5 congestion 12.5\nbus 3 price 28.75 congestion 18.75\nblock 1 sell 1 mw 60\nblock 2 sell 1 mw 0\nlimit 2 base flow 45 over 5 up 25 down 0 rent 1125\nunit 1 mw 60 paid 600\nunit 2 mw 0 paid 0\nload 1 mw 0 pays 0\nload 2 mw 0 pays 0\nload 3 mw 60 pays 1725\nsurplus 1125\n";

/// The flow may be 43 at most, so unit 2 makes 4, and the limit's price is that of the flow and not the penalty.
const USED_UP: &str =
    "cleared\nwelfare -755\nenergy 10\nbus 1 price 10 congestion 0\nbus 2 price 30 congestion 20\nbus 3 price 40 congestion 30\nblock 1 sell 1 mw 56\nblock 2 sell 1 mw 4\nlimit 2 base flow 43 over 3 up 40 down 0 rent 1720\nunit 1 mw 56 paid 560\nunit 2 mw 4 paid 120\nload 1 mw 0 pays 0\nload 2 mw 0 pays 0\nload 3 mw 60 pays 2400\nsurplus 1720\n";

/// A limit of 45 after the loss of branch 1 that does not give way: 45 and 15.
const AFTER_HARD: &str =
    "cleared\nwelfare -900\nenergy 10\nbus 1 price 10 congestion 0\nbus 2 price 30 congestion 20\nbus 3 price 30 congestion 20\nblock 1 sell 1 mw 45\nblock 2 sell 1 mw 15\nlimit 2 after 1 flow 45 up 20 down 0 rent 900\nunit 1 mw 45 paid 450\nunit 2 mw 15 paid 450\nload 1 mw 0 pays 0\nload 2 mw 0 pays 0\nload 3 mw 60 pays 1800\nsurplus 900\n";

/// Unit 1 makes all for 600, and 15 MW beyond the limit after the loss cost 225.
const AFTER_EXCEEDED: &str =
    "cleared\nwelfare -825\nenergy 10\nbus 1 price 10 congestion 0\nbus 2 price 25 congestion 15\nbus 3 price 25 congestion 15\nblock 1 sell 1 mw 60\nblock 2 sell 1 mw 0\nlimit 2 after 1 flow 60 over 15 up 15 down 0 rent 900\nunit 1 mw 60 paid 600\nunit 2 mw 0 paid 0\nload 1 mw 0 pays 0\nload 2 mw 0 pays 0\nload 3 mw 60 pays 1500\nsurplus 900\n";

/// A MW of unit 2 saves 17.5 of penalties, half of 15 in the base and 10 after the loss, and costs 20. So it makes no more than the 4
/// that keep the flow in the base at 43; that after the loss is 56. Bus 2's price of 30 is 10, half of 20 in the base, and 10 after the
/// loss. Costs of 560 and 120 and penalties of 45 and 110 are 835.
const BOTH: &str =
    "cleared\nwelfare -835\nenergy 10\nbus 1 price 10 congestion 0\nbus 2 price 30 congestion 20\nbus 3 price 35 congestion 25\nblock 1 sell 1 mw 56\nblock 2 sell 1 mw 4\nlimit 2 base flow 43 over 3 up 20 down 0 rent 860\nlimit 2 after 1 flow 56 over 11 up 10 down 0 rent 560\nunit 1 mw 56 paid 560\nunit 2 mw 4 paid 120\nload 1 mw 0 pays 0\nload 2 mw 0 pays 0\nload 3 mw 60 pays 2100\nsurplus 1420\n";

/// Where unit 2 makes all 60 the flow is 15, which is above 14. Twice 14 less 30 is -2.
const INFEASIBLE: &str = "infeasible\nbound -2\nenergy -1\nlimit 2 base up 2 down 0\n";

const FARKAS: &[u8] =
    b"{\"energy\":\"-1/1\",\"kind\":\"farkas\",\"limits\":[{\"branch\":2,\"down\":\"0/1\",\"outage\":0,\"up\":\"2/1\"}],\"places\":6,\"version\":2}";

/// A dispatch of 60 and 0 that names no limit.
const UNNAMED: &[u8] =
    b"{\"blocks\":[\"60000000000/1\",\"0/1\"],\"energy\":\"10000000/1\",\"kind\":\"optimal\",\"limits\":[],\"places\":6,\"version\":2}";

/// The tables of the market with a case and penalties.
fn tables<'a>(case: &'a [u8], penalties: &'a [u8]) -> MarketTables<&'a [u8]> {
    let grid = GridTables {
        case,
        ptdf: PTDF,
        lodf: LODF,
        contingencies: b"branch\n1\n".as_slice(),
    };
    MarketTables {
        grid,
        unit_outages: b"unit,taker,share\n".as_slice(),
        offers: OFFERS,
        reserves: b"kind,unit,mw,price\n".as_slice(),
        offsets: b"branch,mw\n".as_slice(),
        penalties,
    }
}

/// The case with RATE_A, RATE_B and RATE_C of branch 2.
fn case(alloc: Global, ratings: &str) -> Result<String, Fail> {
    Ok(format!(in alloc; "{HEAD}{ratings}{TAIL}")?)
}

/// The table of penalties with these records.
fn penalties(alloc: Global, records: &str) -> Result<String, Fail> {
    Ok(format!(in alloc; "branch,limit,price,excess\n{records}\n")?)
}

/// What a clear with these ratings and penalties tells.
fn cleared(alloc: Global, ratings: &str, records: &str) -> Result<Told, Fail> {
    let case = case(alloc, ratings)?;
    let penalties = penalties(alloc, records)?;
    let bytes = tables(case.as_bytes(), penalties.as_bytes());
    Ok(clear_told(
        alloc,
        &bytes,
        PostRating::C,
        FactorPlaces::Six,
        NumberBits::Bits1023,
    )?)
}

/// What a verification of a certificate with these ratings and penalties tells.
fn verified(alloc: Global, ratings: &str, records: &str, certificate: &[u8]) -> Result<Told, Fail> {
    let case = case(alloc, ratings)?;
    let penalties = penalties(alloc, records)?;
    let bytes = tables(case.as_bytes(), penalties.as_bytes());
    let edits = b"op,target,side,block,value\n".as_slice();
    Ok(verify_told(
        alloc,
        &bytes,
        PostRating::C,
        FactorPlaces::Six,
        edits,
        certificate,
        NumberBits::Bits1023,
    )?)
}

/// Verifies the certificate where there is one.
fn expect_yes<R: Abort + AllocGlobal>(
    rt: &R,
    ratings: &str,
    records: &str,
    certificate: Option<&[u8]>,
) -> Result<(), Fail> {
    if let Some(certificate) = certificate {
        let verdict = verified(rt.alloc(), ratings, records, certificate)?;
        assert!(rt; tells(verdict, Status::Done, b"yes\n"));
    }
    Ok(())
}

/// Clears, and verifies the certificate where there is one.
fn expect<R: Abort + AllocGlobal>(
    rt: &R,
    ratings: &str,
    records: &str,
    status: Status,
    text: &str,
) -> Result<(), Fail> {
    let told = cleared(rt.alloc(), ratings, records)?;
    let certificate = told.outputs.certificate.as_deref();
    expect_yes(rt, ratings, records, certificate)?;
    assert!(rt; tells(told, status, text.as_bytes()));
    Ok(())
}

#[test]
fn clears_with_penalties(rt: HostRuntime) -> Result<(), Fail> {
    for (ratings, records, text) in [
        ("40 0 0", "2,base,25,10", EXCEEDED),
        ("40 0 0", "2,base,25,3", USED_UP),
        ("40 0 0", "2,base,50,10", HARD),
        ("40 0 0", "2,base,25,0", HARD),
        ("0 0 45", "2,post,15,20", AFTER_EXCEEDED),
        ("0 0 45", "2,post,30,20", AFTER_HARD),
        ("40 0 45", "2,base,15,3\n2,post,10,12", BOTH),
    ] {
        expect(&rt, ratings, records, Status::Done, text)?;
    }
    Ok(())
}

#[test]
fn does_not_clear_with_penalties(rt: HostRuntime) -> Result<(), Fail> {
    expect(&rt, "10 0 0", "2,base,25,4", Status::Infeasible, INFEASIBLE)?;
    let refused = "refused penalties Penalty line 2\n";
    expect(&rt, "40 0 0", "2,base,0,3", Status::Refused, refused)
}

/// The duals by which nothing is feasible, with an excess of 4 and with one of 5, by which 60 MW of unit 2 are; and a flow of 45 at a
/// limit that gives way, which a certificate does not name.
#[test]
fn verifies_with_penalties(rt: HostRuntime) -> Result<(), Fail> {
    for (ratings, records, certificate, status, text) in [
        ("10 0 0", "2,base,25,4", FARKAS, Status::Done, "yes\n"),
        (
            "10 0 0",
            "2,base,25,5",
            FARKAS,
            Status::Refuted,
            "no Bound\n",
        ),
        (
            "40 0 0",
            "2,base,25,10",
            UNNAMED,
            Status::Refuted,
            "no Slack branch 2 outage 0\n",
        ),
    ] {
        let told = verified(rt.alloc(), ratings, records, certificate)?;
        assert!(rt; tells(told, status, text.as_bytes()));
    }
    Ok(())
}
