//! Spinning reserve on the case of three buses without limits, with texts worked by hand: 60 MW of load at bus 3, units 1 and 2 of 100 MW
//! at 10 and at 30, which offer 50 MW of reserve at 2 and at 5.
//!
//! Where 60 MW are needed, energy and reserve share unit 1's room: a MW less of reserve there costs 3 more at unit 2, and so does a MW
//! more of energy.

use crate::tells::tells;
use command_answers::{Status, clear_told, replay_told, verify_told};
use market_data::FactorPlaces;
use market_tables::{GridTables, MarketTables};
use net_case::PostRating;
use number_bits::NumberBits;
use std::process::Abort;
use std::test::Fail;

const CASE: &[u8] = b"function mpc = t3
mpc.version = '2';
mpc.baseMVA = 100;
mpc.bus = [
1 3 0 0 0 0 1 1 0 230 1 1.1 0.9;
2 1 0 0 0 0 1 1 0 230 1 1.1 0.9;
3 1 60 0 0 0 1 1 0 230 1 1.1 0.9;
];
mpc.gen = [
1 0 0 0 0 1 100 1 100 0;
2 0 0 0 0 1 100 1 100 0;
];
mpc.branch = [
1 2 0 0.2 0 0 0 0 0 0 1 -360 360;
1 3 0 0.1 0 0 0 0 0 0 1 -360 360;
2 3 0 0.1 0 0 0 0 0 0 1 -360 360;
];
";

const PTDF: &[u8] =
    b"branch,bus,factor\n1,2,-0.5\n2,2,-0.5\n3,2,0.5\n1,3,-0.25\n2,3,-0.75\n3,3,-0.25\n";

const NEED_60: &[u8] = b"kind,unit,mw,price\noffer,1,50,2\noffer,2,50,5\nneed,,60,\n";

const NEED_20: &[u8] = b"kind,unit,mw,price\noffer,1,50,2\noffer,2,50,5\nneed,,20,\n";

/// More than the offers have.
const NEED_110: &[u8] = b"kind,unit,mw,price\noffer,1,50,2\noffer,2,50,5\nneed,,110,\n";

const SHARED: &str =
    "cleared\nwelfare -780\nenergy 13\nreserve price 5 need 60\nbus 1 price 13 congestion 0\nbus 2 price 13 congestion 0\nbus 3 price 13 congestion 0\nblock 1 sell 1 mw 60\nblock 2 sell 1 mw 0\nroom 1 dual 3\nunit 1 mw 60 paid 780\nunit 2 mw 0 paid 0\nreserve 1 mw 40 paid 200\nreserve 2 mw 20 paid 100\nload 1 mw 0 pays 0\nload 2 mw 0 pays 0\nload 3 mw 60 pays 780\nsurplus 0\n";

const SHARED_CERTIFICATE: &str =
    "{\"blocks\":[\"60000000000/1\",\"0/1\"],\"energy\":\"13000000/1\",\"kind\":\"optimal\",\"limits\":[],\"places\":6,\"reserve\":{\"price\":\"5000000/1\",\"quantities\":[\"40000000000/1\",\"20000000000/1\"],\"units\":[{\"dual\":\"3000000/1\",\"unit\":1}]},\"version\":3}";

const TOO_MUCH: &str = "infeasible\nbound -10\nenergy 0\nreserve dual 1\n";

const TOO_MUCH_CERTIFICATE: &str =
    "{\"energy\":\"0/1\",\"kind\":\"farkas\",\"limits\":[],\"places\":6,\"reserve\":{\"price\":\"1/1\",\"units\":[]},\"version\":3}";

/// Unit 1 has room for 20 MW beside its energy.
const RAISED_AND_LET_DOWN: &str =
    "step 1 clear\ncleared\nwelfare -640\nenergy 10\nreserve price 2 need 20\nbus 1 price 10 congestion 0\nbus 2 price 10 congestion 0\nbus 3 price 10 congestion 0\nblock 1 sell 1 mw 60\nblock 2 sell 1 mw 0\nunit 1 mw 60 paid 600\nunit 2 mw 0 paid 0\nreserve 1 mw 20 paid 40\nreserve 2 mw 0 paid 0\nload 1 mw 0 pays 0\nload 2 mw 0 pays 0\nload 3 mw 60 pays 600\nsurplus 0\nstep 2 edit accepted\nstep 3 edit refused Negative\nstep 4 clear\ncleared\nwelfare -780\nenergy 13\nreserve price 5 need 60\nbus 1 price 13 congestion 0\nbus 2 price 13 congestion 0\nbus 3 price 13 congestion 0\nblock 1 sell 1 mw 60\nblock 2 sell 1 mw 0\nroom 1 dual 3\nunit 1 mw 60 paid 780\nunit 2 mw 0 paid 0\nreserve 1 mw 40 paid 200\nreserve 2 mw 20 paid 100\nload 1 mw 0 pays 0\nload 2 mw 0 pays 0\nload 3 mw 60 pays 780\nsurplus 0\nstep 5 edit accepted\nstep 6 clear\ncleared\nwelfare -640\nenergy 10\nreserve price 2 need 20\nbus 1 price 10 congestion 0\nbus 2 price 10 congestion 0\nbus 3 price 10 congestion 0\nblock 1 sell 1 mw 60\nblock 2 sell 1 mw 0\nunit 1 mw 60 paid 600\nunit 2 mw 0 paid 0\nreserve 1 mw 20 paid 40\nreserve 2 mw 0 paid 0\nload 1 mw 0 pays 0\nload 2 mw 0 pays 0\nload 3 mw 60 pays 600\nsurplus 0\n";

/// Units 1 and 2 would keep 150 MW each, which leaves no room for the load.
const NO_ROOM: &[u8] = b"kind,unit,mw,price\noffer,1,150,2\noffer,2,150,5\nneed,,150,\n";

/// Who offers is paid for by nobody where no reserve is needed: the price would fall below 0.
const BELOW_NOTHING: &str =
    "cleared\nwelfare -540\nenergy 10\nreserve price 0 need 0\nbus 1 price 10 congestion 0\nbus 2 price 10 congestion 0\nbus 3 price 10 congestion 0\nblock 1 sell 1 mw 60\nblock 2 sell 1 mw 0\nunit 1 mw 60 paid 600\nunit 2 mw 0 paid 0\nreserve 1 mw 30 paid 0\nload 1 mw 0 pays 0\nload 2 mw 0 pays 0\nload 3 mw 60 pays 600\nsurplus 0\n";

/// Unit 2 buys 20 MW, which leaves it a room of 120 MW for reserve.
const BUYING: &str =
    "cleared\nwelfare -640\nenergy 10\nreserve price 8 need 125\nbus 1 price 10 congestion 0\nbus 2 price 10 congestion 0\nbus 3 price 10 congestion 0\nblock 1 sell 1 mw 80\nblock 2 sell 1 mw 0\nblock 2 buy 1 mw 20\nroom 2 dual 3\nunit 1 mw 80 paid 800\nunit 2 mw -20 paid -200\nreserve 1 mw 5 paid 40\nreserve 2 mw 120 paid 960\nload 1 mw 0 pays 0\nload 2 mw 0 pays 0\nload 3 mw 60 pays 600\nsurplus 0\n";

/// Unit 1 makes what branch 3 stands after its loss, and keeps the rest of its room; branch 2 gives way, as that costs less than unit 3.
const WITH_OUTAGES: &str =
    "cleared\nwelfare -938\nenergy 15.75\nreserve price 5 need 60\nbus 1 price 15.75 congestion 0\nbus 2 price 17.25 congestion 1.5\nbus 3 price 40 congestion 24.25\nblock 1 sell 1 mw 56\nblock 2 sell 1 mw 0\nblock 3 sell 1 mw 4\nlimit 2 base flow 42 over 2 up 25 down 0 rent 1050\nlimit 3 lost 1 flow 21 up 22 down 0 rent 462\nroom 1 dual 3\nunit 1 mw 56 paid 728 own 13\nunit 2 mw 0 paid 0\nunit 3 mw 4 paid 160\nreserve 1 mw 44 paid 220\nreserve 2 mw 16 paid 80\nload 1 mw 0 pays 0\nload 2 mw 0 pays 0\nload 3 mw 60 pays 2400\nsurplus 1512\n";

/// The same with a PMIN of -20 of unit 2.
const BUYING_CASE: &[u8] = b"function mpc = t3
mpc.version = '2';
mpc.baseMVA = 100;
mpc.bus = [
1 3 0 0 0 0 1 1 0 230 1 1.1 0.9;
2 1 0 0 0 0 1 1 0 230 1 1.1 0.9;
3 1 60 0 0 0 1 1 0 230 1 1.1 0.9;
];
mpc.gen = [
1 0 0 0 0 1 100 1 100 0;
2 0 0 0 0 1 100 1 100 -20;
];
mpc.branch = [
1 2 0 0.2 0 0 0 0 0 0 1 -360 360;
1 3 0 0.1 0 0 0 0 0 0 1 -360 360;
2 3 0 0.1 0 0 0 0 0 0 1 -360 360;
];
";

/// The same with a unit at bus 3 too, and two ratings.
const LIMITED_CASE: &[u8] = b"function mpc = t3
mpc.version = '2';
mpc.baseMVA = 100;
mpc.bus = [
1 3 0 0 0 0 1 1 0 230 1 1.1 0.9;
2 1 0 0 0 0 1 1 0 230 1 1.1 0.9;
3 1 60 0 0 0 1 1 0 230 1 1.1 0.9;
];
mpc.gen = [
1 0 0 0 0 1 100 1 100 0;
2 0 0 0 0 1 100 1 100 0;
3 0 0 0 0 1 100 1 100 0;
];
mpc.branch = [
1 2 0 0.2 0 0 0 0 0 0 1 -360 360;
1 3 0 0.1 0 40 0 0 0 0 1 -360 360;
2 3 0 0.1 0 0 0 21 0 0 1 -360 360;
];
";

/// The case with a table of reserves.
fn tables(reserves: &[u8]) -> MarketTables<&[u8]> {
    let grid = GridTables {
        case: CASE,
        ptdf: PTDF,
        lodf: b"branch,outage,factor\n".as_slice(),
        contingencies: b"branch\n".as_slice(),
    };
    MarketTables {
        grid,
        unit_outages: b"unit,taker,share\n".as_slice(),
        offers: b"unit,side,mw,price\n1,sell,100,10\n2,sell,100,30\n".as_slice(),
        reserves,
        offsets: b"branch,mw\n".as_slice(),
        penalties: b"branch,limit,price,excess\n".as_slice(),
    }
}

/// The case without ratings, where unit 2 may buy.
fn buying() -> MarketTables<&'static [u8]> {
    let grid = GridTables {
        case: BUYING_CASE,
        ..tables(NEED_60).grid
    };
    MarketTables {
        grid,
        offers: b"unit,side,mw,price\n1,sell,100,10\n2,sell,100,30\n2,buy,20,40\n".as_slice(),
        ..tables(b"kind,unit,mw,price\noffer,1,50,8\noffer,2,130,5\nneed,,125,\n")
    }
}

/// The case with ratings, of which that of branch 2 gives way at 25, where unit 1 may be lost.
fn limited() -> MarketTables<&'static [u8]> {
    let grid = GridTables {
        case: LIMITED_CASE,
        ..tables(NEED_60).grid
    };
    MarketTables {
        grid,
        unit_outages: b"unit,taker,share\n1,2,0.5\n1,3,0.5\n".as_slice(),
        offers: b"unit,side,mw,price\n1,sell,100,10\n2,sell,100,30\n3,sell,100,40\n".as_slice(),
        penalties: b"branch,limit,price,excess\n2,base,25,10\n".as_slice(),
        ..tables(NEED_60)
    }
}

/// No edits.
const NO_EDITS: &[u8] = b"op,target,side,block,value\n";

/// Compares what a verification after edits tells.
fn verifies<R: Abort + AllocGlobal>(
    rt: &R,
    tables: &MarketTables<&[u8]>,
    edits: &[u8],
    certificate: &[u8],
    want: (Status, &str),
) -> Result<(), Fail> {
    let verdict = verify_told(
        rt.alloc(),
        tables,
        PostRating::C,
        FactorPlaces::Six,
        edits,
        certificate,
        NumberBits::Bits1023,
    )?;
    assert!(rt; tells(verdict, want.0, want.1.as_bytes()));
    Ok(())
}

/// Clears, and verifies the certificate, which is this one where one is given.
fn clears<R: Abort + AllocGlobal>(
    rt: &R,
    tables: &MarketTables<&[u8]>,
    want: (Status, &str),
    certificate: Option<&str>,
) -> Result<(), Fail> {
    let told = clear_told(
        rt.alloc(),
        tables,
        PostRating::C,
        FactorPlaces::Six,
        NumberBits::Bits127,
    )?;
    let written = told.outputs.certificate.as_deref();
    let written = written.unwrap_or(b"".as_slice());
    let is_wanted = match certificate {
        Some(text) => written == text.as_bytes(),
        None => true,
    };
    verifies(rt, tables, NO_EDITS, written, (Status::Done, "yes\n"))?;
    assert!(rt; tells(told, want.0, want.1.as_bytes()) && is_wanted);
    Ok(())
}

#[test]
fn clears_with_reserve(rt: HostRuntime) -> Result<(), Fail> {
    for (reserves, status, text, certificate) in [
        (NEED_60, Status::Done, SHARED, SHARED_CERTIFICATE),
        (NEED_110, Status::Infeasible, TOO_MUCH, TOO_MUCH_CERTIFICATE),
    ] {
        clears(&rt, &tables(reserves), (status, text), Some(certificate))?;
    }
    Ok(())
}

#[test]
fn replays_the_need(rt: HostRuntime) -> Result<(), Fail> {
    let edits =
        b"op,target,side,block,value\nclear,,,,\nneed,,,,60\nneed,,,,-1\nclear,,,,\nneed,,,,20\nclear,,,,\n";
    let replayed = replay_told(
        rt.alloc(),
        &tables(NEED_20),
        PostRating::C,
        FactorPlaces::Six,
        edits,
        NumberBits::Bits127,
    )?;
    assert!(rt; tells(replayed, Status::Refused, RAISED_AND_LET_DOWN.as_bytes()));
    Ok(())
}

/// What a certificate tells of reserve.
#[derive(Clone, Copy)]
struct Part<'a> {
    price: &'a str,
    quantities: &'a str,
    units: &'a str,
}

/// That of the market that needs 60 MW.
const RIGHT: Part = Part {
    price: "5000000/1",
    quantities: "\"40000000000/1\",\"20000000000/1\"",
    units: "{\"dual\":\"3000000/1\",\"unit\":1}",
};

#[test]
fn refutes_by_reserve(rt: HostRuntime) -> Result<(), Fail> {
    let quantities = |quantities| Part {
        quantities,
        ..RIGHT
    };
    let units = |units| Part { units, ..RIGHT };
    let price = |price| Part { price, ..RIGHT };
    for (part, line) in [
        (quantities("\"40000000000/1\""), "no Count\n"),
        (
            units("{\"dual\":\"3000000/1\",\"unit\":0}"),
            "no NoUnit unit 0\n",
        ),
        (price("-1/1"), "no NeedSign\n"),
        (
            units("{\"dual\":\"-1/1\",\"unit\":1}"),
            "no RoomSign unit 1\n",
        ),
        (
            quantities("\"40000000000/1\",\"60000000000/1\""),
            "no Reserve 2\n",
        ),
        (
            quantities("\"40000000000/1\",\"10000000000/1\""),
            "no Need\n",
        ),
        (
            quantities("\"50000000000/1\",\"10000000000/1\""),
            "no Room unit 1\n",
        ),
        (
            quantities("\"40000000000/1\",\"30000000000/1\""),
            "no NeedSlack\n",
        ),
        (
            quantities("\"30000000000/1\",\"30000000000/1\""),
            "no RoomSlack unit 1\n",
        ),
        (price("6000000/1"), "no ReserveSupport 1\n"),
    ] {
        let Part {
            price,
            quantities,
            units,
        } = part;
        let certificate = format!(in rt.alloc();
            "{{\"blocks\":[\"60000000000/1\",\"0/1\"],\"energy\":\"13000000/1\",\"kind\":\"optimal\",\"limits\":[],\"places\":6,\"reserve\":{{\"price\":\"{price}\",\"quantities\":[{quantities}],\"units\":[{units}]}},\"version\":3}}"
        )?;
        let certificate = certificate.as_bytes();
        let want = (Status::Refuted, line);
        verifies(&rt, &tables(NEED_60), NO_EDITS, certificate, want)?;
    }
    Ok(())
}

/// What is cleared or infeasible at the edges of reserve, and beside limits that give way and a unit that may be lost, by numbers worked
/// outside; each certificate holds.
#[test]
fn clears_at_the_edges(rt: HostRuntime) -> Result<(), Fail> {
    let unpaid = b"kind,unit,mw,price\noffer,1,30,-2\nneed,,0,\n".as_slice();
    let unoffered = b"kind,unit,mw,price\nneed,,10,\n".as_slice();
    for (tables, status, text) in [
        (tables(unpaid), Status::Done, BELOW_NOTHING),
        (tables(unoffered), Status::Infeasible, TOO_MUCH),
        (
            tables(NO_ROOM),
            Status::Infeasible,
            "infeasible\nbound -10\nenergy 1\nreserve dual 1\nroom 1 dual 1\nroom 2 dual 1\n",
        ),
        (buying(), Status::Done, BUYING),
        (limited(), Status::Done, WITH_OUTAGES),
    ] {
        clears(&rt, &tables, (status, text), None)?;
    }
    Ok(())
}

/// A room that is taken at one need, and stands at its lower bound at another, where unit 2 buys all that it may and keeps nothing ready.
#[test]
fn keeps_a_room(rt: HostRuntime) -> Result<(), Fail> {
    let edits = b"op,target,side,block,value\nclear,,,,\nneed,,,,0\nclear,,,,\n";
    let tables = buying();
    let replayed = replay_told(
        rt.alloc(),
        &tables,
        PostRating::C,
        FactorPlaces::Six,
        edits,
        NumberBits::Bits127,
    )?;
    let written = replayed.outputs.certificate.as_deref();
    let written = written.unwrap_or(b"".as_slice());
    verifies(&rt, &tables, edits, written, (Status::Done, "yes\n"))?;
    assert!(rt; replayed.status == Status::Done);
    Ok(())
}
