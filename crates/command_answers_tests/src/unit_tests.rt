//! Outages of units on the case of three buses with a unit at each, with texts worked by hand.
//!
//! A MW at bus 2 moves the flow of branch 3 by 0.5, one at bus 3 by -0.25; that of branch 1 by -0.5 and -0.25. The load is 60 MW at bus 3.
//! Where units 2 and 3 pick up half of unit 1's output each, each MW of it adds 0.125 MW to the flow of branch 3 after its loss.

use crate::tells::tells;
use command_answers::{Status, clear_told, replay_told, verify_told};
use market_data::FactorPlaces;
use market_tables::{GridTables, MarketTables};
use net_case::PostRating;
use number_bits::NumberBits;
use std::alloc::Global;
use std::process::Abort;
use std::test::Fail;

const BUSES: &str = "function mpc = t3
mpc.version = '2';
mpc.baseMVA = 100;
mpc.bus = [
1 3 0 0 0 0 1 1 0 230 1 1.1 0.9;
2 1 0 0 0 0 1 1 0 230 1 1.1 0.9;
3 1 60 0 0 0 1 1 0 230 1 1.1 0.9;
];
mpc.gen = [
";

const PTDF: &[u8] =
    b"branch,bus,factor\n1,2,-0.5\n2,2,-0.5\n3,2,0.5\n1,3,-0.25\n2,3,-0.75\n3,3,-0.25\n";

const LODF: &[u8] = b"branch,outage,factor\n2,1,1\n3,1,-1\n";

/// A unit at each bus.
const UNITS: &str =
    "1 0 0 0 0 1 100 1 100 0;\n2 0 0 0 0 1 100 1 100 0;\n3 0 0 0 0 1 100 1 100 0;\n";

/// Unit 1 makes 20 MW at least.
const MUST_RUN: &str =
    "1 20 0 0 0 1 100 1 100 20;\n2 0 0 0 0 1 100 1 100 0;\n3 0 0 0 0 1 100 1 100 0;\n";

/// Unit 4 is one more at bus 1.
const TWO_AT_ONE: &str =
    "1 0 0 0 0 1 100 1 100 0;\n2 0 0 0 0 1 100 1 100 0;\n3 0 0 0 0 1 100 1 100 0;\n1 0 0 0 0 1 100 1 100 0;\n";

/// Unit 4 is a load at bus 3 that can be lost.
const WITH_LOAD: &str =
    "1 0 0 0 0 1 100 1 100 0;\n2 0 0 0 0 1 100 1 100 0;\n3 0 0 0 0 1 100 1 100 0;\n3 0 0 0 0 1 100 1 0 -30;\n";

/// 20 is 10 and 0.125 of 80. A MW of unit 3 in place of unit 1 costs 30 more and takes 0.375 MW of the flow.
const HALVES: &str =
    "cleared\nwelfare -720\nenergy 20\nbus 1 price 20 congestion 0\nbus 2 price -20 congestion -40\nbus 3 price 40 congestion 20\nblock 1 sell 1 mw 56\nblock 2 sell 1 mw 0\nblock 3 sell 1 mw 4\nlimit 3 lost 1 flow 21 up 80 down 0 rent 1680\nunit 1 mw 56 paid 560 own 10\nunit 2 mw 0 paid 0\nunit 3 mw 4 paid 160\nload 1 mw 0 pays 0\nload 2 mw 0 pays 0\nload 3 mw 60 pays 2400\nsurplus 1680\n";

/// The same with 20 MW that unit 1 makes for no offer.
const FIXED: &str =
    "cleared\nwelfare -520\nenergy 20\nbus 1 price 20 congestion 0\nbus 2 price -20 congestion -40\nbus 3 price 40 congestion 20\nblock 1 sell 1 mw 36\nblock 2 sell 1 mw 0\nblock 3 sell 1 mw 4\nlimit 3 lost 1 flow 21 up 80 down 0 rent 1680\nunit 1 mw 56 paid 560 own 10\nunit 2 mw 0 paid 0\nunit 3 mw 4 paid 160\nload 1 mw 0 pays 0\nload 2 mw 0 pays 0\nload 3 mw 60 pays 2400\nsurplus 1680\n";

/// 60 MW of unit 1 make 22.5 of flow after its loss; 1.5 beyond the limit cost 45.
const EXCEEDED: &str =
    "cleared\nwelfare -645\nenergy 13.75\nbus 1 price 13.75 congestion 0\nbus 2 price -1.25 congestion -15\nbus 3 price 21.25 congestion 7.5\nblock 1 sell 1 mw 60\nblock 2 sell 1 mw 0\nblock 3 sell 1 mw 0\nlimit 3 lost 1 flow 22.5 over 1.5 up 30 down 0 rent 675\nunit 1 mw 60 paid 600 own 10\nunit 2 mw 0 paid 0\nunit 3 mw 0 paid 0\nload 1 mw 0 pays 0\nload 2 mw 0 pays 0\nload 3 mw 60 pays 1275\nsurplus 675\n";

/// A taker at the bus of the unit that is lost moves no flow.
const SAME_BUS: &str =
    "cleared\nwelfare -600\nenergy 10\nbus 1 price 10 congestion 0\nbus 2 price 10 congestion 0\nbus 3 price 10 congestion 0\nblock 1 sell 1 mw 60\nblock 2 sell 1 mw 0\nblock 3 sell 1 mw 0\nunit 1 mw 60 paid 600 own 10\nunit 2 mw 0 paid 0\nunit 3 mw 0 paid 0\nunit 4 mw 0 paid 0\nload 1 mw 0 pays 0\nload 2 mw 0 pays 0\nload 3 mw 60 pays 600\nsurplus 0\n";

/// Unit 2 takes up unit 1's output and unit 3 that of unit 4, at one bus with it. Only the loss of unit 1 binds: 15 and half of its 12 MW.
const TWO_PRICES: &str =
    "cleared\nwelfare -648\nenergy 11\nbus 1 price 11 congestion 0\nbus 2 price 10 congestion -1\nbus 3 price 11.5 congestion 0.5\nblock 1 sell 1 mw 12\nblock 2 sell 1 mw 0\nblock 3 sell 1 mw 0\nblock 4 sell 1 mw 48\nlimit 3 lost 1 flow 21 up 2 down 0 rent 42\nunit 1 mw 12 paid 120 own 10\nunit 2 mw 0 paid 0\nunit 3 mw 0 paid 0\nunit 4 mw 48 paid 528 own 11\nload 1 mw 0 pays 0\nload 2 mw 0 pays 0\nload 3 mw 60 pays 690\nsurplus 42\n";

/// When the load of 30 is lost unit 2 makes 30 less. The flow of branch 1 is then 15, less half of unit 2's 20, and half of the 30.
const LOAD_LOST: &str =
    "cleared\nwelfare 200\nenergy 10\nbus 1 price 10 congestion 0\nbus 2 price 30 congestion 20\nbus 3 price 20 congestion 10\nblock 1 sell 1 mw 70\nblock 2 sell 1 mw 20\nblock 4 buy 1 mw 30\nlimit 1 lost 4 flow 20 up 40 down 0 rent 800\nunit 1 mw 70 paid 700\nunit 2 mw 20 paid 600\nunit 3 mw 0 paid 0\nunit 4 mw -30 paid -900 own 30\nload 1 mw 0 pays 0\nload 2 mw 0 pays 0\nload 3 mw 60 pays 1200\nsurplus 800\n";

/// After the loss of branch 1 branch 2 carries all of unit 1's 50; after that of unit 1 branch 3 carries 15 + 1.5 - 1.75 + 6.25.
const BOTH: &str =
    "cleared\nwelfare -905\nenergy 12.5\nbus 1 price 12.5 congestion 0\nbus 2 price 30 congestion 17.5\nbus 3 price 45 congestion 32.5\nblock 1 sell 1 mw 50\nblock 2 sell 1 mw 3\nblock 3 sell 1 mw 7\nlimit 2 after 1 flow 50 up 27.5 down 0 rent 1375\nlimit 3 lost 1 flow 21 up 20 down 0 rent 420\nunit 1 mw 50 paid 500 own 10\nunit 2 mw 3 paid 90\nunit 3 mw 7 paid 315\nload 1 mw 0 pays 0\nload 2 mw 0 pays 0\nload 3 mw 60 pays 2700\nsurplus 1795\n";

/// With 30 MW of unit 1, which it then sells whole at a price of its own above its offer, unit 2 may make 13 at 31.
const FEWER: &str =
    "step 1 edit accepted\nstep 2 edit accepted\nstep 3 clear\ncleared\nwelfare -1383\nenergy 37\nbus 1 price 37 congestion 0\nbus 2 price 31 congestion -6\nbus 3 price 40 congestion 3\nblock 1 sell 1 mw 30\nblock 2 sell 1 mw 13\nblock 3 sell 1 mw 17\nlimit 3 lost 1 flow 21 up 12 down 0 rent 252\nunit 1 mw 30 paid 1065 own 35.5\nunit 2 mw 13 paid 403\nunit 3 mw 17 paid 680\nload 1 mw 0 pays 0\nload 2 mw 0 pays 0\nload 3 mw 60 pays 2400\nsurplus 252\n";

/// The dispatch of the worked market at prices that would support it if unit 1 were paid the price at its bus.
const AT_ITS_BUS: &[u8] =
    b"{\"blocks\":[\"56000000000/1\",\"0/1\",\"4000000000/1\"],\"energy\":\"10000000/1\",\"kind\":\"optimal\",\"limits\":[{\"branch\":3,\"down\":\"0/1\",\"outage\":0,\"unit\":1,\"up\":\"120000000/1\"}],\"places\":6,\"version\":2}";

/// A dispatch that unit 1's loss does not stand.
const ALL_OF_ONE: &[u8] =
    b"{\"blocks\":[\"60000000000/1\",\"0/1\",\"0/1\"],\"energy\":\"10000000/1\",\"kind\":\"optimal\",\"limits\":[],\"places\":6,\"version\":2}";

const OFFERS: &str = "1,sell,100,10\n2,sell,100,30\n3,sell,100,40\n";

const SHARES: &str = "1,2,0.5\n1,3,0.5\n";

/// A market that differs from the case by these records.
#[derive(Clone, Copy)]
struct Example<'a> {
    /// The rows of the units.
    units: &'a str,
    /// RATE_C of each branch.
    limits: [u32; 3],
    outages: &'a str,
    lost: &'a str,
    offers: &'a str,
    penalties: &'a str,
}

/// The worked market.
const WORKED: Example = Example {
    units: UNITS,
    limits: [0, 0, 21],
    outages: "",
    lost: SHARES,
    offers: OFFERS,
    penalties: "",
};

/// The tables of an example, as texts.
#[derive(Drop)]
struct Texts {
    case: String,
    outages: String,
    lost: String,
    offers: String,
    penalties: String,
}

impl Texts {
    fn new(alloc: Global, example: &Example) -> Result<Texts, Fail> {
        let Example {
            units,
            limits: [first, second, third],
            outages,
            lost,
            offers,
            penalties,
        } = *example;
        Ok(Texts {
            case: format!(in alloc;
                "{BUSES}{units}];\nmpc.branch = [\n1 2 0 0.2 0 0 0 {first} 0 0 1 -360 360;\n1 3 0 0.1 0 0 0 {second} 0 0 1 -360 360;\n2 3 0 0.1 0 0 0 {third} 0 0 1 -360 360;\n];\n"
            )?,
            outages: format!(in alloc; "branch\n{outages}")?,
            lost: format!(in alloc; "unit,taker,share\n{lost}")?,
            offers: format!(in alloc; "unit,side,mw,price\n{offers}")?,
            penalties: format!(in alloc; "branch,limit,price,excess\n{penalties}")?,
        })
    }

    fn tables(&self) -> MarketTables<&[u8]> {
        let grid = GridTables {
            case: self.case.as_bytes(),
            ptdf: PTDF,
            lodf: LODF,
            contingencies: self.outages.as_bytes(),
        };
        MarketTables {
            grid,
            unit_outages: self.lost.as_bytes(),
            offers: self.offers.as_bytes(),
            reserves: b"kind,unit,mw,price\n".as_slice(),
            offsets: b"branch,mw\n".as_slice(),
            penalties: self.penalties.as_bytes(),
        }
    }
}

/// Clears, and verifies the certificate.
fn clears<R: Abort + AllocGlobal>(rt: &R, texts: &Texts, text: &str) -> Result<(), Fail> {
    let bytes = texts.tables();
    let told = clear_told(
        rt.alloc(),
        &bytes,
        PostRating::C,
        FactorPlaces::Six,
        NumberBits::Bits127,
    )?;
    let certificate = told.outputs.certificate.as_deref();
    let certificate = certificate.unwrap_or(b"".as_slice());
    verifies(rt, texts, certificate, Status::Done, "yes\n")?;
    assert!(rt; tells(told, Status::Done, text.as_bytes()));
    Ok(())
}

#[test]
fn clears_with_outages_of_units(rt: HostRuntime) -> Result<(), Fail> {
    let must_run = Example {
        units: MUST_RUN,
        offers: "1,sell,80,10\n2,sell,100,30\n3,sell,100,40\n",
        ..WORKED
    };
    let soft = Example {
        penalties: "3,post,30,10\n",
        ..WORKED
    };
    let same_bus = Example {
        units: TWO_AT_ONE,
        lost: "1,4,1\n",
        ..WORKED
    };
    let two_prices = Example {
        units: TWO_AT_ONE,
        lost: "1,2,1\n4,3,1\n",
        offers: "1,sell,100,10\n2,sell,100,30\n3,sell,100,40\n4,sell,100,11\n",
        ..WORKED
    };
    let load = Example {
        units: WITH_LOAD,
        limits: [20, 0, 0],
        lost: "4,2,1\n",
        offers: "1,sell,100,10\n2,sell,100,30\n4,buy,30,50\n",
        ..WORKED
    };
    let both = Example {
        limits: [0, 50, 21],
        outages: "1\n",
        offers: "1,sell,100,10\n2,sell,100,30\n3,sell,100,45\n",
        ..WORKED
    };
    for (example, text) in [
        (WORKED, HALVES),
        (must_run, FIXED),
        (soft, EXCEEDED),
        (same_bus, SAME_BUS),
        (two_prices, TWO_PRICES),
        (load, LOAD_LOST),
        (both, BOTH),
    ] {
        let texts = Texts::new(rt.alloc(), &example)?;
        clears(&rt, &texts, text)?;
    }
    Ok(())
}

/// Compares what a verification tells.
fn verifies<R: Abort + AllocGlobal>(
    rt: &R,
    texts: &Texts,
    certificate: &[u8],
    status: Status,
    text: &str,
) -> Result<(), Fail> {
    let edits = b"op,target,side,block,value\n".as_slice();
    let verdict = verify_told(
        rt.alloc(),
        &texts.tables(),
        PostRating::C,
        FactorPlaces::Six,
        edits,
        certificate,
        NumberBits::Bits127,
    )?;
    assert!(rt; tells(verdict, status, text.as_bytes()));
    Ok(())
}

#[test]
fn refuses_with_outages_of_units(rt: HostRuntime) -> Result<(), Fail> {
    let texts = Texts::new(rt.alloc(), &WORKED)?;
    for (certificate, line) in [
        (AT_ITS_BUS, "no Support 1\n"),
        (ALL_OF_ONE, "no Limit branch 3 outage 0 unit 1\n"),
    ] {
        verifies(&rt, &texts, certificate, Status::Refuted, line)?;
    }
    replays(&rt, &texts)
}

/// Another price and fewer MW, and a clear.
fn replays<R: Abort + AllocGlobal>(rt: &R, texts: &Texts) -> Result<(), Fail> {
    let edits = b"op,target,side,block,value\nprice,2,sell,1,31\nquantity,1,sell,1,30\nclear,,,,\n";
    let replayed = replay_told(
        rt.alloc(),
        &texts.tables(),
        PostRating::C,
        FactorPlaces::Six,
        edits,
        NumberBits::Bits127,
    )?;
    assert!(rt; tells(replayed, Status::Done, FEWER.as_bytes()));
    Ok(())
}

#[test]
fn refuses_shares(rt: HostRuntime) -> Result<(), Fail> {
    let line = "refused unit-outages ShareSum unit 1 sum 0.9\n";
    let short = Texts::new(
        rt.alloc(),
        &Example {
            lost: "1,2,0.5\n1,3,0.4\n",
            ..WORKED
        },
    )?;
    let told = clear_told(
        rt.alloc(),
        &short.tables(),
        PostRating::C,
        FactorPlaces::Six,
        NumberBits::Bits127,
    )?;
    assert!(rt; tells(told, Status::Refused, line.as_bytes()));
    Ok(())
}
