//! Which of several best dispatches is told: of the blocks that two of them accept in different MW the first one is accepted more, by the order
//! of the records. On a case of three buses with units of one price, with texts worked by hand.

use crate::tells::tells;
use command_answers::{Status, Told, clear_told, replay_told};
use market_data::FactorPlaces;
use market_tables::{GridTables, MarketTables};
use net_case::PostRating;
use number_bits::NumberBits;
use std::alloc::Global;
use std::process::Abort;
use std::test::Fail;

/// The case up to the ratings of branch 2, and from there. Unit 2 may buy.
const HEAD: &str = "function mpc = t3
mpc.version = '2';
mpc.baseMVA = 100;
mpc.bus = [
1 3 0 0 0 0 1 1 0 230 1 1.1 0.9;
2 1 0 0 0 0 1 1 0 230 1 1.1 0.9;
3 1 60 0 0 0 1 1 0 230 1 1.1 0.9;
];
mpc.gen = [
1 0 0 0 0 1 100 1 100 0;
2 0 0 0 0 1 100 1 100 -20;
3 0 0 0 0 1 100 1 100 0;
];
mpc.branch = [
1 2 0 0.2 0 0 0 0 0 0 1 -360 360;
1 3 0 0.1 0 ";

const TAIL: &str = " 0 0 1 -360 360;
2 3 0 0.1 0 0 0 0 0 0 1 -360 360;
];
";

const PTDF: &[u8] =
    b"branch,bus,factor\n1,2,-0.5\n2,2,-0.5\n3,2,0.5\n1,3,-0.25\n2,3,-0.75\n3,3,-0.25\n";

/// Two offers at one price: the earlier record is served whole.
const EARLIER: &str =
    "cleared\nwelfare -600\nenergy 10\nbus 1 price 10 congestion 0\nbus 2 price 10 congestion 0\nbus 3 price 10 congestion 0\nblock 1 sell 1 mw 50\nblock 2 sell 1 mw 10\nunit 1 mw 50 paid 500\nunit 2 mw 10 paid 100\nunit 3 mw 0 paid 0\nload 1 mw 0 pays 0\nload 2 mw 0 pays 0\nload 3 mw 60 pays 600\nsurplus 0\n";

/// With the records exchanged it is the other unit.
const EXCHANGED: &str =
    "cleared\nwelfare -600\nenergy 10\nbus 1 price 10 congestion 0\nbus 2 price 10 congestion 0\nbus 3 price 10 congestion 0\nblock 2 sell 1 mw 50\nblock 1 sell 1 mw 10\nunit 1 mw 10 paid 100\nunit 2 mw 50 paid 500\nunit 3 mw 0 paid 0\nload 1 mw 0 pays 0\nload 2 mw 0 pays 0\nload 3 mw 60 pays 600\nsurplus 0\n";

/// A bid and an offer at one price are both accepted.
const BOUGHT: &str =
    "cleared\nwelfare -600\nenergy 10\nbus 1 price 10 congestion 0\nbus 2 price 10 congestion 0\nbus 3 price 10 congestion 0\nblock 2 buy 1 mw 20\nblock 1 sell 1 mw 80\nunit 1 mw 80 paid 800\nunit 2 mw -20 paid -200\nunit 3 mw 0 paid 0\nload 1 mw 0 pays 0\nload 2 mw 0 pays 0\nload 3 mw 60 pays 600\nsurplus 0\n";

/// At 40 in the base a MW of flow is worth just the penalty: the earlier unit makes all, and the flow of 45 exceeds the limit.
const AT_THE_PENALTY: &str =
    "cleared\nwelfare -800\nenergy 10\nbus 1 price 10 congestion 0\nbus 2 price 30 congestion 20\nbus 3 price 40 congestion 30\nblock 1 sell 1 mw 60\nblock 2 sell 1 mw 0\nlimit 2 base flow 45 over 5 up 40 down 0 rent 1800\nunit 1 mw 60 paid 600\nunit 2 mw 0 paid 0\nunit 3 mw 0 paid 0\nload 1 mw 0 pays 0\nload 2 mw 0 pays 0\nload 3 mw 60 pays 2400\nsurplus 1800\n";

/// With the records exchanged it keeps to the limit.
const BELOW_THE_PENALTY: &str =
    "cleared\nwelfare -800\nenergy 10\nbus 1 price 10 congestion 0\nbus 2 price 30 congestion 20\nbus 3 price 40 congestion 30\nblock 2 sell 1 mw 10\nblock 1 sell 1 mw 50\nlimit 2 base flow 40 up 40 down 0 rent 1600\nunit 1 mw 50 paid 500\nunit 2 mw 10 paid 300\nunit 3 mw 0 paid 0\nload 1 mw 0 pays 0\nload 2 mw 0 pays 0\nload 3 mw 60 pays 2400\nsurplus 1600\n";

/// By order unit 1 would make all, and pass the limit, which is taken then: it makes as much as fits.
const TAKEN: &str =
    "cleared\nwelfare -600\nenergy 10\nbus 1 price 10 congestion 0\nbus 2 price 10 congestion 0\nbus 3 price 10 congestion 0\nblock 1 sell 1 mw 53.333333333:1/3\nblock 2 sell 1 mw 0\nblock 3 sell 1 mw 6.666666666:2/3\nunit 1 mw 53.333333333:1/3 paid 533.333333333333333:1/3\nunit 2 mw 0 paid 0\nunit 3 mw 6.666666666:2/3 paid 66.666666666666666:2/3\nload 1 mw 0 pays 0\nload 2 mw 0 pays 0\nload 3 mw 60 pays 600\nsurplus 0\n";

/// After the loss of unit 3 unit 1 picks up what it makes: 45 less half of unit 2's and three quarters of unit 3's, and three quarters again.
const LOST: &str =
    "cleared\nwelfare -600\nenergy 10\nbus 1 price 10 congestion 0\nbus 2 price 10 congestion 0\nbus 3 price 10 congestion 0\nblock 3 sell 1 mw 20\nblock 1 sell 1 mw 30\nblock 2 sell 1 mw 10\nunit 1 mw 30 paid 300\nunit 2 mw 10 paid 100\nunit 3 mw 20 paid 200 own 10\nload 1 mw 0 pays 0\nload 2 mw 0 pays 0\nload 3 mw 60 pays 600\nsurplus 0\n";

/// Reserve that costs nothing: all of it is accepted, in the order of its offers, where rooms are.
const FREE_RESERVE: &str =
    "cleared\nwelfare -600\nenergy 10\nreserve price 0 need 30\nbus 1 price 10 congestion 0\nbus 2 price 10 congestion 0\nbus 3 price 10 congestion 0\nblock 1 sell 1 mw 60\nblock 2 sell 1 mw 0\nunit 1 mw 60 paid 600\nunit 2 mw 0 paid 0\nunit 3 mw 0 paid 0\nreserve 2 mw 20 paid 0\nreserve 1 mw 40 paid 0\nload 1 mw 0 pays 0\nload 2 mw 0 pays 0\nload 3 mw 60 pays 600\nsurplus 0\n";

/// Unit 1 sells all that it offers, at 10: the price is as low as that leaves it.
const SOLD_OUT: &str =
    "cleared\nwelfare -600\nenergy 10\nbus 1 price 10 congestion 0\nbus 2 price 10 congestion 0\nbus 3 price 10 congestion 0\nblock 1 sell 1 mw 60\nblock 2 sell 1 mw 0\nunit 1 mw 60 paid 600\nunit 2 mw 0 paid 0\nunit 3 mw 0 paid 0\nload 1 mw 0 pays 0\nload 2 mw 0 pays 0\nload 3 mw 60 pays 600\nsurplus 0\n";

/// The records of a market's tables, beside the ratings of branch 2.
#[derive(Clone, Copy)]
struct Records<'a> {
    ratings: &'a str,
    offers: &'a str,
    lost: &'a str,
    reserves: &'a str,
    penalties: &'a str,
}

const PLAIN: Records<'static> = Records {
    ratings: "0 0 0",
    offers: "1,sell,50,10\n2,sell,50,10",
    lost: "",
    reserves: "",
    penalties: "",
};

/// The texts of the tables.
#[derive(Drop)]
struct Texts {
    case: String,
    offers: String,
    lost: String,
    reserves: String,
    penalties: String,
}

impl Texts {
    fn new(alloc: Global, records: &Records) -> Result<Texts, Fail> {
        let Records {
            ratings,
            offers,
            lost,
            reserves,
            penalties,
        } = *records;
        Ok(Texts {
            case: format!(in alloc; "{HEAD}{ratings}{TAIL}")?,
            offers: format!(in alloc; "unit,side,mw,price\n{offers}\n")?,
            lost: format!(in alloc; "unit,taker,share\n{lost}\n")?,
            reserves: format!(in alloc; "kind,unit,mw,price\n{reserves}\n")?,
            penalties: format!(in alloc; "branch,limit,price,excess\n{penalties}\n")?,
        })
    }

    fn tables(&self) -> MarketTables<&[u8]> {
        MarketTables {
            grid: GridTables {
                case: self.case.as_bytes(),
                ptdf: PTDF,
                lodf: b"branch,outage,factor\n",
                contingencies: b"branch\n",
            },
            unit_outages: self.lost.as_bytes(),
            offers: self.offers.as_bytes(),
            reserves: self.reserves.as_bytes(),
            offsets: b"branch,mw\n",
            penalties: self.penalties.as_bytes(),
        }
    }
}

/// Clears the market of these records.
fn cleared(alloc: Global, records: &Records) -> Result<Told, Fail> {
    let texts = Texts::new(alloc, records)?;
    Ok(clear_told(
        alloc,
        &texts.tables(),
        PostRating::C,
        FactorPlaces::Six,
        NumberBits::Bits127,
    )?)
}

#[test]
fn serves_earlier_records(rt: HostRuntime) -> Result<(), Fail> {
    for (records, text) in [
        (PLAIN, EARLIER),
        (
            Records {
                offers: "2,sell,50,10\n1,sell,50,10",
                ..PLAIN
            },
            EXCHANGED,
        ),
        (
            Records {
                offers: "2,buy,20,10\n1,sell,100,10",
                ..PLAIN
            },
            BOUGHT,
        ),
        (
            Records {
                ratings: "40 0 0",
                offers: "1,sell,100,10\n2,sell,100,30",
                penalties: "2,base,40,10",
                ..PLAIN
            },
            AT_THE_PENALTY,
        ),
        (
            Records {
                ratings: "40 0 0",
                offers: "2,sell,100,30\n1,sell,100,10",
                penalties: "2,base,40,10",
                ..PLAIN
            },
            BELOW_THE_PENALTY,
        ),
        (
            Records {
                ratings: "40 0 0",
                offers: "1,sell,100,10\n2,sell,100,10\n3,sell,20,10",
                ..PLAIN
            },
            TAKEN,
        ),
        (
            Records {
                ratings: "0 0 40",
                offers: "3,sell,20,10\n1,sell,100,10\n2,sell,100,10",
                lost: "3,1,1",
                ..PLAIN
            },
            LOST,
        ),
        (
            Records {
                offers: "1,sell,100,10\n2,sell,50,10",
                reserves: "need,,30,\noffer,2,20,0\noffer,1,50,0",
                ..PLAIN
            },
            FREE_RESERVE,
        ),
    ] {
        assert!(rt;
            tells(
                cleared(rt.alloc(), &records)?,
                Status::Done,
                text.as_bytes()
            )
        );
    }
    Ok(())
}

/// After an hour in which unit 1 was dearer it is served first again.
#[test]
fn serves_the_same_after_edits(rt: HostRuntime) -> Result<(), Fail> {
    let edits =
        b"op,target,side,block,value\nprice,1,sell,1,11\nclear,,,,\nprice,1,sell,1,10\nclear,,,,\n";
    let texts = Texts::new(rt.alloc(), &PLAIN)?;
    let replayed = replay_told(
        rt.alloc(),
        &texts.tables(),
        PostRating::C,
        FactorPlaces::Six,
        edits,
        NumberBits::Bits127,
    )?;
    assert!(rt; replayed.text.ends_with(EARLIER.as_bytes()));
    Ok(())
}

/// What is told of a market after edits that leave it as it was, where several prices support its dispatch: those that a clear of its own tells.
/// First the load is 70 MW for a clear, then the flow of 45 MW of branch 2 is 5 MW above its limit for one.
#[test]
fn prices_the_same_after_edits(rt: HostRuntime) -> Result<(), Fail> {
    let alloc = rt.alloc();
    for (records, edits) in [
        (
            Records {
                offers: "1,sell,60,10\n2,sell,50,20",
                ..PLAIN
            },
            "demand,3,,,70\nclear,,,,\ndemand,3,,,60\nclear,,,,\n",
        ),
        (
            Records {
                ratings: "45 0 0",
                offers: "1,sell,100,10\n2,sell,100,30",
                ..PLAIN
            },
            "limit,2,base,,40\nclear,,,,\nlimit,2,base,,45\nclear,,,,\n",
        ),
    ] {
        let edits = format!(in alloc; "op,target,side,block,value\n{edits}")?;
        let texts = Texts::new(alloc, &records)?;
        let replayed = replay_told(
            alloc,
            &texts.tables(),
            PostRating::C,
            FactorPlaces::Six,
            edits.as_bytes(),
            NumberBits::Bits127,
        )?;
        assert!(&rt; tells(cleared(alloc, &records)?, Status::Done, SOLD_OUT.as_bytes()));
        assert!(&rt; replayed.text.ends_with(SOLD_OUT.as_bytes()));
    }
    Ok(())
}
