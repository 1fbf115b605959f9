//! Transmission rights on the case of three buses, with texts worked by hand.
//!
//! A MW from bus 1 to bus 3 adds 0.75 MW to the flow of branch 2, one from bus 1 to bus 2 0.5 MW, and after the loss of branch 1 the first
//! adds 1 MW. So 50 MW and 5 MW fill a limit of 40 in the base; 50 MW alone make 37.5 there, and 50 after the loss.

use crate::tells::tells;
use command_answers::{Status, rights_told};
use market_data::FactorPlaces;
use market_tables::{GridTables, MarketTables};
use net_case::PostRating;
use number_bits::NumberBits;
use std::test::Fail;

/// The case up to RATE_A of branch 2, and from its TAP.
const HEAD: &str = "function mpc = t3
mpc.version = '2';
mpc.baseMVA = 100;
mpc.bus = [
1 3 0 0 0 0 1 1 0 230 1 1.1 0.9;
2 1 0 0 0 0 1 1 0 230 1 1.1 0.9;
3 1 60 0 0 0 1 1 0 230 1 1.1 0.9;
];
mpc.gen = [
1 0 0 0 0 1 100 1 100 0;
2 0 0 0 0 1 100 1 100 0;
];
mpc.branch = [
1 2 0 0.2 0 0 0 0 0 0 1 -360 360;
1 3 0 0.1 0 ";

const TAIL: &str = " 1 -360 360;
2 3 0 0.1 0 0 0 0 0 0 1 -360 360;
];
";

/// RATE_A, RATE_B, RATE_C, TAP and SHIFT of branch 2.
const LIMITED: &str = "40 0 0 0 0";

const NARROW: &str = "10 0 0 0 0";

const AFTER: &str = "0 0 45 0 0";

const SHIFTED: &str = "40 0 0 0 3";

const PTDF: &[u8] =
    b"branch,bus,factor\n1,2,-0.5\n2,2,-0.5\n3,2,0.5\n1,3,-0.25\n2,3,-0.75\n3,3,-0.25\n";

const LODF: &[u8] = b"branch,outage,factor\n2,1,1\n3,1,-1\n";

const OFFERS: &[u8] = b"unit,side,mw,price\n1,sell,100,10\n2,sell,100,30\n";

/// Bus prices are 10, 30 and 40.
const REPORT: &str =
    "cleared\nwelfare -800\nenergy 10\nbus 1 price 10 congestion 0\nbus 2 price 30 congestion 20\nbus 3 price 40 congestion 30\nblock 1 sell 1 mw 50\nblock 2 sell 1 mw 10\nlimit 2 base flow 40 up 40 down 0 rent 1600\nunit 1 mw 50 paid 500\nunit 2 mw 10 paid 300\nload 1 mw 0 pays 0\nload 2 mw 0 pays 0\nload 3 mw 60 pays 2400\nsurplus 1600\n";

/// They are 10, 30 and 30.
const AFTER_REPORT: &str =
    "cleared\nwelfare -900\nenergy 10\nbus 1 price 10 congestion 0\nbus 2 price 30 congestion 20\nbus 3 price 30 congestion 20\nblock 1 sell 1 mw 45\nblock 2 sell 1 mw 15\nlimit 2 after 1 flow 45 up 20 down 0 rent 900\nunit 1 mw 45 paid 450\nunit 2 mw 15 paid 450\nload 1 mw 0 pays 0\nload 2 mw 0 pays 0\nload 3 mw 60 pays 1800\nsurplus 900\n";

/// Branch 2 carries 10 MW whatever the buses put in, so unit 2 makes 30. The rent takes 40 less these 10.
const SHIFTED_REPORT: &str =
    "cleared\nwelfare -1200\nenergy 10\nbus 1 price 10 congestion 0\nbus 2 price 30 congestion 20\nbus 3 price 40 congestion 30\nblock 1 sell 1 mw 30\nblock 2 sell 1 mw 30\nlimit 2 base flow 40 up 40 down 0 rent 1200\nunit 1 mw 30 paid 300\nunit 2 mw 30 paid 900\nload 1 mw 0 pays 0\nload 2 mw 0 pays 0\nload 3 mw 60 pays 2400\nsurplus 1200\n";

const INFEASIBLE: &str = "infeasible\nbound -10\nenergy -1\nlimit 2 base up 2 down 0\n";

/// The numbers of branch 2, the records of rights, and what is told: the status, the report, and what stands behind it.
const TABLE: [(&str, &str, Status, &str, &str); 14] = [
    (
        LIMITED,
        "1,3,50\n1,2,5\n",
        Status::Done,
        REPORT,
        "rights fit\nright 1 pays 1500\nright 2 pays 100\nrights pay 1600\n",
    ),
    (
        LIMITED,
        "1,3,60\n",
        Status::Refuted,
        REPORT,
        "rights break limit 2 base flow 45\nright 1 pays 1800\nrights pay 1800\n",
    ),
    (
        LIMITED,
        "",
        Status::Done,
        REPORT,
        "rights fit\nrights pay 0\n",
    ),
    (
        LIMITED,
        "1,3,100\n3,1,100\n",
        Status::Done,
        REPORT,
        "rights fit\nright 1 pays 3000\nright 2 pays -3000\nrights pay 0\n",
    ),
    (
        LIMITED,
        "2,2,500\n1,3,0\n",
        Status::Done,
        REPORT,
        "rights fit\nright 1 pays 0\nright 2 pays 0\nrights pay 0\n",
    ),
    (
        LIMITED,
        "3,1,10\n",
        Status::Done,
        REPORT,
        "rights fit\nright 1 pays -300\nrights pay -300\n",
    ),
    (
        AFTER,
        "1,3,50\n",
        Status::Refuted,
        AFTER_REPORT,
        "rights break limit 2 after 1 flow 50\nright 1 pays 1000\nrights pay 1000\n",
    ),
    (
        SHIFTED,
        "1,3,40\n",
        Status::Done,
        SHIFTED_REPORT,
        "rights fit\nright 1 pays 1200\nrights pay 1200\n",
    ),
    (
        SHIFTED,
        "1,3,50\n",
        Status::Refuted,
        SHIFTED_REPORT,
        "rights break limit 2 base flow 47.5\nright 1 pays 1500\nrights pay 1500\n",
    ),
    (NARROW, "1,3,50\n", Status::Infeasible, INFEASIBLE, ""),
    (
        LIMITED,
        "1,3,1\n1,9,5\n",
        Status::Refused,
        "refused rights NoBus line 3\n",
        "",
    ),
    (
        LIMITED,
        "1,2,-5\n",
        Status::Refused,
        "refused rights Negative line 2\n",
        "",
    ),
    (
        LIMITED,
        "1,2\n",
        Status::Refused,
        "refused rights Width line 2\n",
        "",
    ),
    (
        LIMITED,
        "1,2,x\n",
        Status::Refused,
        "refused rights Cell line 2 col 3 BadNumber\n",
        "",
    ),
];

/// The tables of the market with this case.
fn tables(case: &[u8]) -> MarketTables<&[u8]> {
    let grid = GridTables {
        case,
        ptdf: PTDF,
        lodf: LODF,
        contingencies: b"branch\n1\n".as_slice(),
    };
    MarketTables {
        grid,
        unit_outages: b"unit,taker,share\n".as_slice(),
        offers: OFFERS,
        reserves: b"kind,unit,mw,price\n".as_slice(),
        offsets: b"branch,mw\n2,10\n".as_slice(),
        penalties: b"branch,limit,price,excess\n".as_slice(),
    }
}

/// The table of offsets, which moves branch 2 alone where its angle is shifted.
fn without_offset<'a>(branch: &str, tables: MarketTables<&'a [u8]>) -> MarketTables<&'a [u8]> {
    if branch == SHIFTED {
        return tables;
    }
    MarketTables {
        offsets: b"branch,mw\n".as_slice(),
        ..tables
    }
}

#[test]
fn tells_of_rights(rt: HostRuntime) -> Result<(), Fail> {
    let alloc = rt.alloc();
    for (branch, records, status, report, lines) in TABLE {
        let case = format!(in alloc; "{HEAD}{branch}{TAIL}")?;
        let rights = format!(in alloc; "from,to,mw\n{records}")?;
        let text = format!(in alloc; "{report}{lines}")?;
        let bytes = without_offset(branch, tables(case.as_bytes()));
        let places = FactorPlaces::Six;
        let told = rights_told(
            alloc,
            &bytes,
            PostRating::C,
            places,
            rights.as_bytes(),
            NumberBits::Bits127,
        )?;
        assert!(&rt; told.outputs.certificate.is_none());
        assert!(&rt; tells(told, status, text.as_bytes()), "{records}");
    }
    Ok(())
}
