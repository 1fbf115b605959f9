//! Factors of six and of nine places, on the case of three buses, with texts worked by hand.
//!
//! With a factor of -0.500000001 in place of -0.5 unit 2 makes 5 / 0.500000001 MW, and the price of the limit is 20 / 0.500000001.

use crate::tells::tells;
use command_answers::{Status, Told, check_told, clear_told, migrate_told, verify_told};
use market_data::FactorPlaces;
use market_tables::{GridTables, MarketTables};
use net_case::PostRating;
use number_bits::NumberBits;
use std::test::Fail;

const CASE: &[u8] = b"function mpc = t3
mpc.version = '2';
mpc.baseMVA = 100;
mpc.bus = [
1 3 0 0 0 0 1 1 0 230 1 1.1 0.9;
2 1 0 0 0 0 1 1 0 230 1 1.1 0.9;
3 1 60 0 0 0 1 1 0 230 1 1.1 0.9;
];
mpc.gen = [
1 0 0 0 0 1 100 1 100 0;
2 0 0 0 0 1 100 1 100 0;
];
mpc.branch = [
1 2 0 0.2 0 0 0 0 0 0 1 -360 360;
1 3 0 0.1 0 40 0 0 0 0 1 -360 360;
2 3 0 0.1 0 0 0 0 0 0 1 -360 360;
];
";

/// The network's own factors.
const SIX: &[u8] =
    b"branch,bus,factor\n1,2,-0.5\n2,2,-0.5\n3,2,0.5\n1,3,-0.25\n2,3,-0.75\n3,3,-0.25\n";

/// The same with one that misses by a unit of the ninth place.
const NINE: &[u8] =
    b"branch,bus,factor\n1,2,-0.5\n2,2,-0.500000001\n3,2,0.5\n1,3,-0.25\n2,3,-0.75\n3,3,-0.25\n";

const SIX_REPORT: &str =
    "cleared\nwelfare -800\nenergy 10\nbus 1 price 10 congestion 0\nbus 2 price 30 congestion 20\nbus 3 price 40 congestion 30\nblock 1 sell 1 mw 50\nblock 2 sell 1 mw 10\nlimit 2 base flow 40 up 40 down 0 rent 1600\nunit 1 mw 50 paid 500\nunit 2 mw 10 paid 300\nload 1 mw 0 pays 0\nload 2 mw 0 pays 0\nload 3 mw 60 pays 2400\nsurplus 1600\n";

const NINE_REPORT: &str =
    "cleared\nwelfare -799.999999600000000:400000000/500000001\nenergy 10\nbus 1 price 10 congestion 0\nbus 2 price 30 congestion 20\nbus 3 price 39.999999:156666667/166666667 congestion 29.999999:156666667/166666667\nblock 1 sell 1 mw 50.000000019:499999981/500000001\nblock 2 sell 1 mw 9.999999980:20/500000001\nlimit 2 base flow 40 up 39.999999:460000001/500000001 down 0 rent 1599.999996800000006:199999994/500000001\nunit 1 mw 50.000000019:499999981/500000001 paid 500.000000199999999:300000001/500000001\nunit 2 mw 9.999999980:20/500000001 paid 299.999999400000001:33333333/166666667\nload 1 mw 0 pays 0\nload 2 mw 0 pays 0\nload 3 mw 60 pays 2399.999996400000007:33333331/166666667\nsurplus 1599.999996800000006:199999994/500000001\n";

/// What leaves bus 1 for a MW of bus 2 is off by a unit of the ninth place, which is half a unit for each of its two branches: the bound.
/// Round the loop it is 0.1 of that, and the bound twice as much.
const NINE_RESIDUALS: &str =
    "bus most -0.000000001 at 1 for 2\nbus within\nloop most 0.0000000001 at 3 for 2\nloop within\noutage bus none\noutage loop none\n";

/// A certificate of the first version, and the same in the second.
const FIRST: &str =
    "{\"blocks\":[\"50000000000/1\",\"10000000000/1\"],\"energy\":\"10000000/1\",\"kind\":\"optimal\",\"limits\":[{\"branch\":2,\"down\":\"0/1\",\"outage\":0,\"up\":\"40000000/1\"}],\"version\":1}";

const SECOND: &str =
    "{\"blocks\":[\"50000000000/1\",\"10000000000/1\"],\"energy\":\"10000000/1\",\"kind\":\"optimal\",\"limits\":[{\"branch\":2,\"down\":\"0/1\",\"outage\":0,\"up\":\"40000000/1\"}],\"places\":6,\"version\":2}";

/// The case with a table of shift factors.
fn grid(ptdf: &[u8]) -> GridTables<&[u8]> {
    GridTables {
        case: CASE,
        ptdf,
        lodf: b"branch,outage,factor\n".as_slice(),
        contingencies: b"branch\n".as_slice(),
    }
}

fn tables(ptdf: &[u8]) -> MarketTables<&[u8]> {
    MarketTables {
        grid: grid(ptdf),
        unit_outages: b"unit,taker,share\n".as_slice(),
        offers: b"unit,side,mw,price\n1,sell,100,10\n2,sell,100,30\n".as_slice(),
        reserves: b"kind,unit,mw,price\n".as_slice(),
        offsets: b"branch,mw\n".as_slice(),
        penalties: b"branch,limit,price,excess\n".as_slice(),
    }
}

#[test]
fn clears_with_nine_places(rt: HostRuntime) -> Result<(), Fail> {
    for (ptdf, places, status, text) in [
        (SIX, FactorPlaces::Six, Status::Done, SIX_REPORT),
        (SIX, FactorPlaces::Nine, Status::Done, SIX_REPORT),
        (NINE, FactorPlaces::Nine, Status::Done, NINE_REPORT),
        (
            NINE,
            FactorPlaces::Six,
            Status::Refused,
            "refused ptdf Cell line 3 col 3 TooFine\n",
        ),
    ] {
        let told = clear_told(
            rt.alloc(),
            &tables(ptdf),
            PostRating::C,
            places,
            NumberBits::Bits127,
        )?;
        assert!(rt; tells(told, status, text.as_bytes()));
    }
    Ok(())
}

#[test]
fn checks_with_nine_places(rt: HostRuntime) -> Result<(), Fail> {
    let told = check_told(rt.alloc(), &grid(NINE), FactorPlaces::Nine)?;
    assert!(rt; tells(told, Status::Done, NINE_RESIDUALS.as_bytes()));
    Ok(())
}

#[test]
fn verifies_by_places(rt: HostRuntime) -> Result<(), Fail> {
    let edits = b"op,target,side,block,value\n".as_slice();
    for (places, certificate, status, text) in [
        (FactorPlaces::Six, FIRST, Status::Done, "yes\n"),
        (FactorPlaces::Six, SECOND, Status::Done, "yes\n"),
        (FactorPlaces::Nine, FIRST, Status::Refuted, "no Places\n"),
        (FactorPlaces::Nine, SECOND, Status::Refuted, "no Places\n"),
    ] {
        let bytes = tables(SIX);
        let certificate = certificate.as_bytes();
        let told = verify_told(
            rt.alloc(),
            &bytes,
            PostRating::C,
            places,
            edits,
            certificate,
            NumberBits::Bits127,
        )?;
        assert!(rt; tells(told, status, text.as_bytes()));
    }
    Ok(())
}

/// Whether a command told this, and wrote this certificate or none.
fn writes(told: Told, status: Status, text: &str, certificate: Option<&[u8]>) -> bool {
    told.outputs.certificate.as_deref() == certificate && tells(told, status, text.as_bytes())
}

#[test]
fn writes_certificates_anew(rt: HostRuntime) -> Result<(), Fail> {
    let second = Some(SECOND.as_bytes());
    let refused = "refused certificate Key version\n";
    for (text, status, line, written) in [
        (FIRST, Status::Done, "migrated\n", second),
        (SECOND, Status::Done, "migrated\n", second),
        ("{\"energy\":\"1/1\"}", Status::Refused, refused, None),
    ] {
        let told = migrate_told(rt.alloc(), text.as_bytes(), NumberBits::Bits127)?;
        assert!(rt; writes(told, status, line, written));
    }
    Ok(())
}
