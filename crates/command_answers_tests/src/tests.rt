//! Each command on the case of three buses in a triangle, with a limit of 40 on branch 2.

use command_answers::{
    Status, Told, check_told, clear_told, make_told, pool_told, replay_told, verify_told,
};
use market_data::FactorPlaces;
use market_tables::{GridTables, MarketTables};
use net_case::PostRating;
use number_bits::NumberBits;
use std::process::Abort;
use std::test::Fail;

const CASE: &[u8] = b"function mpc = t3
mpc.version = '2';
mpc.baseMVA = 100;
mpc.bus = [
1 3 0 0 0 0 1 1 0 230 1 1.1 0.9;
2 1 0 0 0 0 1 1 0 230 1 1.1 0.9;
3 1 60 0 0 0 1 1 0 230 1 1.1 0.9;
];
mpc.gen = [
1 0 0 0 0 1 100 1 100 0;
2 0 0 0 0 1 100 1 100 0;
];
mpc.branch = [
1 2 0 0.2 0 0 0 0 0 0 1 -360 360;
1 3 0 0.1 0 40 0 0 0 0 1 -360 360;
2 3 0 0.1 0 0 0 0 0 0 1 -360 360;
];
";

const PTDF: &[u8] =
    b"branch,bus,factor\n1,2,-0.5\n2,2,-0.5\n3,2,0.5\n1,3,-0.25\n2,3,-0.75\n3,3,-0.25\n";

const OFFERS: &[u8] = b"unit,side,mw,price\n1,sell,100,10\n2,sell,100,30\n";

/// Prices of 40 at the limit.
const CERTIFICATE: &[u8] =
    b"{\"blocks\":[\"50000000000/1\",\"10000000000/1\"],\"energy\":\"10000000/1\",\"kind\":\"optimal\",\"limits\":[{\"branch\":2,\"down\":\"0/1\",\"outage\":0,\"up\":\"40000000/1\"}],\"places\":6,\"version\":2}";

/// Compares a status, and how the text begins.
fn expect<R: Abort>(rt: &R, told: Told, status: Status, start: &[u8]) {
    assert_eq!(rt; told.status, status);
    assert!(rt; told.text.starts_with(start));
}

/// The files of the market.
fn market() -> MarketTables<&'static [u8]> {
    MarketTables {
        grid: GridTables {
            case: CASE,
            ptdf: PTDF,
            lodf: b"branch,outage,factor\n",
            contingencies: b"branch\n",
        },
        unit_outages: b"unit,taker,share\n",
        offers: OFFERS,
        reserves: b"kind,unit,mw,price\n",
        offsets: b"branch,mw\n",
        penalties: b"branch,limit,price,excess\n",
    }
}

#[test]
fn tells_of_each_command(rt: HostRuntime) -> Result<(), Fail> {
    let alloc = rt.alloc();
    let bytes = market();
    let grid = bytes.grid;
    let edits = b"op,target,side,block,value\nclear,,,,\n";
    let done = Status::Done;
    let pooled = pool_told(alloc, CASE, OFFERS)?;
    expect(&rt, pooled, done, b"cleared\nwelfare -600\n");
    let cleared = clear_told(
        alloc,
        &bytes,
        PostRating::C,
        FactorPlaces::Six,
        NumberBits::Bits127,
    )?;
    assert!(rt; cleared.outputs.certificate.is_some());
    expect(&rt, cleared, done, b"cleared\nwelfare -800\n");
    let replayed = replay_told(
        alloc,
        &bytes,
        PostRating::C,
        FactorPlaces::Six,
        edits,
        NumberBits::Bits127,
    )?;
    expect(&rt, replayed, done, b"step 1 clear\ncleared\n");
    let verified = verify_told(
        alloc,
        &bytes,
        PostRating::C,
        FactorPlaces::Six,
        edits,
        CERTIFICATE,
        NumberBits::Bits127,
    )?;
    expect(&rt, verified, done, b"yes\n");
    expect(
        &rt,
        check_told(alloc, &grid, FactorPlaces::Six)?,
        done,
        b"bus most 0 ",
    );
    let made = make_told(alloc, 4, 7)?;
    expect(
        &rt,
        made,
        done,
        b"ring 4 seed 7 buses 4 blocks 8 limits 16\n",
    );
    Ok(())
}

/// Certificates, where VAST stands for a number of 127 bits, and what is told of them.
static CERTIFICATES: [(&str, Status, &str); 9] = [
    ("{", Status::Refused, "refused certificate Key json\n"),
    (
        "{\"energy\":\"2/4\",\"kind\":\"farkas\",\"limits\":[],\"version\":1}",
        Status::Refused,
        "refused certificate Key energy\n",
    ),
    (
        "{\"energy\":\"10/1\",\"kind\":\"optimal\",\"limits\":[],\"version\":1}",
        Status::Refused,
        "refused certificate Key blocks\n",
    ),
    (
        "{\"energy\":\"1/1\",\"kind\":\"farkas\",\"limits\":[],\"version\":2}",
        Status::Refused,
        "refused certificate Key places\n",
    ),
    (
        "{\"energy\":\"1/1\",\"kind\":\"farkas\",\"limits\":[],\"version\":1,\"x\":0}",
        Status::Refused,
        "refused certificate Key extra\n",
    ),
    (
        "{\"blocks\":[\"VAST\"],\"energy\":\"VAST\",\"kind\":\"optimal\",\"limits\":[],\"places\":9,\"version\":2}",
        Status::Refuted,
        "no Places\n",
    ),
    (
        "{\"blocks\":[\"VAST\"],\"energy\":\"VAST\",\"kind\":\"optimal\",\"limits\":[],\"places\":6,\"version\":2}",
        Status::Refuted,
        "no Count\n",
    ),
    (
        "{\"energy\":\"VAST\",\"kind\":\"farkas\",\"limits\":[{\"branch\":2,\"down\":\"-1/1\",\"outage\":0,\"up\":\"VAST\"}],\"places\":6,\"version\":2}",
        Status::Refuted,
        "no Sign branch 2 outage 0\n",
    ),
    (
        "{\"energy\":\"VAST\",\"kind\":\"farkas\",\"limits\":[{\"branch\":2,\"down\":\"0/1\",\"outage\":0,\"up\":\"VAST\"}],\"places\":6,\"version\":2}",
        Status::Range,
        "range ",
    ),
];

/// Certificates of the market that are none, or tell a reason before any sum is made of numbers that are too large.
#[test]
fn refuses_certificates(rt: HostRuntime) -> Result<(), Fail> {
    let vast = "170141183460469231731687303715884105727/1";
    let edits = b"op,target,side,block,value\n";
    let bytes = market();
    for (certificate, status, text) in &CERTIFICATES {
        let certificate = certificate.replace(rt.alloc(), "VAST", vast)?;
        let told = verify_told(
            rt.alloc(),
            &bytes,
            PostRating::C,
            FactorPlaces::Six,
            edits,
            certificate.as_bytes(),
            NumberBits::Bits127,
        )?;
        expect(&rt, told, *status, text.as_bytes());
    }
    Ok(())
}
