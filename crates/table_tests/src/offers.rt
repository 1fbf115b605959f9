//! `offer_book`: the tables of offers and of reserves.

ghost use Rattle.std.specs.Prelude.{◌≡◌};

use market_data::{MW_ONE, PRICE_ONE};
use market_model::{Block, List, Memory, Reserve, ReserveOffer, Side, Unit, UnitList};
use offer_book::{ReserveFault, blocks, reserves};
use record_reading::{FrameFault, Why};
use scaled_decimal::DecimalFault;
use std::alloc::Global;

/// Units 1 and 3 of three rows, which may go 100 MW up and 40 down; row 2 is out of service.
fn units(alloc: Global) -> Result<UnitList, Memory> {
    let mut units = List::new(alloc);
    for row in [1, 3] {
        units.push(Unit {
            row,
            bus: 0,
            fixed: 0,
            up: 100 * MW_ONE,
            down: 40 * MW_ONE,
        })?;
    }
    Ok(UnitList { rows: 3, units })
}

/// Whether these records have these blocks.
fn are_blocks(alloc: Global, records: &str, want: &[Block]) -> bool {
    let (Ok(units), Ok(table)) = (
        units(alloc),
        format!(in alloc; "unit,side,mw,price\r\n{records}"),
    ) else {
        return false;
    };
    match blocks(alloc, &units, table.as_bytes()) {
        Ok(blocks) => blocks.slice() == want,
        Err(_) => false,
    }
}

#[test]
fn reads_blocks(rt: HostRuntime) {
    let records = "1,sell,60,10\r\n2,sell,5,1\r\n1,buy,4e1,-2.5\r\n1,sell,\"40\",10\r\n";
    let want = [
        Block {
            unit: 0,
            side: Side::Sell,
            quantity: 60_000_000_000,
            price: 10_000_000,
        },
        Block {
            unit: 0,
            side: Side::Buy,
            quantity: 40_000_000_000,
            price: -2_500_000,
        },
        Block {
            unit: 0,
            side: Side::Sell,
            quantity: 40_000_000_000,
            price: 10_000_000,
        },
    ];
    assert!(rt; are_blocks(rt.alloc(), records, &want));
}

/// The reserve of a table.
fn reserve_of(alloc: Global, table: &str) -> Result<Reserve, ReserveFault> {
    match units(alloc) {
        Ok(units) => reserves(alloc, &units, table.as_bytes()),
        Err(_) => Err(ReserveFault::Memory),
    }
}

/// The reserve of these records.
fn reserve_in(alloc: Global, records: &str) -> Result<Reserve, ReserveFault> {
    match format!(in alloc; "kind,unit,mw,price\n{records}") {
        Ok(table) => reserve_of(alloc, table.as_str()),
        Err(_) => Err(ReserveFault::Memory),
    }
}

/// Records that are read: whether reserve is listed, its offers, and what it needs in MW.
const READ: &[(&str, bool, &[ReserveOffer], i64)] = &[
    ("", false, &[], 0),
    (
        "offer,3,50,5\nneed,,60,\noffer,1,50,2\n",
        true,
        &[
            ReserveOffer {
                unit: 1,
                quantity: 50 * MW_ONE,
                price: 5 * PRICE_ONE,
            },
            ReserveOffer {
                unit: 0,
                quantity: 50 * MW_ONE,
                price: 2 * PRICE_ONE,
            },
        ],
        60,
    ),
    ("need,,0,\n", true, &[], 0),
    (
        "offer,1,0,-2.5\n",
        true,
        &[ReserveOffer {
            unit: 0,
            quantity: 0,
            price: -2_500_000,
        }],
        0,
    ),
    // Offers of a unit out of service are dropped, whatever they say and however often.
    (
        "offer,2,-1,5\noffer,2,1,5\n\"offer\",1,1e1,5\n",
        true,
        &[ReserveOffer {
            unit: 0,
            quantity: 10 * MW_ONE,
            price: 5 * PRICE_ONE,
        }],
        0,
    ),
    ("offer,2,1,5\n", true, &[], 0),
];

/// Whether these records are read as this.
fn is_read(alloc: Global, records: &str, listed: bool, offers: &[ReserveOffer], need: i64) -> bool {
    match reserve_in(alloc, records) {
        Ok(reserve) => {
            reserve.listed == listed
                && reserve.need / MW_ONE == need
                && reserve.offers.slice() == offers
        }
        Err(_) => false,
    }
}

#[test]
fn reads_reserves(rt: HostRuntime) {
    for (records, listed, offers, need) in READ {
        assert!(rt;
            is_read(rt.alloc(), *records, *listed, *offers, *need),
            "{records}"
        );
    }
}

/// Records that are refused, each list with its first fault.
const FAULTS: &[(&str, ReserveFault)] = &[
    (
        "need,,60\n",
        ReserveFault::Frame(FrameFault::Width { line: 2 }),
    ),
    // The words come before the numbers.
    ("Offer,x,x,x\n", ReserveFault::Word { line: 2 }),
    ("offer,1,50,2\nneed,1,x,\n", ReserveFault::Word { line: 3 }),
    ("need,,x,0\n", ReserveFault::Word { line: 2 }),
    (
        "offer,,x,2\n",
        ReserveFault::Frame(FrameFault::Cell {
            line: 2,
            col: 2,
            why: Why::Decimal(DecimalFault::BadNumber),
        }),
    ),
    (
        "offer,9,0.0000000001,x\n",
        ReserveFault::Frame(FrameFault::Cell {
            line: 2,
            col: 3,
            why: Why::Decimal(DecimalFault::TooFine),
        }),
    ),
    (
        "offer,9,50,\n",
        ReserveFault::Frame(FrameFault::Cell {
            line: 2,
            col: 4,
            why: Why::Decimal(DecimalFault::BadNumber),
        }),
    ),
    (
        "need,,,\n",
        ReserveFault::Frame(FrameFault::Cell {
            line: 2,
            col: 3,
            why: Why::Decimal(DecimalFault::BadNumber),
        }),
    ),
    ("offer,0,-1,2\n", ReserveFault::NoUnit { line: 2 }),
    (
        "need,,60,\noffer,4,50,2\n",
        ReserveFault::NoUnit { line: 3 },
    ),
    (
        "offer,1,50,2\noffer,1,-0.000000001,2\n",
        ReserveFault::Negative { line: 3 },
    ),
    (
        "need,,60,\nneed,,-60,\n",
        ReserveFault::Negative { line: 3 },
    ),
    (
        "offer,1,50,2\noffer,3,50,2\noffer,1,5,2\n",
        ReserveFault::Twice { line: 4 },
    ),
    (
        "need,,0,\noffer,1,50,2\nneed,,60,\n",
        ReserveFault::Twice { line: 4 },
    ),
];

#[test]
fn tells_the_first_fault_of_reserves(rt: HostRuntime) {
    for (records, want) in FAULTS {
        assert_eq!(rt;
            reserve_in(rt.alloc(), *records).err(),
            Some(*want),
            "{records}"
        );
    }
    let header = reserve_of(rt.alloc(), "unit,kind,mw,price\n").err();
    assert_eq!(rt; header, Some(ReserveFault::Frame(FrameFault::Header)));
}
