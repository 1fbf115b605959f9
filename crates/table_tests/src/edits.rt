//! `offer_book`: edits of a market of one bus.

ghost use Rattle.std.specs.Prelude.{◌≡◌, IfOk};
ghost use Rattle.offer_book.specs.Edits.{number_of};

use market_data::{MW_ONE, PRICE_ONE};
use market_model::{Block, Bus, Line, List, Market, Memory, Parts, Side, Unit, assemble};
use offer_book::{Edit, EditFault, edit};
use std::alloc::Global;

const BUSES: [Bus; 1] = [Bus {
    number: 3,
    pd: 60 * MW_ONE,
    gs: 5 * MW_ONE,
}];

const UNITS: [Unit; 1] = [Unit {
    row: 1,
    bus: 0,
    fixed: 0,
    up: 100 * MW_ONE,
    down: 0,
}];

const BLOCKS: [Block; 2] = [
    Block {
        unit: 0,
        side: Side::Sell,
        quantity: 50 * MW_ONE,
        price: 10 * PRICE_ONE,
    },
    Block {
        unit: 0,
        side: Side::Sell,
        quantity: 50 * MW_ONE,
        price: 20 * PRICE_ONE,
    },
];

/// A list of these.
fn listed<T: Copy>(alloc: Global, items: &[T]) -> Result<List<T>, Memory>
    ensures { IfOk result (λ list. list ≡ items.now) }
{
    let mut list = List::new(alloc);
    for item in items {
        list.push(*item)?;
    }
    Ok(list)
}

/// One bus of number 3 with a load of 60 MW and a shunt of 5 MW. The unit of row 1 may go 100 MW up and sells 50 MW at 10 and 50 MW at
/// 20; branch 2 has a base limit of 40 MW.
fn market(alloc: Global) -> Result<Market, Memory> {
    let buses = listed(alloc, &BUSES)?;
    let units = listed(alloc, &UNITS)?;
    let blocks = listed(alloc, &BLOCKS)?;
    let lines = listed(alloc, &[Line::hard(2, Some(40 * MW_ONE), None, 0)])?;
    let parts = Parts {
        lines,
        ..Parts::bare(alloc, buses, units, blocks)
    };
    assemble(alloc, parts)
}

/// The number that an edit would set.
fn number_of(asked: &Edit) -> i64
    ensures { result ≡ number_of asked.now }
{
    match *asked {
        Edit::Price { price, .. } => price,
        Edit::Quantity { mw, .. }
        | Edit::Demand { mw, .. }
        | Edit::Limit { mw, .. }
        | Edit::Need { mw } => mw,
    }
}

/// The price of the market's first block, the load of its bus and the shunt there.
type Numbers = (i64, i64, i64);

fn numbers(market: &Market) -> Option<Numbers> {
    match (
        market.blocks().slice().first(),
        market.buses().slice().first(),
    ) {
        (Some(block), Some(bus)) => Some((block.price, bus.pd, bus.gs)),
        _ => None,
    }
}

/// What an edit makes of that market, or why it is refused.
fn edited(alloc: Global, asked: &Edit) -> Option<Result<Numbers, EditFault>> {
    if number_of(asked) == i64::MIN {
        return None;
    }
    let mut market = market(alloc).ok()?;
    match edit(&mut market, asked) {
        Ok(()) => Some(Ok(numbers(&market)?)),
        Err(fault) => Some(Err(fault)),
    }
}

/// Edits, each with what comes of it.
const EDITS: &[(Edit, Result<Numbers, EditFault>)] = &[
    // Prices that break the stair, and that of the next block.
    (
        Edit::Price {
            unit: 1,
            side: Side::Sell,
            block: 1,
            price: 25 * PRICE_ONE,
        },
        Err(EditFault::OutOfOrder {
            other: 20 * PRICE_ONE,
        }),
    ),
    (
        Edit::Price {
            unit: 1,
            side: Side::Sell,
            block: 2,
            price: 5 * PRICE_ONE,
        },
        Err(EditFault::OutOfOrder {
            other: 10 * PRICE_ONE,
        }),
    ),
    (
        Edit::Price {
            unit: 1,
            side: Side::Sell,
            block: 1,
            price: 20 * PRICE_ONE,
        },
        Ok((20 * PRICE_ONE, 60 * MW_ONE, 5 * MW_ONE)),
    ),
    // Blocks that are not there come before what is asked of them.
    (
        Edit::Price {
            unit: 1,
            side: Side::Sell,
            block: 3,
            price: 25 * PRICE_ONE,
        },
        Err(EditFault::NoBlock),
    ),
    (
        Edit::Price {
            unit: 1,
            side: Side::Sell,
            block: 0,
            price: 0,
        },
        Err(EditFault::NoBlock),
    ),
    (
        Edit::Quantity {
            unit: 1,
            side: Side::Buy,
            block: 1,
            mw: -MW_ONE,
        },
        Err(EditFault::NoBlock),
    ),
    // Quantities out of bounds.
    (
        Edit::Quantity {
            unit: 1,
            side: Side::Sell,
            block: 2,
            mw: -1,
        },
        Err(EditFault::Negative),
    ),
    (
        Edit::Quantity {
            unit: 1,
            side: Side::Sell,
            block: 2,
            mw: 70 * MW_ONE,
        },
        Err(EditFault::OverCapacity {
            over: 20_000_000_000,
        }),
    ),
    (
        Edit::Quantity {
            unit: 1,
            side: Side::Sell,
            block: 2,
            mw: 0,
        },
        Ok((10 * PRICE_ONE, 60 * MW_ONE, 5 * MW_ONE)),
    ),
    // Buses, limits and a need that are not there.
    (
        Edit::Demand {
            bus: 1,
            mw: -MW_ONE,
        },
        Err(EditFault::NoBus),
    ),
    (
        Edit::Limit {
            branch: 2,
            post: true,
            mw: -MW_ONE,
        },
        Err(EditFault::NoLimit),
    ),
    (
        Edit::Limit {
            branch: 2,
            post: false,
            mw: -1,
        },
        Err(EditFault::Negative),
    ),
    (Edit::Need { mw: -MW_ONE }, Err(EditFault::NoReserve)),
    // A load beside a shunt.
    (
        Edit::Demand {
            bus: 3,
            mw: 40 * MW_ONE,
        },
        Ok((10 * PRICE_ONE, 40 * MW_ONE, 5 * MW_ONE)),
    ),
];

#[test]
fn edits_of_one_number(rt: HostRuntime) {
    for (asked, want) in EDITS {
        assert_eq!(rt; edited(rt.alloc(), asked), Some(*want), "{asked:?}");
    }
}
