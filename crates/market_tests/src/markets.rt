//! The markets of the tests, and what these ask of each.

ghost use Rattle.std.specs.Prelude.{◌≡◌, ◌<◌, ◌≤ℤ◌, ◌^◌, pos, length, true, IfOk};
ghost use Rattle.market_tests.specs.Markets.{energy, lines, network, outages};

use exact_fraction::Exact;
use market_model::{
    Block, Bus, Factor, Line, List, Market, Memory, Parts, Reserve, ReserveOffer, Side, Unit,
    assemble,
};
use std::alloc::Global;
use std::cmp::Ordering;
use std::test::Fail;

const CORNERS: [Bus; 3] = [
    Bus {
        number: 1,
        pd: 0,
        gs: 0,
    },
    Bus {
        number: 2,
        pd: 0,
        gs: 0,
    },
    Bus {
        number: 3,
        pd: 0,
        gs: 0,
    },
];

/// The shift factors of branches 1 and 2 of the triangle.
const SHIFT: [Factor; 4] = [
    Factor {
        line: 0,
        of: 1,
        value: -500_000_000,
    },
    Factor {
        line: 0,
        of: 2,
        value: -250_000_000,
    },
    Factor {
        line: 1,
        of: 1,
        value: -500_000_000,
    },
    Factor {
        line: 1,
        of: 2,
        value: -750_000_000,
    },
];

/// All of the flow of branch 1 goes over to branch 2.
const LOSS: [Factor; 1] = [Factor {
    line: 1,
    of: 0,
    value: 1_000_000_000,
}];

const BUSES: [Bus; 1] = [Bus {
    number: 1,
    pd: 60,
    gs: 0,
}];

const UNITS: [Unit; 2] = [
    Unit {
        row: 1,
        bus: 0,
        fixed: 0,
        up: 100,
        down: 0,
    },
    Unit {
        row: 2,
        bus: 0,
        fixed: 0,
        up: 100,
        down: 0,
    },
];

const BLOCKS: [Block; 2] = [
    Block {
        unit: 0,
        side: Side::Sell,
        quantity: 100,
        price: 10,
    },
    Block {
        unit: 1,
        side: Side::Sell,
        quantity: 100,
        price: 30,
    },
];

const OFFERS: [ReserveOffer; 2] = [
    ReserveOffer {
        unit: 0,
        quantity: 50,
        price: 2,
    },
    ReserveOffer {
        unit: 1,
        quantity: 50,
        price: 5,
    },
];

/// A list of these.
fn listed<T: Copy>(alloc: Global, items: &[T]) -> Result<List<T>, Memory>
    ensures { IfOk result (λ list. list ≡ items.now) }
{
    let mut list = List::new(alloc);
    for item in items {
        list.push(*item)?;
    }
    Ok(list)
}

/// Branch 2 has a limit of 40 MW, and of 45 after outages; branch 3 this one after outages.
fn lines(alloc: Global) -> Result<List<Line>, Memory>
    ensures { IfOk result (λ list. list ≡ lines) }
{
    let lines = [
        Line::hard(1, None, None, 0),
        Line::hard(2, Some(40), Some(45), 0),
        Line::hard(3, None, Some(45), 0),
    ];
    listed(alloc, &lines)
}

/// The outages of branches 3 and 1 in this order, or none.
fn outages(alloc: Global, are_listed: bool) -> Result<List<u32>, Memory>
    ensures { IfOk result (λ list. list ≡ outages are_listed) }
{
    if are_listed {
        listed(alloc, &[3, 1])
    } else {
        Ok(List::new(alloc))
    }
}

/// Three buses with factors.
fn network(alloc: Global) -> Result<Parts, Memory>
    ensures { IfOk result (λ parts. parts ≡ network) }
{
    let buses = listed(alloc, &CORNERS)?;
    let shift = listed(alloc, &SHIFT)?;
    let loss = listed(alloc, &LOSS)?;
    Ok(Parts {
        shift,
        loss,
        ..Parts::bare(alloc, buses, List::new(alloc), List::new(alloc))
    })
}

/// Three buses in a triangle, with outages or without.
pub(crate) fn triangle(alloc: Global, has_outages: bool) -> Result<Market, Memory>
    ensures buses { IfOk result (λ market. length market.buses ≡ 3) }
    ensures lines { IfOk result (λ market. length market.lines ≡ 3) }
{
    let mut parts = network(alloc)?;
    parts.lines = lines(alloc)?;
    parts.outages = outages(alloc, has_outages)?;
    assemble(alloc, parts)
}

/// A load of 60 MW. Two units with room for 100 MW each sell up to that at 10 and at 30.
fn energy(alloc: Global) -> Result<Parts, Memory>
    ensures { IfOk result (λ parts. parts ≡ energy) }
{
    let buses = listed(alloc, &BUSES)?;
    let units = listed(alloc, &UNITS)?;
    let blocks = listed(alloc, &BLOCKS)?;
    Ok(Parts::bare(alloc, buses, units, blocks))
}

/// The units also offer 50 MW of reserve each at 2 and at 5.
pub(crate) fn needing(alloc: Global, need: i64) -> Result<Market, Memory>
    requires { pos 0 ≤ℤ need }
    ensures buses { IfOk result (λ market. length market.buses ≡ 1) }
    ensures blocks { IfOk result (λ market. length market.blocks ≡ 2) }
    ensures offers { IfOk result (λ market. length market.reserve.offers ≡ 2) }
    ensures listed { IfOk result (λ market. market.reserve.listed ≡ true) }
{
    let mut parts = energy(alloc)?;
    let offers = listed(alloc, &OFFERS)?;
    parts.reserve = Reserve {
        listed: true,
        offers,
        need,
    };
    assemble(alloc, parts)
}

/// Whether a number is the wanted one over so many parts.
pub(crate) fn is<N: Exact>(number: N, wanted: i32, parts: u64) -> bool
    requires { (0 < parts) × (parts < 2 ^ 63) }
{
    number.order(N::of_parts(i64::from(wanted), parts)) == Ordering::Equal
}

/// Whether a market has a bus, two units, a block of each and two offers.
fn is_whole(market: &Market) -> bool {
    market.buses().len() == 1
        && market.units().len() == 2
        && market.blocks().len() == 2
        && market.reserve().offers.len() == 2
}

fn assembles(alloc: Global) -> Result<bool, Memory> {
    let market = needing(alloc, 60)?;
    Ok(is_whole(&market))
}

#[test]
fn assembles_its_parts(rt: HostRuntime) -> Result<(), Fail> {
    assert!(rt; assembles(rt.alloc())?);
    Ok(())
}
