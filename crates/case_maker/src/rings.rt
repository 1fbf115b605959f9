//! The market of a ring.

ghost use Rattle.std.specs.Prelude.{◌≡◌, ◌+◌, ◌≤◌, ◌<◌, IfOk};
ghost use Rattle.market_model.specs.Market.{IsMarket};
ghost use Rattle.case_maker.specs.Rings.{ring_bus, half_sold, ring_branch, mw, ring_of, ring_unit, with_bus};
ghost use Rattle.market_data.specs.Scales.{IsRingSize};

use crate::draws::{Drawn, Draws};
use crate::factors::{loss_factors, shift_factors};
use market_data::{MW_ONE, PRICE_ONE};
use market_model::{Block, Bus, Line, List, Market, Memory, Parts, Side, Unit, assemble};
use std::alloc::Global;

/// A whole number of MW.
fn mw(amount: u32) -> i64
    ensures { result ≡ mw amount }
{
    i64::from(amount) * MW_ONE
}

/// A block of 50 MW that a unit sells at a whole price per MWh.
fn half_sold(unit: usize, price: u32) -> Block
    ensures { result ≡ half_sold unit price }
{
    Block {
        unit,
        side: Side::Sell,
        quantity: mw(50),
        price: i64::from(price) * PRICE_ONE,
    }
}

/// The number of what stands at a place.
fn number_of(place: usize) -> u32
    requires { place < 64 }
    ensures { result ≡ place + 1 }
{
    place as u32 + 1
}

fn bus_of(place: usize, drawn: &Drawn) -> Bus
    requires { place < 64 }
    ensures { result ≡ ring_bus place drawn.now }
{
    Bus {
        number: number_of(place),
        pd: mw(drawn.load),
        gs: 0,
    }
}

fn unit_of(place: usize) -> Unit
    requires { place < 64 }
    ensures { result ≡ ring_unit place }
{
    Unit {
        row: number_of(place),
        bus: place,
        fixed: 0,
        up: mw(100),
        down: 0,
    }
}

/// The branch from a bus to the next one.
fn line_of(place: usize, drawn: &Drawn) -> Line
    requires { place < 64 }
    ensures { result ≡ ring_branch place drawn.now }
{
    Line::hard(
        number_of(place),
        Some(mw(drawn.base_limit)),
        Some(mw(drawn.post_limit)),
        0,
    )
}

/// Adds a bus, its unit with two blocks, and the branch that leaves it, which is an outage too.
fn push_bus(parts: &mut Parts, place: usize, drawn: &Drawn) -> Result<(), Memory>
    requires { place < 64 }
    ensures { IfOk result (λ _. parts.new ≡ with_bus parts.old place drawn.now) }
{
    parts.buses.push(bus_of(place, drawn))?;
    parts.units.push(unit_of(place))?;
    parts.blocks.push(half_sold(place, drawn.first_price))?;
    parts.blocks.push(half_sold(place, drawn.second_price))?;
    parts.lines.push(line_of(place, drawn))?;
    parts.outages.push(number_of(place))
}

/// A ring of 4, 8, 16, 32 or 64 buses with loads, prices and limits that are drawn from a seed.
///
/// Bus 1 is the reference. Branch l leads from bus l to bus l + 1, the last one to bus 1, and all have one reactance. Unit l
/// stands at bus l. Loads are 10 to 50 MW, and each unit sells 50 MW at one price and 50 MW at a second one, so each bus can
/// serve itself. Every branch is an outage.
pub fn ring(alloc: Global, buses: usize, seed: u64) -> Result<Market, Memory>
    requires size { IsRingSize buses }
    requires seed { seed ≤ 4294967295 }
    ensures ring { IfOk result (λ market. market ≡ ring_of buses seed) }
    ensures kept { IfOk result IsMarket }
{
    let mut parts = Parts {
        shift: shift_factors(alloc, buses)?,
        loss: loss_factors(alloc, buses)?,
        ..Parts::bare(alloc, List::new(alloc), List::new(alloc), List::new(alloc))
    };
    let mut draws = Draws::new(seed);
    for place in 0..buses {
        let drawn = draws.bus();
        push_bus(&mut parts, place, &drawn)?;
    }
    assemble(alloc, parts)
}
