//! Clears of a market with spinning reserve between edits of its need, at both types. The load is 60; two units with room for 100 each
//! sell up to that at 10 and at 30, and offer 50 of reserve each at 2 and at 5.

ghost use Rattle.std.specs.Prelude.{◌≡◌, ◌≤ℤ◌, pos};
ghost use Rattle.offer_book.specs.Edits.{number_of};

use crate::worked::{are, listed};
use edit_replay::Session;
use exact_fraction::{Exact, Frac, Frac63};
use market_model::{
    Answer, Block, Bus, Farkas, Market, Memory, Outcome, Parts, Reserve, ReserveOffer, RoomDual,
    Side, Unit, assemble,
};
use offer_book::Edit;
use std::alloc::Global;
use std::cmp::Ordering;
use std::test::Fail;

const BUSES: [Bus; 1] = [Bus {
    number: 1,
    pd: 60,
    gs: 0,
}];

const UNITS: [Unit; 2] = [
    Unit {
        row: 1,
        bus: 0,
        fixed: 0,
        up: 100,
        down: 0,
    },
    Unit {
        row: 2,
        bus: 0,
        fixed: 0,
        up: 100,
        down: 0,
    },
];

const BLOCKS: [Block; 2] = [
    Block {
        unit: 0,
        side: Side::Sell,
        quantity: 100,
        price: 10,
    },
    Block {
        unit: 1,
        side: Side::Sell,
        quantity: 100,
        price: 30,
    },
];

const OFFERS: [ReserveOffer; 2] = [
    ReserveOffer {
        unit: 0,
        quantity: 50,
        price: 2,
    },
    ReserveOffer {
        unit: 1,
        quantity: 50,
        price: 5,
    },
];

/// The market with this need.
fn needing(alloc: Global, need: i64) -> Result<Market, Memory>
    requires { pos 0 ≤ℤ need }
{
    let buses = listed(alloc, &BUSES)?;
    let units = listed(alloc, &UNITS)?;
    let blocks = listed(alloc, &BLOCKS)?;
    let offers = listed(alloc, &OFFERS)?;
    let mut parts = Parts::bare(alloc, buses, units, blocks);
    parts.reserve = Reserve {
        listed: true,
        offers,
        need,
    };
    assemble(alloc, parts)
}

/// An edit of the need.
fn need(mw: i64) -> Edit
    ensures { number_of result ≡ mw }
{
    Edit::Need { mw }
}

/// Whether a number is this one.
fn is<N: Exact>(number: N, wanted: i32) -> bool {
    number.order(N::of_parts(i64::from(wanted), 1)) == Ordering::Equal
}

/// Whether the room of the first unit has this price, and no other room has one.
fn is_room<N: Exact>(rooms: &[RoomDual<N>], price: i32) -> bool {
    match rooms {
        [] => price == 0,
        [room] => room.unit == 1 && is(room.price, price),
        _ => false,
    }
}

/// Whether the first unit makes all, so much reserve is accepted of the two offers, and these are the prices of energy and of reserve, and
/// of the first unit's room.
fn is_shared<N: Exact>(
    answer: &Answer<N>,
    mw: &[i32],
    energy: i32,
    reserve: i32,
    room: i32,
) -> bool {
    are(answer.dispatch.slice(), &[60, 0], 1)
        && are(answer.reserve.slice(), mw, 1)
        && is(answer.duals.energy, energy)
        && is(answer.duals.reserve, reserve)
        && is_room(answer.duals.rooms.slice(), room)
}

/// Whether a clear comes to that.
fn shares<N: Exact>(
    session: &mut Session<N>,
    alloc: Global,
    mw: &[i32],
    energy: i32,
    reserve: i32,
    room: i32,
) -> Result<bool, Memory> {
    match session.clear(alloc)? {
        Outcome::Cleared(answer) => Ok(is_shared(&answer, mw, energy, reserve, room)),
        _ => Ok(false),
    }
}

/// Whether duals show by the price of reserve alone that 10 more is needed than is offered.
fn is_short<N: Exact>(farkas: &Farkas<N>) -> bool {
    is(farkas.duals.energy, 0)
        && is(farkas.duals.reserve, 1)
        && is_room(farkas.duals.rooms.slice(), 0)
        && is(farkas.bound, -10)
}

/// Whether a clear comes to that.
fn falls_short<N: Exact>(session: &mut Session<N>, alloc: Global) -> Result<bool, Memory> {
    match session.clear(alloc)? {
        Outcome::Infeasible(farkas) => Ok(is_short(&farkas)),
        _ => Ok(false),
    }
}

/// The need is raised from 30 until the room of the first unit binds, where a MW of it is worth 3 for either use, let down again, and raised
/// beyond all that is offered.
fn shares_room<N: Exact>(session: &mut Session<N>, alloc: Global) -> Result<bool, Memory> {
    let slack = shares(session, alloc, &[30, 0], 10, 2, 0)?;
    let raised = session.edit(&need(60)).is_ok();
    let bound = shares(session, alloc, &[40, 20], 13, 5, 3)?;
    let lowered = session.edit(&need(30)).is_ok();
    let again = shares(session, alloc, &[30, 0], 10, 2, 0)?;
    let beyond = session.edit(&need(110)).is_ok();
    let short = falls_short(session, alloc)?;
    Ok(slack && raised && bound && lowered && again && beyond && short)
}

fn clears_with_reserve<N: Exact>(alloc: Global) -> Result<bool, Memory> {
    let market = needing(alloc, 30)?;
    let mut session: Session<N> = Session::new(market);
    shares_room(&mut session, alloc)
}

#[test]
fn energy_and_reserve_share_a_room(rt: HostRuntime) -> Result<(), Fail> {
    assert!(rt; clears_with_reserve::<Frac>(rt.alloc())?);
    assert!(rt; clears_with_reserve::<Frac63>(rt.alloc())?);
    Ok(())
}
