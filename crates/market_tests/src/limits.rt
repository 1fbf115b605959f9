//! The limit rows of the triangle with outages, their factors, and the flows of its branches, worked by hand.

ghost use Rattle.std.specs.Prelude.{◌≡◌, ◌<◌, ◌^◌, unsigned_abs, length};

use crate::markets::{is, triangle};
use exact_fraction::{Exact, Frac, Frac63};
use limit_rows::{coefficient, count, id, limit_at, name_at, position, put_line_flows, row_named};
use market_data::FACTOR_ONE;
use market_model::{Market, Memory, RowId};
use std::alloc::Global;
use std::test::Fail;

fn row(branch: u32, outage: u32) -> RowId {
    RowId {
        branch,
        outage,
        unit: 0,
    }
}

/// The branch and the outage of each row, in the order of the outages.
static ROWS: [(u32, u32); 4] = [(2, 0), (2, 3), (2, 1), (3, 1)];

/// Whether the row at a place has this name, and the row of the name this place.
fn is_at(market: &Market, place: usize, name: RowId) -> bool {
    place < count(market) && id(market, place) == name && position(market, name) == Some(place)
}

/// Whether the rows are these four.
fn are_in_order(market: &Market) -> bool {
    for (place, (branch, outage)) in ROWS.iter().enumerate() {
        if !is_at(market, place, row(*branch, *outage)) {
            return false;
        }
    }
    count(market) == 4 && position(market, row(3, 3)).is_none()
}

/// The name and the limit of the row of a name.
fn by_name(market: &Market, name: RowId) -> Option<(RowId, i64)> {
    let _lines = market.lines();
    match row_named(market, name) {
        Some(row) => Some((name_at(market, row), limit_at(market, row))),
        None => None,
    }
}

/// Whether branch 2 has a limit in the base and another after the outage of branch 1, and branch 1 has none.
fn are_limits(market: &Market) -> bool {
    by_name(market, row(2, 0)) == Some((row(2, 0), 40))
        && by_name(market, row(2, 1)) == Some((row(2, 1), 45))
        && by_name(market, row(1, 3)).is_none()
}

/// Factors of branch 2 after the outage of a branch, each with a bus, in 10^-9: those of its flow in the base, where 0 is the outage, and else
/// its own and those of branch 1.
static FACTORS: [(u32, usize, i32); 4] = [
    (0, 2, -750_000_000),
    (1, 0, 0),
    (1, 1, -1_000_000_000),
    (1, 2, -1_000_000_000),
];

/// Whether the row of a name has this factor at a bus.
fn has_factor(market: &Market, name: RowId, bus: usize, factor: i32) -> bool {
    match position(market, name) {
        Some(_) if bus < market.buses().len() => match coefficient::<Frac>(market, name, bus) {
            Ok(number) => is(number, factor, FACTOR_ONE),
            Err(_) => false,
        },
        _ => false,
    }
}

fn are_factors(market: &Market) -> bool {
    for (outage, bus, factor) in &FACTORS {
        if !has_factor(market, row(2, *outage), *bus, *factor) {
            return false;
        }
    }
    true
}

fn rows_and_factors(alloc: Global) -> Result<bool, Memory> {
    let market = triangle(alloc, true)?;
    Ok(are_in_order(&market) && are_limits(&market) && are_factors(&market))
}

#[test]
fn rows_limits_and_factors(rt: HostRuntime) -> Result<(), Fail> {
    assert!(rt; rows_and_factors(rt.alloc())?);
    Ok(())
}

/// The flows of the three branches where the three buses put in so much.
fn flows_at<N: Exact>(market: &Market, injections: &[N]) -> Option<[N; 3]>
    requires buses { length market.now.buses ≡ 3 }
    requires lines { length market.now.lines ≡ 3 }
    requires injections { length injections.now ≡ 3 }
{
    let mut flows = [N::of_parts(0, 1); 3];
    match put_line_flows(market, injections, &mut flows) {
        Ok(()) => Some(flows),
        Err(_) => None,
    }
}

/// Halves and thirds.
fn sixths(number: i32) -> Frac {
    Frac::of_parts(i64::from(number), 6)
}

/// Whether flows are these, in sixths.
fn are(flows: Option<[Frac; 3]>, wanted: [i32; 3]) -> bool {
    match flows {
        Some(flows) => {
            is(flows[0], wanted[0], 6) && is(flows[1], wanted[1], 6) && is(flows[2], wanted[2], 6)
        }
        None => false,
    }
}

/// Injections of whole numbers, and others.
fn are_flows(market: &Market) -> bool
    requires buses { length market.now.buses ≡ 3 }
    requires lines { length market.now.lines ≡ 3 }
{
    are(
        flows_at(market, &[sixths(60), sixths(-24), sixths(-36)]),
        [21, 39, 0],
    ) && are(
        flows_at(market, &[sixths(6), sixths(2), sixths(-8)]),
        [1, 5, 0],
    )
}

/// A whole number, in 63 bits.
fn whole_number(number: i64) -> Frac63
    requires { unsigned_abs number < 2 ^ 63 }
{
    Frac63::of_parts(number, 1)
}

/// Whether flows of up to 63 bits are made, and none that are larger.
fn are_bounded(market: &Market) -> bool
    requires buses { length market.now.buses ≡ 3 }
    requires lines { length market.now.lines ≡ 3 }
{
    let nothing = whole_number(0);
    let most = whole_number(8_000_000_000_000_000_000);
    let flow = whole_number(2_000_000_000_000_000_000);
    match flows_at(market, &[nothing, most, most.neg()]) {
        Some(flows) => {
            flows[0] == flow.neg()
                && flows[1] == flow
                && flows[2] == nothing
                && flows_at(market, &[nothing, most, whole_number(3)]).is_none()
        }
        None => false,
    }
}

fn flows(alloc: Global) -> Result<bool, Memory> {
    let market = triangle(alloc, false)?;
    Ok(are_flows(&market) && are_bounded(&market))
}

#[test]
fn flows_of_branches(rt: HostRuntime) -> Result<(), Fail> {
    assert!(rt; flows(rt.alloc())?);
    Ok(())
}
