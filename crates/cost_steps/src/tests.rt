//! Worked costs, each with ranges and the steps that these are cut into.

use crate::{Cost, CostPoint, CostStop, Way, is_cost, steps_of};
use plain_list::List;
use std::alloc::Global;
use std::test::Fail;

/// One MW, and one dollar an hour.
const ONE: i64 = 1_000_000_000;

/// A way, a range, into how many parts it is cut, and the quantity, the price and whether it is exact of each step.
type Cut = (Way, i64, i64, u32, &'static [(i64, i64, bool)]);

/// `0.02 p^2 + 10 p`.
static QUADRATIC: [Cut; 6] = [
    (
        Way::Up,
        0,
        100 * ONE,
        4,
        &[
            (25 * ONE, 10_500_000, true),
            (25 * ONE, 11_500_000, true),
            (25 * ONE, 12_500_000, true),
            (25 * ONE, 13_500_000, true),
        ],
    ),
    (
        Way::Down,
        0,
        100 * ONE,
        2,
        &[(50 * ONE, 13_000_000, true), (50 * ONE, 11_000_000, true)],
    ),
    (
        Way::Up,
        0,
        10 * ONE,
        3,
        &[
            (3_333_333_333, 10_066_667, false),
            (3_333_333_333, 10_200_000, false),
            (3_333_333_334, 10_333_333, false),
        ],
    ),
    (
        Way::Down,
        0,
        10 * ONE,
        3,
        &[
            (3_333_333_333, 10_333_333, false),
            (3_333_333_333, 10_200_000, false),
            (3_333_333_334, 10_066_667, false),
        ],
    ),
    (
        Way::Up,
        -1_000_000,
        1_000_000,
        1,
        &[(2_000_000, 10_000_000, true)],
    ),
    (Way::Up, 7 * ONE, 7 * ONE, 20, &[]),
];

/// Points of a cost, ranges of it and their steps.
static SEGMENTS: [(&[(i64, i64)], Cut); 6] = [
    (
        &[(0, 0), (50 * ONE, 500 * ONE), (100 * ONE, 1250 * ONE)],
        (
            Way::Up,
            20 * ONE,
            80 * ONE,
            1,
            &[(30 * ONE, 10_000_000, true), (30 * ONE, 15_000_000, true)],
        ),
    ),
    (
        &[(0, 0), (50 * ONE, 500 * ONE), (100 * ONE, 1250 * ONE)],
        (
            Way::Down,
            -10 * ONE,
            120 * ONE,
            1,
            &[(70 * ONE, 15_000_000, true), (60 * ONE, 10_000_000, true)],
        ),
    ),
    (
        &[(0, 0), (50 * ONE, 500 * ONE), (100 * ONE, 1250 * ONE)],
        (
            Way::Up,
            60 * ONE,
            70 * ONE,
            20,
            &[(10 * ONE, 15_000_000, true)],
        ),
    ),
    (
        &[(0, 0), (3 * ONE, ONE), (6 * ONE, 3 * ONE)],
        (
            Way::Up,
            0,
            6 * ONE,
            1,
            &[(3 * ONE, 333_333, false), (3 * ONE, 666_667, false)],
        ),
    ),
    (
        &[(0, 1000), (2 * ONE, 0), (4 * ONE, 1000)],
        (
            Way::Up,
            0,
            4 * ONE,
            1,
            &[(2 * ONE, -1, false), (2 * ONE, 1, false)],
        ),
    ),
    (&[(-5 * ONE, 0), (0, 0)], (Way::Down, ONE, ONE, 1, &[])),
];

/// Points of costs, and whether steps are made of these.
static SHAPES: [(&[(i64, i64)], bool); 7] = [
    (&[(0, 0)], false),
    (&[(0, 0), (0, 1)], false),
    (&[(1, 0), (0, 1)], false),
    (&[(0, 0), (2, -2), (5, -5)], true),
    (&[(0, 0), (2, -2), (5, -6)], false),
    (&[(0, 0), (2, -2), (5, -4)], true),
    (
        &[(-i64::MAX, i64::MAX), (0, -i64::MAX), (i64::MAX, i64::MAX)],
        true,
    ),
];

fn points_of(alloc: Global, points: &[(i64, i64)]) -> Result<Cost, Fail> {
    let mut list = List::new(alloc);
    for (output, cost) in points {
        list.push(CostPoint {
            output: *output,
            cost: *cost,
        })?;
    }
    Ok(Cost::Segments { points: list })
}

/// Whether a range of a cost is cut into the steps that are wanted.
fn is_cut(alloc: Global, cost: &Cost, cut: &Cut) -> Result<bool, Fail> {
    let (way, low, high, count, want) = *cut;
    if !is_cost(cost) || low > high || low.abs_diff(high) >= 1 << 63 || count == 0 {
        return Ok(false);
    }
    let steps = steps_of(alloc, cost, way, low, high, count)?;
    let mut same = steps.len() == want.len();
    for (step, want) in steps.slice().iter().zip(want) {
        same = same && (step.quantity, step.price, step.exact) == *want;
    }
    Ok(same)
}

#[test]
fn cuts_a_quadratic_cost(rt: HostRuntime) -> Result<(), Fail> {
    let cost = Cost::Quadratic {
        square: 20_000_000_000_000,
        linear: 10_000_000_000_000,
    };
    for cut in &QUADRATIC {
        assert!(rt; is_cut(rt.alloc(), &cost, cut)?);
    }
    Ok(())
}

#[test]
fn cuts_segments(rt: HostRuntime) -> Result<(), Fail> {
    for (points, cut) in &SEGMENTS {
        let cost = points_of(rt.alloc(), points)?;
        assert!(rt; is_cut(rt.alloc(), &cost, cut)?);
    }
    Ok(())
}

#[test]
fn tells_costs(rt: HostRuntime) -> Result<(), Fail> {
    for (points, want) in &SHAPES {
        let cost = points_of(rt.alloc(), points)?;
        assert_eq!(rt; is_cost(&cost), *want);
    }
    for (square, want) in [
        (-1, false),
        (0, true),
        (ONE * ONE, true),
        (ONE * ONE + 1, false),
    ] {
        assert_eq!(rt; is_cost(&Cost::Quadratic { square, linear: -1 }), want);
    }
    Ok(())
}

#[test]
fn tells_a_price_that_does_not_fit(rt: HostRuntime) -> Result<(), Fail> {
    let steep = points_of(rt.alloc(), &[(0, 0), (1, 0), (2, ONE * ONE)])?;
    assert!(rt; is_cost(&steep));
    assert!(rt; steps_of(rt.alloc(), &steep, Way::Up, 0, 1, 1).is_ok());
    let refused = steps_of(rt.alloc(), &steep, Way::Up, 0, 2, 1);
    assert!(rt; matches!(refused, Err(CostStop::Price)));
    Ok(())
}
