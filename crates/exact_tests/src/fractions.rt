//! What no clause says: numbers at the edges of the types of 63 and 127 bits, texts, and each call once at every type.
ghost use Rattle.std.specs.Prelude.{◌≤◌};

use exact_fraction::{Exact, Frac, Frac63, MOST_TEXT, Op, Passed, Sign, size};
use long_fraction::Frac1023;
use std::cmp::Ordering;
use std::process::Abort;

/// The most that 63 bits hold.
const MOST: i64 = i64::MAX;

/// `num/den`, where a fraction may be made of these.
fn fraction<N: Exact>(num: i64, den: u64) -> Option<N> {
    if num > i64::MIN && den > 0 && den < 1 << 63 {
        Some(N::of_parts(num, den))
    } else {
        None
    }
}

fn apply<N: Exact>(op: Op, left: N, right: N) -> Result<N, Passed<N>> {
    match op {
        Op::Plus => left.plus(right),
        Op::Minus => left.minus(right),
        Op::Times => left.times(right),
    }
}

fn is<N: Exact>(answer: Result<N, Passed<N>>, value: N) -> bool {
    match answer {
        Ok(found) => found.order(value) == Ordering::Equal,
        Err(_) => false,
    }
}

pub fn inverse<N: Exact>(x: N) -> Option<N> {
    match x.sign() {
        Sign::Zero => None,
        _ => Some(x.recip()),
    }
}

fn is_written<N: Exact>(x: N, places: u8, text: &str) -> bool
    requires { places ≤ 15 }
{
    let mut buf = [0; MOST_TEXT];
    let end = x.write_exact(places, &mut buf);
    &buf[..end] == text.as_bytes()
}

pub fn is_in_parts<N: Exact>(x: N, text: &str) -> bool {
    let mut buf = [0; MOST_TEXT];
    let end = x.write_parts(&mut buf);
    &buf[..end] == text.as_bytes()
}

/// Each call once, on its happy path.
fn calls<N: Exact>(rt: &impl Abort) {
    let third = N::of_parts(1, 3);
    let half = N::of_parts(-2, 4);
    assert!(rt; is_in_parts(half, "-1/2"));
    assert!(rt; is(third.plus(half), N::of_parts(-1, 6)));
    assert!(rt; is(third.minus(half), N::of_parts(5, 6)));
    assert!(rt; is(third.times(half), N::of_parts(-1, 6)));
    assert!(rt;
        is(
            third.plus_product(half, N::of_parts(4, 3)),
            N::of_parts(-1, 3)
        )
    );
    assert!(rt; is(Ok(half.neg()), N::of_parts(1, 2)));
    assert!(rt; third.order(half) == Ordering::Greater);
    assert!(rt; half.is_same(N::of_parts(-1, 2)) && !half.is_same(third));
    assert!(rt; half.sign() == Sign::Below && third.sign() == Sign::Above);
    match inverse(half) {
        Some(inverse) => assert!(rt; is_written(inverse, 0, "-2")),
        None => assert!(rt; false),
    }
}

#[test]
fn each_call_at_each_type(rt: HostRuntime) {
    calls::<Frac>(&rt);
    calls::<Frac63>(&rt);
    calls::<Frac1023>(&rt);
}

/// Sides whose parts have 63 bits: at `Frac` none of these passes.
#[test]
fn edges_of_63_bits(rt: HostRuntime) {
    for (op, (a, b), (c, d), passes) in [
        (Op::Plus, (MOST, 1), (0, 1), false),
        (Op::Plus, (MOST, 1), (1, 1), true),
        (Op::Plus, (-MOST, 1), (-1, 1), true),
        (Op::Minus, (-MOST, 1), (1, 1), true),
        (Op::Minus, (MOST, 1), (MOST, 1), false),
        (Op::Plus, (1, 1 << 62), (1, 1 << 62), false),
        (Op::Plus, (1, 1 << 62), (1, 3), true),
        (Op::Times, (1 << 32, 1), (1 << 31, 1), true),
        (Op::Times, (1 << 32, 1), ((1 << 31) - 1, 1), false),
        (Op::Times, (MOST, 2), (2, MOST as u64), false),
        (Op::Times, (1, 1 << 62), (1, 2), true),
    ] {
        match (fraction::<Frac63>(a, b), fraction::<Frac63>(c, d)) {
            (Some(left), Some(right)) => {
                let result = apply(op, left, right);
                assert_eq!(rt; result == Err(Passed { op, left, right }), passes);
                assert_eq!(rt; result.is_err(), passes);
            }
            _ => assert!(rt; false),
        }
        match (fraction::<Frac>(a, b), fraction::<Frac>(c, d)) {
            (Some(left), Some(right)) => assert!(rt; apply(op, left, right).is_ok()),
            _ => assert!(rt; false),
        }
    }
}

#[test]
fn edges_of_127_bits(rt: HostRuntime) {
    let small = Frac::of_parts(1, 1 << 50);
    let big = Frac::of_parts(1 << 32, 1);
    match (
        small.times(small),
        big.times(big),
        big.times(Frac::of_parts(1 << 31, 1)),
    ) {
        (Ok(tiny), Ok(power_64), Ok(power_63)) => {
            assert!(rt; is_in_parts(tiny, "1/1267650600228229401496703205376"));
            assert!(rt; tiny.plus(tiny).is_ok());
            let passed = Passed {
                op: Op::Times,
                left: power_64,
                right: power_63,
            };
            assert_eq!(rt; power_64.times(power_63), Err(passed));
            assert!(rt; power_64.times(Frac::of_parts(i64::MAX, 1)).is_ok());
        }
        _ => assert!(rt; false),
    }
}

/// A number and two sides whose product is added to it: the parts of the sum, or the operation that is refused, in 63 bits. In 127 bits all
/// are answered.
#[test]
fn sums_with_products(rt: HostRuntime) {
    const HALF: u64 = 1 << 31;
    for ((x, x_den), (a, a_den), (b, b_den), text, op) in [
        ((-MOST, 1), (1 << 32, 1), (1 << 31, 1), "1/1", None),
        (
            (0, 1),
            (1 << 32, 1),
            (1 << 31, 1),
            "9223372036854775808/1",
            Some(Op::Times),
        ),
        (
            (1, 1 << 62),
            (1, 3),
            (1, 1),
            "4611686018427387907/13835058055282163712",
            Some(Op::Plus),
        ),
        (
            (1, (HALF - 1) * HALF),
            (1, 1),
            (1, (HALF + 1) * HALF),
            "2/4611686018427387903",
            None,
        ),
        (
            (5, 7),
            (-MOST, 1),
            (1 << 31, 1),
            "-138649284399962590773669527547/7",
            Some(Op::Times),
        ),
    ] {
        match (
            fraction::<Frac63>(x, x_den),
            fraction::<Frac63>(a, a_den),
            fraction::<Frac63>(b, b_den),
        ) {
            (Some(number), Some(first), Some(second)) => {
                match number.plus_product(first, second) {
                    Ok(sum) => assert!(rt; op.is_none() && is_in_parts(sum, text), "{text}"),
                    Err(passed) => assert!(rt; Some(passed.op) == op, "{text}"),
                }
            }
            _ => assert!(rt; false),
        }
        match (
            fraction::<Frac>(x, x_den),
            fraction::<Frac>(a, a_den),
            fraction::<Frac>(b, b_den),
        ) {
            (Some(number), Some(first), Some(second)) => {
                match number.plus_product(first, second) {
                    Ok(sum) => assert!(rt; is_in_parts(sum, text), "{text}"),
                    Err(_) => assert!(rt; false, "{text}"),
                }
            }
            _ => assert!(rt; false),
        }
    }
}

/// Operations on two numbers, and the number that they come to.
static WAYS: [(Op, (i64, u64), (i64, u64), &str); 13] = [
    (Op::Plus, (3, 1), (-3, 1), "0/1"),
    (Op::Plus, (MOST, 1), (-1, 1), "9223372036854775806/1"),
    (Op::Plus, (5, 1), (2, 3), "17/3"),
    (Op::Plus, (1, 4), (1, 6), "5/12"),
    (Op::Plus, (1, 6), (1, 10), "4/15"),
    (Op::Plus, (1, 6), (1, 6), "1/3"),
    (Op::Minus, (1, 6), (1, 6), "0/1"),
    (Op::Times, (0, 1), (-5, 7), "0/1"),
    (Op::Times, (-5, 7), (0, 1), "0/1"),
    (Op::Times, (-5, 7), (-1, 1), "5/7"),
    (Op::Times, (12, 35), (-25, 18), "-10/21"),
    (Op::Times, (1 << 62, 3), (9, 1 << 60), "12/1"),
    (Op::Times, (-MOST, 1), (1, MOST as u64), "-1/1"),
];

/// Two numbers and their order.
static ORDERS: [((i64, u64), (i64, u64), Ordering); 6] = [
    ((1, 3), (1, 3), Ordering::Equal),
    ((-2, 3), (-1, 3), Ordering::Less),
    ((0, 1), (1, 3), Ordering::Less),
    ((0, 1), (-1, 3), Ordering::Greater),
    ((7, 2), (10, 3), Ordering::Greater),
    ((MOST, 2), (MOST, 1), Ordering::Less),
];

/// Each way through a sum, a product and a comparison, at each type.
fn ways<N: Exact>(rt: &impl Abort) {
    for (op, left, right, text) in &WAYS {
        match (
            fraction::<N>(left.0, left.1),
            fraction::<N>(right.0, right.1),
        ) {
            (Some(left), Some(right)) => match apply(*op, left, right) {
                Ok(found) => assert!(rt; is_in_parts(found, text), "{text}"),
                Err(_) => assert!(rt; false, "{text}"),
            },
            _ => assert!(rt; false),
        }
    }
    for (left, right, order) in &ORDERS {
        match (
            fraction::<N>(left.0, left.1),
            fraction::<N>(right.0, right.1),
        ) {
            (Some(left), Some(right)) => assert!(rt; left.order(right) == *order),
            _ => assert!(rt; false),
        }
    }
}

#[test]
fn ways_at_each_type(rt: HostRuntime) {
    ways::<Frac>(&rt);
    ways::<Frac63>(&rt);
    ways::<Frac1023>(&rt);
}

/// The product of two fractions of 63 bits.
fn wide((a, b): (i64, u64), (c, d): (i64, u64)) -> Option<Frac> {
    match (fraction::<Frac>(a, b), fraction::<Frac>(c, d)) {
        (Some(left), Some(right)) => left.times(right).ok(),
        _ => None,
    }
}

/// Parts on both sides of 64 bits.
#[test]
fn ways_past_64_bits(rt: HostRuntime) {
    const ROOT: i64 = 1 << 32;
    const HALF: u64 = 1 << 31;
    for (op, (left, more_left), (right, more_right), text) in [
        (
            Op::Plus,
            ((ROOT, 1), (ROOT, 1)),
            ((ROOT, 1), (1 << 31, 1)),
            "27670116110564327424/1",
        ),
        (
            Op::Plus,
            ((1, HALF << 1), (1, HALF << 1)),
            ((1, HALF << 1), (1, HALF)),
            "3/18446744073709551616",
        ),
        (
            Op::Plus,
            ((ROOT, 3), (ROOT, 1)),
            ((1, 6), (1, 1)),
            "12297829382473034411/2",
        ),
        (
            Op::Times,
            ((ROOT, 1), (ROOT, 1)),
            ((1, HALF << 1), (1, HALF)),
            "2/1",
        ),
        (
            Op::Times,
            ((ROOT, 5), (3 << 32, 1)),
            ((5, HALF << 1), (1, 9 << 32)),
            "1/3",
        ),
    ] {
        match (wide(left, more_left), wide(right, more_right)) {
            (Some(left), Some(right)) => match apply(op, left, right) {
                Ok(found) => assert!(rt; is_in_parts(found, text), "{text}"),
                Err(_) => assert!(rt; false, "{text}"),
            },
            _ => assert!(rt; false),
        }
    }
}

/// The greatest number at 127 bits.
fn most() -> Option<Frac> {
    let power = wide((1 << 62, 1), (1 << 62, 1))?;
    let half = power.times(Frac::of_parts(4, 1)).ok()?;
    let rest = half.minus(Frac::of_parts(1, 1)).ok()?;
    half.plus(rest).ok()
}

#[test]
fn greatest_of_127_bits(rt: HostRuntime) {
    let one = Frac::of_parts(1, 1);
    match most() {
        Some(most) => {
            let mut buf = [0; 128];
            let end = most.write_parts(&mut buf);
            assert!(rt; &buf[..end] == b"170141183460469231731687303715884105727/1".as_slice());
            let end = most.write_exact(6, &mut buf);
            assert!(rt; &buf[..end] == b"170141183460469231731687303715884.105727".as_slice());
            let end = Frac63::of_parts(-8, 3).write_exact(1, &mut buf);
            assert!(rt; &buf[..end] == b"-0.2:2/3".as_slice());
            let end = Frac63::of_parts(-8, 6).write_parts(&mut buf);
            assert!(rt; &buf[..end] == b"-4/3".as_slice());
            assert!(rt; most.plus(one).is_err() && most.neg().minus(one).is_err());
            assert!(rt; is(most.plus(most.neg()), Frac::of_parts(0, 1)));
            assert!(rt; is(most.times(one.neg()), most.neg()));
            match inverse(most) {
                Some(least) => {
                    assert!(rt; is(most.times(least), one));
                    assert!(rt; least.order(most) == Ordering::Less);
                    assert!(rt; least.plus(least).is_ok() && least.times(least).is_err());
                }
                None => assert!(rt; false),
            }
        }
        None => assert!(rt; false),
    }
}

/// Amounts in units, as reports print them.
fn texts<N: Exact>(rt: &impl Abort) {
    for (num, den, places, text) in [
        (60000000000, 1, 9, "60"),
        (160000000000, 3, 9, "53.333333333:1/3"),
        (-1, 1, 9, "-0.000000001"),
        (-2200000000000000000, 3, 15, "-733.333333333333333:1/3"),
        (0, 5, 6, "0"),
        (-10, 1, 0, "-10"),
        (10, 3, 0, "3:1/3"),
        (1200, 1, 3, "1.2"),
        (i64::MAX, 1, 15, "9223.372036854775807"),
        (
            -1,
            i64::MAX as u64,
            15,
            "-0.000000000000000:1/9223372036854775807",
        ),
    ] {
        match fraction::<N>(num, den) {
            Some(x) if places <= 15 => assert!(rt; is_written(x, places, text), "{text}"),
            _ => assert!(rt; false),
        }
    }
}

#[test]
fn texts_at_both_types(rt: HostRuntime) {
    texts::<Frac>(&rt);
    texts::<Frac63>(&rt);
}

/// The nearest number of units, where the size is at most 1000.
fn nearest(x: Frac, places: u8) -> Option<i64> {
    if places > 9 {
        return None;
    }
    match size(x).order(Frac::of_parts(1000, 1)) {
        Ordering::Less => Some(x.nearest(places)),
        Ordering::Equal => Some(x.nearest(places)),
        Ordering::Greater => None,
    }
}

/// Whole numbers of units, with ties away from 0.
#[test]
fn nearest_units(rt: HostRuntime) {
    for (num, den, places, units) in [
        (1, 2, 0, 1),
        (-1, 2, 0, -1),
        (1, 3, 6, 333_333),
        (-2, 3, 6, -666_667),
        (115, 128, 6, 898_438),
        (-1000, 1, 9, -1_000_000_000_000),
    ] {
        match fraction::<Frac>(num, den) {
            Some(x) => assert_eq!(rt; nearest(x, places), Some(units)),
            None => assert!(rt; false),
        }
    }
}

/// Numerators that 64 bits don't hold.
#[test]
fn wide_parts(rt: HostRuntime) {
    let whole = Frac::of_wide(10_000_000_000_000_000_000_000, 1_000_000_000_000_000_000);
    assert!(rt; is_in_parts(whole, "10000/1"));
    let most = Frac::of_wide(-i128::MAX, 2);
    assert!(rt; is_in_parts(most, "-170141183460469231731687303715884105727/2"));
}
