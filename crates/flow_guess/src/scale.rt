//! A divisor of all reactances, and parts as small as fit.

ghost use Rattle.std.specs.Prelude.{◌≡◌, ◌≤◌, ◌^◌, pos, ◌*ℤ◌, ◌≤ℤ◌, ◌<ℤ◌, true, All, int_rem};

use crate::links::Link;

/// A common divisor by Euclid's algorithm, which takes fewer than 200 steps.
fn common_divisor(a: i128, b: i128) -> i128 {
    let mut a = a;
    let mut b = b;
    for _ in 0..200 {
        if b <= 0 {
            return a;
        }
        let rest = a % b;
        a = b;
        b = rest;
    }
    1
}

/// Whether it divides all reactances.
fn divides_all(scale: i128, links: &[Link]) -> bool
    requires { pos 0 <ℤ scale }
    ensures { result ≡ true → All (λ link. int_rem link.reactance scale ≡ pos 0) links.now }
{
    for link in links {
        if link.reactance % scale != 0 {
            return false;
        }
    }
    true
}

/// A divisor of all reactances, the greatest one where they are above 0.
pub(crate) fn scale_of(links: &[Link]) -> i128
    ensures above { pos 0 <ℤ result }
    ensures divides { All (λ link. int_rem link.reactance result ≡ pos 0) links.now }
{
    let mut scale: i128 = 0;
    for link in links {
        scale = common_divisor(link.reactance, scale);
    }
    if scale > 0 && divides_all(scale, links) {
        scale
    } else {
        1
    }
}

/// All reactances together, by the scale.
pub(crate) fn reach_of_all(links: &[Link], scale: i128) -> i128
    requires { pos 0 <ℤ scale }
{
    let mut reach: i128 = 0;
    for link in links {
        reach = reach.wrapping_add(link.reactance / scale);
    }
    reach
}

/// So many that products of angles and reactances fit, with room.
const MOST: i128 = 1 << 123;

/// Whether so many parts over all reactances are a number with room for misses.
fn fits(units: i128, part: i128, reach: i128) -> bool {
    match units.checked_mul(part) {
        Some(parts) => match parts.checked_mul(reach) {
            Some(size) => size < MOST,
            None => false,
        },
        None => false,
    }
}

/// How many parts a unit has: as many as fit, and a multiple of small numbers, by which flows often divide.
pub(crate) fn part_of(units: i128, reach: i128) -> i128
    ensures above { pos 0 <ℤ result }
    ensures size { result <ℤ pos (2 ^ 64) }
{
    let mut part: u64 = 720_720_000_000_000;
    for _ in 0..15 {
        if !fits(units, i128::from(part), reach) {
            part /= 10;
        }
    }
    i128::from(part.max(1))
}

/// 10 to a power.
pub(crate) fn ten_to(places: u8) -> i128
    requires { places ≤ 9 }
    ensures is { result ≡ pos (10 ^ places) }
    ensures above { pos 0 ≤ℤ result }
    ensures size { result <ℤ pos (2 ^ 30) }
{
    10i128.pow(u32::from(places))
}

/// The parts of so many units.
pub(crate) fn parts_of(part: i128, units: i128) -> i128
    requires part { (pos 0 <ℤ part) × (part <ℤ pos (2 ^ 64)) }
    requires units { (pos 0 ≤ℤ units) × (units <ℤ pos (2 ^ 30)) }
    ensures { result ≡ part *ℤ units }
{
    part * units
}
