//! Numbers of 1,023 bits: sums that need them, and numbers at their edges, with texts worked outside by another program.

use crate::fractions::{inverse, is_in_parts};
use exact_fraction::{Exact, Frac, Op, Passed};
use long_fraction::Frac1023;
use std::process::Abort;

/// The sum of `1/k` up to a number, or the operation that is refused.
fn harmonic<N: Exact>(count: u32) -> Result<N, Passed<N>> {
    let mut sum = N::of_parts(0, 1);
    for k in 0..count {
        sum = sum.plus(N::of_parts(1, u64::from(k) + 1))?;
    }
    Ok(sum)
}

/// The sum of `1/k^2` up to a number, or the operation that is refused.
fn squares<N: Exact>(count: u32) -> Result<N, Passed<N>> {
    let mut sum = N::of_parts(0, 1);
    for k in 0..count {
        let part = N::of_parts(1, u64::from(k) + 1);
        sum = sum.plus_product(part, part)?;
    }
    Ok(sum)
}

fn is_told<N: Exact>(answer: Result<N, Passed<N>>, text: &str) -> bool {
    match answer {
        Ok(number) => is_in_parts(number, text),
        Err(_) => false,
    }
}

/// Sums whose parts have 293 and 415 bits.
#[test]
fn sums_of_many_bits(rt: HostRuntime) {
    assert!(rt; is_told(harmonic::<Frac1023>(200), HARMONIC));
    assert!(rt; is_told(squares::<Frac1023>(150), SQUARES));
    assert!(rt; harmonic::<Frac>(200).is_err() && squares::<Frac>(150).is_err());
}

/// 2 to the power of a count.
fn power(count: u32) -> Result<Frac1023, Passed<Frac1023>> {
    let mut power = Frac1023::of_parts(1, 1);
    for _ in 0..count {
        power = power.times(Frac1023::of_parts(2, 1))?;
    }
    Ok(power)
}

/// The greatest number, and the first that is refused on each side of 0 and below 1.
#[test]
fn edges_of_1023_bits(rt: HostRuntime) {
    let one = Frac1023::of_parts(1, 1);
    match power(1022) {
        Ok(half) => {
            assert_eq!(rt;
                half.plus(half),
                Err(Passed {
                    op: Op::Plus,
                    left: half,
                    right: half
                })
            );
            assert!(rt; half.times(Frac1023::of_parts(2, 1)).is_err());
            match half.minus(one) {
                Ok(rest) => greatest(&rt, half, rest),
                Err(_) => assert!(rt; false),
            }
            least(&rt, half);
        }
        Err(_) => assert!(rt; false),
    }
}

fn greatest(rt: &impl Abort, half: Frac1023, rest: Frac1023) {
    let one = Frac1023::of_parts(1, 1);
    match half.plus(rest) {
        Ok(most) => {
            assert!(rt; is_in_parts(most, MOST));
            assert!(rt; most.plus(one).is_err() && most.neg().minus(one).is_err());
            assert!(rt; is_told(most.minus(most), "0/1"));
            assert!(rt; most.times(most).is_err());
        }
        Err(_) => assert!(rt; false),
    }
}

fn least(rt: &impl Abort, half: Frac1023) {
    match inverse(half) {
        Some(least) => {
            assert!(rt; is_told(least.times(half), "1/1"));
            assert!(rt; least.plus(least).is_ok());
            assert!(rt; least.plus(Frac1023::of_parts(1, 3)).is_err());
            assert!(rt; least.times(Frac1023::of_parts(1, 2)).is_err());
        }
        None => assert!(rt; false),
    }
}

/// The sum of `1/k` up to 200.
const HARMONIC: &str =
    "73430450139366304745412892037069099001170161275640475032430988199840965762047744114895233/12492355141960232023683917288697829904903495658709527193661000811749408076321384817296000";

/// The sum of `1/k^2` up to 150.
const SQUARES: &str =
    "48454978780009675055151867867051843036941229237961585248416791740711299798528337207213267620442227167176518014083267203021933/29576565448465827708336082860986372593923979893152109750712919334817243791610488006979440462968907146347416848697123072000000";

/// `2^1023 - 1`.
const MOST: &str =
    "89884656743115795386465259539451236680898848947115328636715040578866337902750481566354238661203768010560056939935696678829394884407208311246423715319737062188883946712432742638151109800623047059726541476042502884419075341171231440736956555270413618581675255342293149119973622969239858152417678164812112068607/1";
