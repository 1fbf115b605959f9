//! `exact_flows`: flows of a triangle that are worked by hand. Of 1 that goes from bus 1 to bus 0, three quarters take the side between
//! them, and the rest goes round by bus 2, over two branches by their susceptances.

ghost use Rattle.std.specs.Prelude.{IfSome, pos};
ghost use Rattle.fraction_theory.specs.Fraction.{whole};
ghost use Rattle.fraction_theory.specs.Order.{◌<ℚ◌};

use exact_flows::{Line, exact_flows};
use exact_fraction::{Exact, Frac};
use plain_list::List;
use std::alloc::Global;
use std::cmp::Ordering;

/// So many thirds, where they are above 0.
fn thirds<N: Exact>(count: u8) -> Option<N>
    ensures { IfSome result (λ number. whole (pos 0) <ℚ N.value number) }
{
    let zero = N::of_parts(0, 1);
    let number = N::of_parts(i64::from(count), 3);
    match zero.order(number) {
        Ordering::Less => Some(number),
        Ordering::Equal | Ordering::Greater => None,
    }
}

/// The flows of the triangle.
fn triangle(alloc: Global) -> Option<List<Frac>> {
    let side = thirds(10)?;
    let first = thirds(2)?;
    let second = thirds(3)?;
    let lines = [
        Line {
            from: 0,
            to: 1,
            susceptance: side,
        },
        Line {
            from: 0,
            to: 2,
            susceptance: side,
        },
        Line {
            from: 1,
            to: 2,
            susceptance: first,
        },
        Line {
            from: 2,
            to: 1,
            susceptance: second,
        },
    ];
    exact_flows(alloc, 3, 0, &lines).ok()
}

/// So many twentieths each, by branch, and for each by the bus of the 1.
const TWENTIETHS: [i8; 12] = [0, -15, -5, 0, -5, -15, 0, 2, -2, 0, -3, 3];

/// Whether these are the flows of the triangle.
fn are(alloc: Global, twentieths: &[i8; 12]) -> bool {
    let Some(flows) = triangle(alloc) else {
        return false;
    };
    if flows.len() != 12 {
        return false;
    }
    for k in 0..12 {
        let wanted = Frac::of_parts(i64::from(twentieths[k]), 20);
        if flows.at(k).order(wanted) != Ordering::Equal {
            return false;
        }
    }
    true
}

#[test]
fn flows_divide(rt: HostRuntime) {
    assert!(rt; are(rt.alloc(), &TWENTIETHS));
}
