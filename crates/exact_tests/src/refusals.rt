//! Systems that posing or running refuses, each with its two numbers as worked by hand.
ghost use Rattle.std.specs.Prelude.{◌≡◌, IfOk, false, length};

use crate::method::between;
use exact_fraction::{Exact, Frac63, Op, Passed};
use linear_dict::Dict;
use simplex_core::{Posed, Run, pose};
use std::alloc::Global;
use std::cmp::Ordering;
use std::process::Abort;

/// Columns 1 and 2, and row 3 of these entries over them, with the low and the high bound of each.
#[derive(Clone, Copy)]
struct System {
    entries: (Frac63, Frac63),
    prices: (Frac63, Frac63),
    first: (Frac63, Frac63),
    second: (Frac63, Frac63),
    row: (Frac63, Frac63),
}

/// The dictionary of a system.
fn dictionary(rt: &impl Abort, alloc: Global, system: &System) -> Dict<Frac63>
    ensures live { result.spent ≡ false }
    ensures columns { length result.columns ≡ 2 }
    ensures rows { length result.rows ≡ 1 }
{
    let entries = [system.entries.0, system.entries.1];
    Dict::start(alloc, &[1, 2], 3, &entries).expect(rt, "memory")
}

/// The dictionary with the prices and bounds of a system, or why not.
fn posed(dict: Dict<Frac63>, system: &System) -> Result<Posed<Frac63>, Passed<Frac63>>
    requires live { dict.spent ≡ false }
    requires columns { length dict.columns ≡ 2 }
    requires rows { length dict.rows ≡ 1 }
    ensures columns { IfOk result (λ posed. posed.columns ≡ dict.columns) }
    ensures rows { IfOk result (λ posed. posed.rows ≡ dict.rows) }
{
    let prices = [system.prices.0, system.prices.1];
    let bounds = [
        between(system.first.0, system.first.1),
        between(system.second.0, system.second.1),
        between(system.row.0, system.row.1),
    ];
    pose(dict, &prices, &bounds)
}

/// The dictionary of a system after a run that solves it.
fn turned(rt: &impl Abort, alloc: Global, system: &System) -> Dict<Frac63>
    ensures live { result.spent ≡ false }
    ensures columns { length result.columns ≡ 2 }
    ensures rows { length result.rows ≡ 1 }
{
    let dict = dictionary(rt, alloc, system);
    match posed(dict, system).expect(rt, "no refusal").run() {
        Run::Solved(solved) => solved.into_dict(),
        _ => panic!(rt; "solved"),
    }
}

/// How a run ends, or the refusal of posing.
fn run(dict: Dict<Frac63>, system: &System) -> Run<Frac63>
    requires live { dict.spent ≡ false }
    requires columns { length dict.columns ≡ 2 }
    requires rows { length dict.rows ≡ 1 }
{
    match posed(dict, system) {
        Ok(posed) => posed.run(),
        Err(passed) => Run::Passed(passed),
    }
}

/// Whether a run is refused, by this operation and these sides.
fn names_pair(run: &Run<Frac63>, pair: (Op, Frac63, Frac63)) -> bool {
    match run {
        Run::Passed(passed) => {
            passed.op == pair.0
                && passed.left.order(pair.1) == Ordering::Equal
                && passed.right.order(pair.2) == Ordering::Equal
        }
        _ => false,
    }
}

/// A system is refused by these two numbers.
fn refused(rt: &impl Abort, alloc: Global, system: &System, pair: (Op, Frac63, Frac63)) {
    let end = run(dictionary(rt, alloc, system), system);
    assert!(rt; names_pair(&end, pair));
}

/// The numbers that the systems are made of: `big` is 2^62, of which twice passes 63 bits.
#[derive(Clone, Copy)]
struct Numbers {
    zero: Frac63,
    half: Frac63,
    one: Frac63,
    two: Frac63,
    big: Frac63,
}

fn worked_numbers() -> Numbers {
    Numbers {
        zero: Frac63::of_parts(0, 1),
        half: Frac63::of_parts(1, 2),
        one: Frac63::of_parts(1, 1),
        two: Frac63::of_parts(2, 1),
        big: Frac63::of_parts(1 << 62, 1),
    }
}

/// A row of these entries that is to be 1, over a column from 0 to 2 and one that is 0.
fn to_one(by: &Numbers, entries: (Frac63, Frac63)) -> System {
    System {
        entries,
        prices: (by.zero, by.zero),
        first: (by.zero, by.two),
        second: (by.zero, by.zero),
        row: (by.one, by.one),
    }
}

/// Posing, in the value of the row: 2 times the bound `big`, and of the terms 1/2 and `big` the sum.
fn in_values(rt: &impl Abort, alloc: Global, by: &Numbers) {
    let product = System {
        first: (by.big, by.big),
        ..to_one(by, (by.two, by.zero))
    };
    refused(rt, alloc, &product, (Op::Times, by.two, by.big));
    let sum = System {
        first: (by.half, by.half),
        second: (by.big, by.big),
        ..to_one(by, (by.one, by.one))
    };
    refused(rt, alloc, &sum, (Op::Plus, by.half, by.big));
}

/// Posing again where x = y - z, at the prices 1/2 and `-big`, in the reduced price of z: the sum of -1/2 and `-big`.
fn in_prices(rt: &impl Abort, alloc: Global, by: &Numbers) {
    let system = to_one(by, (by.one, by.one));
    let again = System {
        prices: (by.half, by.big.neg()),
        ..system
    };
    let end = run(turned(rt, alloc, &system), &again);
    assert!(rt; names_pair(&end, (Op::Plus, by.half.neg(), by.big.neg())));
}

/// Running: y, which stands at `-big`, is to go to `big`. And in the ratio test the later column's price, `-big`, is divided by its
/// entry 1/2.
fn in_steps(rt: &impl Abort, alloc: Global, by: &Numbers) {
    let far = System {
        first: (by.big.neg(), by.big.neg()),
        second: (by.zero, by.one),
        row: (by.big, by.big),
        ..to_one(by, (by.one, by.one))
    };
    refused(rt, alloc, &far, (Op::Minus, by.big, by.big.neg()));
    let ratio = System {
        prices: (by.one.neg(), by.big.neg()),
        second: (by.zero, by.two),
        ..to_one(by, (by.one, by.half))
    };
    refused(rt, alloc, &ratio, (Op::Times, by.big, by.two));
}

#[test]
fn refused_by_these_numbers(rt: HostRuntime) {
    let by = worked_numbers();
    in_values(&rt, rt.alloc(), &by);
    in_prices(&rt, rt.alloc(), &by);
    in_steps(&rt, rt.alloc(), &by);
}
