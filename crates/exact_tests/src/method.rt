//! Worked systems at both types of numbers, each call once on its happy path.
ghost use Rattle.std.specs.Prelude.{◌≡◌, ◌<◌, IfOk, false, length, [], ◌∷◌, ◌++◌};
ghost use Rattle.std.specs.List.{Contains};
ghost use Rattle.fraction_theory.specs.Order.{◌≤ℚ◌};
ghost use Rattle.linear_dict.specs.Dictionaries.{IsDictionary};

use exact_fraction::{Exact, Frac, Frac63, Passed};
use linear_dict::Dict;
use simplex_core::{Bounds, Posed, Run, Solved, pose};
use std::alloc::Global;
use std::cmp::Ordering;
use std::process::Abort;

/// `num/den`, or 0 where no fraction is made of these.
fn fraction<N: Exact>(num: i64, den: u64) -> N {
    if num > i64::MIN && den > 0 && den < 1 << 63 {
        N::of_parts(num, den)
    } else {
        N::of_parts(0, 1)
    }
}

/// From the one to the other, or the first alone where they are turned.
pub(crate) fn between<N: Exact>(low: N, high: N) -> Bounds<N>
    ensures { N.value result.low ≤ℚ N.value result.high }
{
    match low.order(high) {
        Ordering::Greater => Bounds { low, high: low },
        Ordering::Less | Ordering::Equal => Bounds { low, high },
    }
}

/// Whether the value of a variable is this.
fn has_value<N: Exact>(solved: &Solved<N>, name: u32, value: N) -> bool
    requires { Contains solved.now.names name }
{
    solved.value(name).order(value) == Ordering::Equal
}

/// Whether the reduced price of a variable is this.
fn has_reduced<N: Exact>(solved: &Solved<N>, name: u32, price: N) -> bool
    requires { Contains solved.now.names name }
{
    solved.reduced(name).order(price) == Ordering::Equal
}

/// Columns 1 and 2 from 0 to 100 at prices -10 and -30, and a row of their sum that is to be this.
fn posed_63(rt: &impl Abort, dict: Dict<Frac63>, sum: i64) -> Posed<Frac63>
    requires live { dict.spent ≡ false }
    requires columns { length dict.columns ≡ 2 }
    requires rows { length dict.rows ≡ 1 }
    ensures columns { result.columns ≡ dict.columns }
    ensures rows { result.rows ≡ dict.rows }
{
    let prices = [fraction(-10, 1), fraction(-30, 1)];
    let column = between(fraction(0, 1), fraction(100, 1));
    let row = between(fraction(sum, 1), fraction(sum, 1));
    let bounds = [column, column, row];
    pose(dict, &prices, &bounds).expect(rt, "no refusal")
}

/// At 60 the values 60 and 0 are best, and the price of column 2 is 20 too low.
fn solved_63(rt: &impl Abort, posed: Posed<Frac63>)
    requires { posed.columns ≡ 1 ∷ 2 ∷ [] }
{
    match posed.run() {
        Run::Solved(solved) => {
            assert!(rt; has_value(&solved, 1, fraction(60, 1)));
            assert!(rt; has_value(&solved, 2, fraction(0, 1)));
            assert!(rt; has_reduced(&solved, 2, fraction(-20, 1)));
            let dict = solved.into_dict();
            assert!(rt; !dict.spent());
            assert!(rt; dict.has_reduced_prices());
        }
        _ => assert!(rt; false),
    }
}

/// At 250 there is no point, and column 2, which is basic, is above its bound. The dictionary is posed again at 60.
fn two_columns_63(rt: &impl Abort, alloc: Global) {
    let one = fraction(1, 1);
    let dict = Dict::start(alloc, &[1, 2], 3, &[one, one]).expect(rt, "memory");
    match posed_63(rt, dict, 250).run() {
        Run::Empty { dict, row, above } => {
            assert!(rt; row == 0 && above);
            assert!(rt; !dict.has_reduced_prices());
            solved_63(rt, posed_63(rt, dict, 60));
        }
        _ => assert!(rt; false),
    }
}

/// Columns 1 and 2 from 0 to 100 at prices -10 and -30, and a row of their sum that is to be this.
fn posed_127(rt: &impl Abort, dict: Dict<Frac>, sum: i64) -> Posed<Frac>
    requires live { dict.spent ≡ false }
    requires columns { length dict.columns ≡ 2 }
    requires rows { length dict.rows ≡ 1 }
    ensures columns { result.columns ≡ dict.columns }
    ensures rows { result.rows ≡ dict.rows }
{
    let prices = [fraction(-10, 1), fraction(-30, 1)];
    let column = between(fraction(0, 1), fraction(100, 1));
    let row = between(fraction(sum, 1), fraction(sum, 1));
    let bounds = [column, column, row];
    pose(dict, &prices, &bounds).expect(rt, "no refusal")
}

/// At 60 the values 60 and 0 are best, and the price of column 2 is 20 too low.
fn solved_127(rt: &impl Abort, posed: Posed<Frac>)
    requires { posed.columns ≡ 1 ∷ 2 ∷ [] }
{
    match posed.run() {
        Run::Solved(solved) => {
            assert!(rt; has_value(&solved, 1, fraction(60, 1)));
            assert!(rt; has_value(&solved, 2, fraction(0, 1)));
            assert!(rt; has_reduced(&solved, 2, fraction(-20, 1)));
            let dict = solved.into_dict();
            assert!(rt; !dict.spent());
            assert!(rt; dict.has_reduced_prices());
        }
        _ => assert!(rt; false),
    }
}

fn two_columns_127(rt: &impl Abort, alloc: Global) {
    let one = fraction(1, 1);
    let dict = Dict::start(alloc, &[1, 2], 3, &[one, one]).expect(rt, "memory");
    solved_127(rt, posed_127(rt, dict, 60));
}

/// Columns 1, 2 and 3 and rows 4 to 7 over them, all numbers over one denominator, with the best values of the columns, or
/// none where there is no point.
struct Case {
    over: u64,
    rows: [[i64; 3]; 4],
    prices: [i64; 3],
    low: [i64; 7],
    high: [i64; 7],
    values: Option<[i64; 3]>,
}

/// The first is the dual of a system of E. Beale, on which the method comes back to where it was if the variable furthest out
/// of its bounds leaves. The others were made at random, with many ties, and solved by going over all their vertices.
const CASES: [Case; 3] = [
    Case {
        over: 100,
        rows: [[25, 50, 0], [-6000, -9000, 0], [-4, -2, 100], [900, 300, 0]],
        prices: [0, 0, -100],
        low: [0, 0, 0, 75, -15000, 2, -600],
        high: [10000, 10000, 10000, 100000, 100000, 100000, 200000],
        values: Some([0, 150, 5]),
    },
    Case {
        over: 2,
        rows: [[0, 4, 4], [4, -2, 4], [6, -2, 2], [-2, 6, -4]],
        prices: [4, 0, 0],
        low: [0, 0, 0, -2, -2, 0, 0],
        high: [8, 2, 0, 2, 6, 8, 0],
        values: Some([3, 1, 0]),
    },
    Case {
        over: 1,
        rows: [[1, 1, 1], [1, 1, -1], [3, -1, 0], [-2, 0, -2]],
        prices: [1, 2, 2],
        low: [0, 0, 0, 1, 0, 0, 0],
        high: [2, 2, 1, 3, 0, 0, 2],
        values: None,
    },
];

/// The bounds of a variable of a case.
fn limits<N: Exact>(case: &Case, k: usize) -> Bounds<N>
    requires { k < 7 }
    ensures { N.value result.low ≤ℚ N.value result.high }
{
    between(
        fraction(case.low[k], case.over),
        fraction(case.high[k], case.over),
    )
}

/// Three numbers over one.
fn triple(numbers: &[i64; 3], over: u64) -> [Frac63; 3] {
    [
        fraction(numbers[0], over),
        fraction(numbers[1], over),
        fraction(numbers[2], over),
    ]
}

/// A dictionary of columns 1, 2 and 3 and row 4.
fn started(rt: &impl Abort, alloc: Global, entries: &[Frac63; 3]) -> Dict<Frac63>
    ensures live { result.spent ≡ false }
    ensures columns { result.columns ≡ 1 ∷ 2 ∷ 3 ∷ [] }
    ensures rows { result.rows ≡ 4 ∷ [] }
    ensures sound { IsDictionary result }
{
    Dict::start(alloc, &[1, 2, 3], 4, entries).expect(rt, "memory")
}

/// Adds a row of three entries.
fn add(rt: &impl Abort, dict: &mut Dict<Frac63>, row: u32, entries: &[Frac63; 3])
    requires live { dict.old.spent ≡ false }
    requires absent { ¬ (Contains dict.old.names row) }
    requires columns { length dict.old.columns ≡ 3 }
    ensures live { dict.new.spent ≡ false }
    ensures columns { dict.new.columns ≡ dict.old.columns }
    ensures rows { dict.new.rows ≡ dict.old.rows ++ row ∷ [] }
    ensures sound { IsDictionary dict.new }
{
    dict.add_row(row, entries).expect(rt, "added");
}

/// A case's rows over its columns.
fn dictionary(rt: &impl Abort, alloc: Global, case: &Case) -> Dict<Frac63>
    ensures live { result.spent ≡ false }
    ensures columns { result.columns ≡ 1 ∷ 2 ∷ 3 ∷ [] }
    ensures rows { result.rows ≡ 4 ∷ 5 ∷ 6 ∷ 7 ∷ [] }
{
    let mut dict = started(rt, alloc, &triple(&case.rows[0], case.over));
    add(rt, &mut dict, 5, &triple(&case.rows[1], case.over));
    add(rt, &mut dict, 6, &triple(&case.rows[2], case.over));
    add(rt, &mut dict, 7, &triple(&case.rows[3], case.over));
    dict
}

/// A case, posed.
fn posed_case(rt: &impl Abort, dict: Dict<Frac63>, case: &Case) -> Posed<Frac63>
    requires live { dict.spent ≡ false }
    requires columns { length dict.columns ≡ 3 }
    requires rows { length dict.rows ≡ 4 }
    ensures { result.columns ≡ dict.columns }
{
    let prices = triple(&case.prices, case.over);
    let bounds = [
        limits(case, 0),
        limits(case, 1),
        limits(case, 2),
        limits(case, 3),
        limits(case, 4),
        limits(case, 5),
        limits(case, 6),
    ];
    pose(dict, &prices, &bounds).expect(rt, "no refusal")
}

fn ends(rt: &impl Abort, posed: Posed<Frac63>, case: &Case)
    requires { posed.columns ≡ 1 ∷ 2 ∷ 3 ∷ [] }
{
    match posed.run() {
        Run::Solved(solved) => match case.values {
            Some(numbers) => {
                let values = triple(&numbers, case.over);
                assert!(rt; has_value(&solved, 1, values[0]));
                assert!(rt; has_value(&solved, 2, values[1]));
                assert!(rt; has_value(&solved, 3, values[2]));
            }
            None => assert!(rt; false),
        },
        Run::Empty { .. } => assert!(rt; case.values.is_none()),
        Run::Passed(_) => assert!(rt; false),
    }
}

/// A number far off, one more than its opposite, and one more than it.
const FAR: i64 = 4_611_686_018_427_387_904;

const ABOVE_FAR_BELOW: i64 = -4_611_686_018_427_387_903;

const BEYOND_FAR: i64 = 4_611_686_018_427_387_905;

/// Columns 1, 2 and 3 that are T, from -T to 0, and T, with T = 2^62, of which twice passes 63 bits; row 4, column 2, is to be at
/// least 1 - T, and row 5, the sum of all columns, from 0 to 1 + T.
fn posed_far(dict: Dict<Frac63>) -> Result<Posed<Frac63>, Passed<Frac63>>
    requires live { dict.spent ≡ false }
    requires columns { length dict.columns ≡ 3 }
    requires rows { length dict.rows ≡ 2 }
    ensures columns { IfOk result (λ posed. posed.columns ≡ dict.columns) }
    ensures rows { IfOk result (λ posed. posed.rows ≡ dict.rows) }
{
    let zero: Frac63 = fraction(0, 1);
    let far: Frac63 = fraction(FAR, 1);
    let fixed = between(far, far);
    let bounds = [
        fixed,
        between(far.neg(), zero),
        fixed,
        between(fraction(ABOVE_FAR_BELOW, 1), zero),
        between(zero, fraction(BEYOND_FAR, 1)),
    ];
    let prices = [zero, zero, zero];
    pose(dict, &prices, &bounds)
}

/// Worked by hand. Column 2 stands at -T, so row 4 is 1 too low and row 5 is T, T, 0, T by its first terms. Row 4 rises by 1 and
/// column 2 with it, so row 5 moves by 1 from T to T + 1, which fits. But by its first terms it is now that of the columns 1 and 3
/// and of row 4, which are T, T and 1 - T: 2T passes. So a run that adds up the values of each turn is refused, as posing is.
fn moves(rt: &impl Abort, posed: Posed<Frac63>)
    requires columns { posed.columns ≡ 1 ∷ 2 ∷ 3 ∷ [] }
    requires rows { length posed.rows ≡ 2 }
{
    match posed.run() {
        Run::Solved(solved) => {
            assert!(rt; has_value(&solved, 2, fraction(1 - (1 << 62), 1)));
            assert!(rt; posed_far(solved.into_dict()).is_err());
        }
        _ => assert!(rt; false),
    }
}

#[test]
fn values_move_and_are_not_added_up(rt: HostRuntime) {
    let zero = fraction(0, 1);
    let one = fraction(1, 1);
    let mut dict = started(&rt, rt.alloc(), &[zero, one, zero]);
    add(&rt, &mut dict, 5, &[one, one, one]);
    moves(&rt, posed_far(dict).expect(&rt, "no refusal"));
}

#[test]
fn two_columns_and_a_row(rt: HostRuntime) {
    two_columns_63(&rt, rt.alloc());
    two_columns_127(&rt, rt.alloc());
}

#[test]
fn degenerate_systems(rt: HostRuntime) {
    for case in &CASES {
        let dict = dictionary(&rt, rt.alloc(), case);
        ends(&rt, posed_case(&rt, dict, case), case);
    }
}
