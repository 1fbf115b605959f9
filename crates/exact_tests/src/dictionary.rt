//! Worked dictionaries at both types, and each call once on its happy path.
ghost use Rattle.std.specs.Prelude.{◌≡◌, length};
ghost use Rattle.std.specs.Option.{IfSome};

use exact_fraction::{Exact, Frac, Frac63, Op, Passed, Sign};
use linear_dict::{AddStop, Dict, Note, Place};
use one_point::leaves_one_point;
use std::alloc::Global;
use std::cmp::Ordering;
use std::process::Abort;

/// Two entries.
fn pair<N: Exact>(alloc: Global, entries: (N, N)) -> Option<Vec<N>>
    ensures { IfSome result (λ list. length list.items ≡ 2) }
{
    let mut list = Vec::new(alloc);
    list.push(entries.0).ok()?;
    list.push(entries.1).ok()?;
    Some(list)
}

/// A dictionary of two columns, where the three names differ.
fn two<N: Exact>(alloc: Global, names: [u32; 2], row: u32, first: N, second: N) -> Option<Dict<N>> {
    if names[0] == names[1] || names[0] == row || names[1] == row {
        return None;
    }
    let entries = pair(alloc, (first, second))?;
    Dict::start(alloc, &names, row, &entries).ok()
}

/// Whether the entry at two places is `num/den`.
fn is_entry<N: Exact>(dict: &Dict<N>, r: usize, c: usize, value: N) -> bool {
    if dict.spent() {
        return false;
    }
    r < dict.row_count()
        && c < dict.column_count()
        && dict.entry(r, c).order(value) == Ordering::Equal
}

/// What a pivot answers, where there is one.
fn pivot_at<N: Exact>(dict: &mut Dict<N>, r: usize, c: usize) -> Option<Result<(), Passed<N>>> {
    if dict.spent() {
        return None;
    }
    if r >= dict.row_count() || c >= dict.column_count() {
        return None;
    }
    match dict.entry(r, c).sign() {
        Sign::Zero => None,
        _ => Some(dict.pivot(r, c)),
    }
}

/// A pivot where there is one, and whether it was taken.
fn pivoted<N: Exact>(dict: &mut Dict<N>, r: usize, c: usize) -> bool {
    matches!(pivot_at(dict, r, c), Some(Ok(())))
}

/// Whether the names at two places are these.
fn are_names<N: Exact>(dict: &Dict<N>, r: usize, basic: u32, c: usize, other: u32) -> bool {
    if dict.spent() {
        return false;
    }
    r < dict.row_count()
        && c < dict.column_count()
        && dict.basics(r) == basic
        && dict.others(c) == other
}

/// y = 2x - 3z, solved for x and back.
fn there_and_back<N: Exact>(rt: &impl Abort, alloc: Global) {
    let (first, second) = (N::of_parts(2, 1), N::of_parts(-3, 1));
    let mut dict = two(alloc, [7, 3], 5, first, second).expect(rt, "memory");
    assert!(rt; are_names(&dict, 0, 5, 1, 3));
    assert!(rt; pivoted(&mut dict, 0, 0));
    assert!(rt; are_names(&dict, 0, 7, 0, 5));
    assert!(rt;
        is_entry(&dict, 0, 0, N::of_parts(1, 2)) && is_entry(&dict, 0, 1, N::of_parts(3, 2))
    );
    assert!(rt; pivoted(&mut dict, 0, 0));
    assert!(rt; are_names(&dict, 0, 5, 0, 7));
    assert!(rt;
        is_entry(&dict, 0, 0, N::of_parts(2, 1)) && is_entry(&dict, 0, 1, N::of_parts(-3, 1))
    );
}

/// y = first x + second z, solved for x, and then a row more, third x + fourth z. With what adding it answers.
fn then_added<N: Exact>(
    alloc: Global,
    names: [u32; 2],
    rows: [u32; 2],
    first: (N, N),
    second: (N, N),
) -> Option<(Dict<N>, Result<(), AddStop<N>>)> {
    if names[0] == names[1] || names[0] == rows[0] || names[1] == rows[0] {
        return None;
    }
    if rows[1] == rows[0] || rows[1] == names[0] || rows[1] == names[1] {
        return None;
    }
    let entries = pair(alloc, first)?;
    let more = pair(alloc, second)?;
    let mut dict = match Dict::start(alloc, &names, rows[0], &entries) {
        Ok(dict) => dict,
        Err(_) => return None,
    };
    match dict.entry(0, 0).sign() {
        Sign::Zero => return None,
        _ => {}
    }
    match dict.pivot(0, 0) {
        Ok(()) => {}
        Err(_) => return None,
    }
    let added = dict.add_row(rows[1], &more);
    Some((dict, added))
}

/// x = y/2 + 3z/2, and with it 4x + 5z = 2y + 11z; the first row again is y.
fn more_rows<N: Exact>(rt: &impl Abort, alloc: Global) {
    let first = (N::of_parts(2, 1), N::of_parts(-3, 1));
    let (dict, added) = then_added(
        alloc,
        [7, 3],
        [5, 6],
        first,
        (N::of_parts(4, 1), N::of_parts(5, 1)),
    )
    .expect(rt, "memory");
    assert!(rt; added.is_ok() && are_names(&dict, 1, 6, 1, 3));
    assert!(rt;
        is_entry(&dict, 1, 0, N::of_parts(2, 1)) && is_entry(&dict, 1, 1, N::of_parts(11, 1))
    );
    assert!(rt;
        is_entry(&dict, 0, 0, N::of_parts(1, 2)) && is_entry(&dict, 0, 1, N::of_parts(3, 2))
    );
    let (dict, added) = then_added(alloc, [7, 3], [5, 4], first, first).expect(rt, "memory");
    assert!(rt;
        added.is_ok()
            && is_entry(&dict, 1, 0, N::of_parts(1, 1))
            && is_entry(&dict, 1, 1, N::of_parts(0, 1))
    );
}

/// y = first x + second z, with a column w more, and a row of x, z and w.
fn with_column<N: Exact>(alloc: Global, first: (N, N), second: (N, N), last: N) -> Option<Dict<N>> {
    let entries = pair(alloc, first)?;
    let mut more = pair(alloc, second)?;
    more.push(last).ok()?;
    let mut dict = match Dict::start(alloc, &[7, 3], 8, &entries) {
        Ok(dict) => dict,
        Err(_) => return None,
    };
    match dict.add_column(9) {
        Ok(()) => {}
        Err(_) => return None,
    }
    match dict.add_row(10, &more) {
        Ok(()) => Some(dict),
        Err(_) => None,
    }
}

/// y = 2x - 3z, and then 4x + 5z + 2w, solved for w as a half of it - 2x - 5z/2; and then for x = y/2 + 3z/2, with which w is
/// a half of it - y - 11z/2.
fn columns_more<N: Exact>(rt: &impl Abort, alloc: Global) {
    let first = (N::of_parts(2, 1), N::of_parts(-3, 1));
    let second = (N::of_parts(4, 1), N::of_parts(5, 1));
    let mut dict = with_column(alloc, first, second, N::of_parts(2, 1)).expect(rt, "memory");
    let (zero, half) = (N::of_parts(0, 1), N::of_parts(1, 2));
    assert!(rt; are_names(&dict, 0, 8, 2, 9) && are_names(&dict, 1, 10, 2, 9));
    assert!(rt; is_entry(&dict, 0, 1, first.1) && is_entry(&dict, 0, 2, zero));
    assert!(rt; is_entry(&dict, 1, 0, second.0) && is_entry(&dict, 1, 2, N::of_parts(2, 1)));
    assert!(rt; pivoted(&mut dict, 1, 2) && are_names(&dict, 1, 9, 2, 10));
    assert!(rt; is_entry(&dict, 0, 0, first.0) && is_entry(&dict, 0, 2, zero));
    assert!(rt; is_entry(&dict, 1, 0, N::of_parts(-2, 1)) && is_entry(&dict, 1, 2, half));
    assert!(rt; pivoted(&mut dict, 0, 0) && are_names(&dict, 0, 7, 0, 8));
    assert!(rt; is_entry(&dict, 0, 1, N::of_parts(3, 2)) && is_entry(&dict, 0, 2, zero));
    assert!(rt; is_entry(&dict, 1, 0, N::of_parts(-1, 1)) && is_entry(&dict, 1, 2, half));
    assert!(rt; is_entry(&dict, 1, 1, N::of_parts(-11, 2)));
}

/// 2^62 in 63 bits: twice it passes.
fn big_63() -> Frac63 {
    Frac63::of_parts(1 << 62, 1)
}

/// 2^126 in 127 bits: twice it passes.
fn big_127(rt: &impl Abort) -> Frac {
    let part = Frac::of_parts(1 << 42, 1);
    let product = part.times(part).expect(rt, "within 127 bits");
    product.times(part).expect(rt, "within 127 bits")
}

/// Whether a refusal names this operation with these sides.
fn names_pair<N: Exact>(passed: &Passed<N>, op: Op, left: N, right: N) -> bool {
    passed.op == op
        && passed.left.order(left) == Ordering::Equal
        && passed.right.order(right) == Ordering::Equal
}

/// y = first x + second z, solved for x: the row third x + fourth z is refused with these two numbers, and not there.
fn refuses_row<N: Exact>(
    rt: &impl Abort,
    alloc: Global,
    first: (N, N),
    second: (N, N),
    pair: (Op, N, N),
) {
    let (dict, added) = then_added(alloc, [7, 3], [5, 6], first, second).expect(rt, "memory");
    match added {
        Err(AddStop::Passed(passed)) => {
            assert!(rt; names_pair(&passed, pair.0, pair.1, pair.2));
        }
        _ => assert!(rt; false),
    }
    assert!(rt; are_names(&dict, 0, 7, 0, 5) && !are_names(&dict, 1, 6, 0, 5));
}

/// x = 2y, and so `big` x has the entry `big` times 2. And x = y + `big` z, so x + z/2 has the sum of 1/2, of z itself, and
/// `big`: by the names z comes first.
fn refused_rows<N: Exact>(rt: &impl Abort, alloc: Global, big: N) {
    let (zero, half) = (N::of_parts(0, 1), N::of_parts(1, 2));
    let (one, two) = (N::of_parts(1, 1), N::of_parts(2, 1));
    let product = (Op::Times, big, two);
    refuses_row(rt, alloc, (half, zero), (big, zero), product);
    let sum = (Op::Plus, half, big);
    refuses_row(rt, alloc, (one, big.neg()), (one, half), sum);
}

/// Rows 8 and 9 over columns 7 and 3.
fn two_rows<N: Exact>(alloc: Global, first: (N, N), second: (N, N)) -> Option<Dict<N>> {
    let entries = pair(alloc, first)?;
    let more = pair(alloc, second)?;
    let mut dict = match Dict::start(alloc, &[7, 3], 8, &entries) {
        Ok(dict) => dict,
        Err(_) => return None,
    };
    match dict.add_row(9, &more) {
        Ok(()) => Some(dict),
        Err(_) => None,
    }
}

/// Whether what row 9 over columns 7 and 3 is, and what column 7 is where that is known, leave one point.
fn leaves_one<N: Exact>(rt: &impl Abort, alloc: Global, row: (N, N), is_known: bool) -> bool {
    let one = N::of_parts(1, 1);
    let mut dict = two_rows(alloc, (one, one), row).expect(rt, "memory");
    if dict.spent() {
        return false;
    }
    let mut known = [is_known, false];
    dict.column_count() == known.len() && leaves_one_point(&mut dict, &mut known)
}

/// One of two columns has to be known, and the other one has to be in the row.
fn one_point<N: Exact>(rt: &impl Abort, alloc: Global) {
    let (zero, one, two) = (N::of_parts(0, 1), N::of_parts(1, 1), N::of_parts(2, 1));
    assert!(rt; leaves_one(rt, alloc, (one, two), true));
    assert!(rt; leaves_one(rt, alloc, (zero, two), true));
    assert!(rt; !leaves_one(rt, alloc, (one, two), false));
    assert!(rt; !leaves_one(rt, alloc, (one, zero), true));
}

/// Two rows over x and z: solving the first for x is refused with these two numbers, and the dictionary is spent.
fn refuses_pivot<N: Exact>(
    rt: &impl Abort,
    alloc: Global,
    first: (N, N),
    second: (N, N),
    pair: (Op, N, N),
) {
    let mut dict = two_rows(alloc, first, second).expect(rt, "memory");
    match pivot_at(&mut dict, 0, 0) {
        Some(Err(passed)) => assert!(rt; names_pair(&passed, pair.0, pair.1, pair.2)),
        _ => assert!(rt; false),
    }
    assert!(rt; dict.spent());
}

/// In the row itself, y = x/2 + `big` z: the entry at z, turned, times the inverse of that at x.
fn refused_in_the_row<N: Exact>(rt: &impl Abort, alloc: Global, big: N) {
    let (zero, half) = (N::of_parts(0, 1), N::of_parts(1, 2));
    let pair = (Op::Times, big.neg(), N::of_parts(2, 1));
    refuses_pivot(rt, alloc, (half, big), (zero, zero), pair);
}

/// In another row: `big` x after x = 2y - 2z and after x = 2y, at z and at y, and x - z/2 after x = y - `big` z.
fn refused_in_another<N: Exact>(rt: &impl Abort, alloc: Global, big: N) {
    let (zero, half) = (N::of_parts(0, 1), N::of_parts(1, 2));
    let (one, two) = (N::of_parts(1, 1), N::of_parts(2, 1));
    let at_other = (Op::Times, big, two.neg());
    refuses_pivot(rt, alloc, (half, one), (big, zero), at_other);
    let at_leaving = (Op::Times, big, two);
    refuses_pivot(rt, alloc, (half, zero), (big, zero), at_leaving);
    let sum = (Op::Plus, half.neg(), big.neg());
    refuses_pivot(rt, alloc, (one, big), (one, half.neg()), sum);
}

/// The place of the least name, by the name and by its rank.
fn least_place<N: Exact>(dict: &Dict<N>) -> Option<Place> {
    if dict.spent() {
        return None;
    }
    if dict.name_count() == 0 {
        return None;
    }
    let name = dict.ranked(0);
    let place = dict.place(name);
    if dict.rank_of(name) == 0 && dict.place_at(0) == place {
        Some(place)
    } else {
        None
    }
}

/// Notes a value of the least name, and a bound of its rank, and reads them.
fn least_noted<N: Exact>(dict: &mut Dict<N>, value: N, at_high: bool) -> bool {
    if dict.spent() {
        return false;
    }
    if dict.name_count() == 0 {
        return false;
    }
    let name = dict.ranked(0);
    let note = Note {
        value,
        ..dict.note(name)
    };
    dict.set_note(name, note);
    let note = Note {
        at_high,
        ..dict.note_at(0)
    };
    dict.set_note_at(0, note);
    let read = dict.note_at(0);
    read.value.order(value) == Ordering::Equal
        && read.at_high == at_high
        && read.price.sign() == Sign::Zero
}

/// Names, places and notes.
fn names<N: Exact>(rt: &impl Abort, alloc: Global) {
    let (first, second) = (N::of_parts(2, 1), N::of_parts(-3, 1));
    let mut dict = two(alloc, [7, 3], 5, first, second).expect(rt, "memory");
    assert!(rt; least_place(&dict) == Some(Place::Column(1)));
    assert!(rt; pivoted(&mut dict, 0, 1));
    assert!(rt; least_place(&dict) == Some(Place::Row(0)));
    assert!(rt; least_noted(&mut dict, N::of_parts(1, 3), true));
}

#[test]
fn pivots_there_and_back(rt: HostRuntime) {
    there_and_back::<Frac>(&rt, rt.alloc());
    there_and_back::<Frac63>(&rt, rt.alloc());
}

#[test]
fn adds_rows(rt: HostRuntime) {
    more_rows::<Frac>(&rt, rt.alloc());
    more_rows::<Frac63>(&rt, rt.alloc());
}

#[test]
fn adds_columns(rt: HostRuntime) {
    columns_more::<Frac>(&rt, rt.alloc());
    columns_more::<Frac63>(&rt, rt.alloc());
}

#[test]
fn names_places_and_notes(rt: HostRuntime) {
    names::<Frac>(&rt, rt.alloc());
    names::<Frac63>(&rt, rt.alloc());
}

#[test]
fn one_point_is_told(rt: HostRuntime) {
    one_point::<Frac>(&rt, rt.alloc());
    one_point::<Frac63>(&rt, rt.alloc());
}

#[test]
fn a_refused_row_names_two_numbers(rt: HostRuntime) {
    refused_rows(&rt, rt.alloc(), big_63());
    refused_rows(&rt, rt.alloc(), big_127(&rt));
}

#[test]
fn a_refused_pivot_names_two_numbers(rt: HostRuntime) {
    refused_in_the_row(&rt, rt.alloc(), big_63());
    refused_in_the_row(&rt, rt.alloc(), big_127(&rt));
    refused_in_another(&rt, rt.alloc(), big_63());
    refused_in_another(&rt, rt.alloc(), big_127(&rt));
}
