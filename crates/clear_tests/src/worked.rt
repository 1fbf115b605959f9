//! The market of the tests: two units that sell 100 MW each at buses 1 and 2 for 10 and 30, a load of 50 and a shunt of 10 at bus 3, and
//! branch 2 with a limit of 40 in the base and one after the loss of branch 1, all of whose flow goes over to it, that is far off. The
//! limit in the base may give way.

ghost use Rattle.std.specs.Prelude.{◌≡◌, pos, [], ◌∷◌, None, Some, IfOk};
ghost use Rattle.market_model.specs.Lines.{hard_line, IsPenalty};
ghost use Rattle.offer_book.specs.Edits.{number_of};
ghost use Rattle.clear_tests.specs.Worked.{participants};

use clear_loop::Clearer;
use exact_fraction::Exact;
use market_data::{MW_ONE, PRICE_ONE};
use market_model::{
    Answer, Block, Bus, Factor, Line, List, Market, Memory, Parts, Price, RowId, Side, Unit,
    assemble,
};
use offer_book::Edit;
use std::alloc::Global;
use std::cmp::Ordering;

const BUSES: [Bus; 3] = [
    Bus {
        number: 1,
        pd: 0,
        gs: 0,
    },
    Bus {
        number: 2,
        pd: 0,
        gs: 0,
    },
    Bus {
        number: 3,
        pd: 50_000_000_000,
        gs: 10_000_000_000,
    },
];

const UNITS: [Unit; 2] = [
    Unit {
        row: 1,
        bus: 0,
        fixed: 0,
        up: 100_000_000_000,
        down: 0,
    },
    Unit {
        row: 2,
        bus: 1,
        fixed: 0,
        up: 100_000_000_000,
        down: 0,
    },
];

const BLOCKS: [Block; 2] = [
    Block {
        unit: 0,
        side: Side::Sell,
        quantity: 100_000_000_000,
        price: 10_000_000,
    },
    Block {
        unit: 1,
        side: Side::Sell,
        quantity: 100_000_000_000,
        price: 30_000_000,
    },
];

const FIRST_LINE: Line = Line {
    row: 1,
    base: None,
    post: None,
    base_price: 0,
    base_excess: 0,
    post_price: 0,
    post_excess: 0,
    offset: 0,
};

const THIRD_LINE: Line = Line {
    row: 3,
    base: None,
    post: None,
    base_price: 0,
    base_excess: 0,
    post_price: 0,
    post_excess: 0,
    offset: 0,
};

const SHIFT: [Factor; 4] = [
    Factor {
        line: 0,
        of: 1,
        value: -500_000_000,
    },
    Factor {
        line: 0,
        of: 2,
        value: -250_000_000,
    },
    Factor {
        line: 1,
        of: 1,
        value: -500_000_000,
    },
    Factor {
        line: 1,
        of: 2,
        value: -750_000_000,
    },
];

const LOSS: [Factor; 1] = [Factor {
    line: 1,
    of: 0,
    value: 1_000_000_000,
}];

/// A list of these.
pub(crate) fn listed<T: Copy>(alloc: Global, items: &[T]) -> Result<List<T>, Memory>
    ensures { IfOk result (λ list. list ≡ items.now) }
{
    let mut list = List::new(alloc);
    for item in items {
        list.push(*item)?;
    }
    Ok(list)
}

/// The branches, where the limit of branch 2 in the base may be exceeded by so much at a price.
fn lines(alloc: Global, price: i64, excess: i64) -> Result<List<Line>, Memory>
    ensures { IfOk result (λ lines. lines ≡ hard_line 1 None None (pos 0)
        ∷ record (hard_line 2 (Some (pos 40000000000)) (Some (pos 1000000000000)) (pos 0)) { base_price = price; base_excess = excess }
        ∷ hard_line 3 None None (pos 0) ∷ []) }
{
    let second = Line {
        row: 2,
        base: Some(40_000_000_000),
        post: Some(1_000_000_000_000),
        base_price: price,
        base_excess: excess,
        post_price: 0,
        post_excess: 0,
        offset: 0,
    };
    listed(alloc, &[FIRST_LINE, second, THIRD_LINE])
}

/// The buses, units and blocks of the market, which has nothing else yet.
fn participants(alloc: Global) -> Result<Parts, Memory>
    ensures { IfOk result (λ parts. parts ≡ participants) }
{
    let buses = listed(alloc, &BUSES)?;
    let units = listed(alloc, &UNITS)?;
    let blocks = listed(alloc, &BLOCKS)?;
    Ok(Parts::bare(alloc, buses, units, blocks))
}

/// The market with these branches.
pub(crate) fn soft(alloc: Global, price: i64, excess: i64) -> Result<Market, Memory>
    requires { IsPenalty price excess }
{
    let lines = lines(alloc, price, excess)?;
    let outages = listed(alloc, &[1])?;
    let shift = listed(alloc, &SHIFT)?;
    let loss = listed(alloc, &LOSS)?;
    let mut parts = participants(alloc)?;
    parts.lines = lines;
    parts.outages = outages;
    parts.shift = shift;
    parts.loss = loss;
    assemble(alloc, parts)
}

/// The market, whose limits are hard.
pub(crate) fn limited(alloc: Global) -> Result<Market, Memory> {
    soft(alloc, 0, 0)
}

/// A new limit of branch 2, in the base or after the outage.
pub(crate) fn limit(post: bool, mw: i64) -> Edit
    ensures { number_of result ≡ mw }
{
    Edit::Limit {
        branch: 2,
        post,
        mw,
    }
}

/// Whether numbers are so many units of this size.
pub(crate) fn are<N: Exact>(values: &[N], wanted: &[i32], unit: i64) -> bool {
    for (value, whole) in values.iter().zip(wanted) {
        match i64::from(*whole).checked_mul(unit) {
            Some(number)
                if number > i64::MIN && value.order(N::of_parts(number, 1)) == Ordering::Equal => {}
            _ => return false,
        }
    }
    values.len() == wanted.len()
}

/// Whether prices are the 10 of energy with these of congestion, and these together.
pub(crate) fn are_prices<N: Exact>(
    prices: &[Price<N>],
    congestion: &[i32],
    totals: &[i32],
) -> bool {
    match prices {
        [one, two, three] => {
            are(
                &[one.energy, two.energy, three.energy],
                &[10, 10, 10],
                PRICE_ONE,
            ) && are(
                &[one.congestion, two.congestion, three.congestion],
                congestion,
                PRICE_ONE,
            ) && are(&[one.total, two.total, three.total], totals, PRICE_ONE)
        }
        _ => false,
    }
}

/// Whether an answer has these MW of its blocks and these prices.
pub(crate) fn is_answer<N: Exact>(
    answer: &Answer<N>,
    mw: &[i32],
    congestion: &[i32],
    totals: &[i32],
) -> bool {
    are(answer.dispatch.slice(), mw, MW_ONE)
        && are_prices(answer.prices.slice(), congestion, totals)
}

/// Whether the limit of branch 2 alone is taken, in the base or after an outage.
pub(crate) fn has_taken<N: Exact>(clearer: &Clearer<N>, outage: u32) -> bool {
    clearer.taken() == 1
        && clearer.taken_row(0)
            == RowId {
                branch: 2,
                outage,
                unit: 0,
            }
}
