//! Rights over the triangle: branch 2 has a limit of 40, and of 45 after the loss of branch 1, whose flow goes over to it. MW are in 10^-9,
//! which is their last place, so that 5e-8 MW are 50.

ghost use Rattle.std.specs.Prelude.{◌≡◌, length, IfOk};

use crate::markets::{is, triangle};
use exact_fraction::{Exact, Frac, Frac63, Op, Passed};
use market_model::{List, Market, Memory, Price, RowId, Stop};
use record_reading::{FrameFault, Why};
use rights_test::{Fit, MOST_RIGHTS, Payments, RightsFault, fit, pay, rights};
use scaled_decimal::DecimalFault;
use std::alloc::Global;
use std::fmt::Debug;
use std::test::Fail;

/// The fit of a table of rights.
fn fit_on<N: Exact + Debug>(alloc: Global, market: &Market, table: &[u8]) -> Result<Fit<N>, Fail> {
    let rights = rights(alloc, market, table)?;
    Ok(fit(alloc, market, rights.slice())?)
}

/// The same in the triangle.
fn fit_of<N: Exact + Debug>(
    alloc: Global,
    has_outages: bool,
    table: &[u8],
) -> Result<Fit<N>, Fail> {
    let market = triangle(alloc, has_outages)?;
    fit_on(alloc, &market, table)
}

/// Whether all limits hold, or the one of branch 2 after the loss of this branch is broken with this flow; 0 is the base.
fn is_fit<N: Exact>(fit: Fit<N>, want: Option<(u32, i32)>) -> bool {
    match (fit, want) {
        (Fit::Fits, None) => true,
        (Fit::Breaks { row, flow }, Some((outage, wanted))) => {
            row == RowId {
                branch: 2,
                outage,
                unit: 0,
            } && is(flow, wanted, 1)
        }
        _ => false,
    }
}

/// What the rights of a table are paid at bus prices of 10, 30 and 40.
fn payments_on<N: Exact + Debug>(
    alloc: Global,
    market: &Market,
    table: &[u8],
) -> Result<Payments<N>, Fail>
    requires { length market.now.buses ≡ 3 }
{
    let prices = prices(alloc)?;
    let rights = rights(alloc, market, table)?;
    Ok(pay(alloc, rights.slice(), prices.slice())?)
}

/// The same in the triangle.
fn payments_of<N: Exact + Debug>(alloc: Global, table: &[u8]) -> Result<Payments<N>, Fail> {
    let market = triangle(alloc, false)?;
    payments_on(alloc, &market, table)
}

/// The bus prices.
fn prices<N: Exact>(alloc: Global) -> Result<List<Price<N>>, Memory>
    ensures { IfOk result (λ prices. length prices ≡ 3) }
{
    let mut prices = List::new(alloc);
    prices.push(price(10))?;
    prices.push(price(30))?;
    prices.push(price(40))?;
    Ok(prices)
}

/// A price of which 10 are of energy.
fn price<N: Exact>(total: i32) -> Price<N> {
    Price {
        energy: N::of_parts(10, 1),
        congestion: N::of_parts(i64::from(total) - 10, 1),
        total: N::of_parts(i64::from(total), 1),
    }
}

/// Whether each right is paid so much, and all together.
fn are_paid<N: Exact>(payments: &Payments<N>, each: &[i32], total: i32) -> bool {
    for (paid, wanted) in payments.each.slice().iter().zip(each) {
        if !is(*paid, *wanted, 1) {
            return false;
        }
    }
    payments.each.len() == each.len() && is(payments.total, total, 1)
}

/// Tables, whether there are outages, and the limit of branch 2 that is broken. The flow of branch 2 is a half of what is taken out at bus 2
/// and three quarters of that at bus 3; branch 1 adds a half and a quarter.
static FITS: [(&[u8], bool, Option<(u32, i32)>); 9] = [
    (b"from,to,mw\n1,3,5e-8\n1,2,5e-9\n", false, None),
    (b"from,to,mw\n1,3,6e-8\n", false, Some((0, 45))),
    (b"from,to,mw\n3,1,6e-8\n", false, Some((0, -45))),
    // 75/2 in the base is kept, and 75/2 + 25/2 after the outage is not.
    (b"from,to,mw\n1,3,5e-8\n", true, Some((1, 50))),
    (b"from,to,mw\n1,3,6e-8\n", true, Some((0, 45))),
    // Opposite rights, one from a bus to itself, one of nothing, and none.
    (b"from,to,mw\n1,3,6e-8\n3,1,6e-8\n", true, None),
    (b"from,to,mw\n2,2,9e-8\n", true, None),
    (b"from,to,mw\n1,3,0\n", true, None),
    (b"from,to,mw\n", true, None),
];

fn fits<N: Exact + Debug>(alloc: Global) -> Result<bool, Fail> {
    for (table, has_outages, want) in &FITS {
        if !is_fit(fit_of::<N>(alloc, *has_outages, table)?, *want) {
            return Ok(false);
        }
    }
    Ok(true)
}

/// Tables, what each of their rights is paid, and all together.
static PAYS: [(&[u8], &[i32], i32); 5] = [
    (b"from,to,mw\n1,3,5e-8\n1,2,5e-9\n", &[1500, 100], 1600),
    (b"from,to,mw\n1,3,6e-8\n", &[1800], 1800),
    (b"from,to,mw\n3,1,6e-8\n1,2,5e-9\n", &[-1800, 100], -1700),
    (b"from,to,mw\n2,2,9e-8\n1,3,0\n", &[0, 0], 0),
    (b"from,to,mw\n", &[], 0),
];

fn pays<N: Exact + Debug>(alloc: Global) -> Result<bool, Fail> {
    for (table, each, total) in &PAYS {
        if !are_paid(&payments_of::<N>(alloc, table)?, each, *total) {
            return Ok(false);
        }
    }
    Ok(true)
}

#[test]
fn limits_that_rights_break(rt: HostRuntime) -> Result<(), Fail> {
    assert!(rt; fits::<Frac>(rt.alloc())?);
    assert!(rt; fits::<Frac63>(rt.alloc())?);
    Ok(())
}

#[test]
fn what_rights_are_paid(rt: HostRuntime) -> Result<(), Fail> {
    assert!(rt; pays::<Frac>(rt.alloc())?);
    assert!(rt; pays::<Frac63>(rt.alloc())?);
    Ok(())
}

/// Whether numbers are too large as the sum of one and itself.
fn is_doubled(stop: &Stop<Frac63>, side: Frac63) -> bool {
    match stop {
        Stop::Passed(passed) => {
            *passed
                == Passed {
                    left: side,
                    right: side,
                    op: Op::Plus,
                }
        }
        _ => false,
    }
}

/// Whether the sum of what two rights of the most take out is told.
fn is_too_large(alloc: Global, market: &Market) -> Result<bool, RightsFault> {
    let rights = rights(alloc, market, b"from,to,mw\n1,3,9e9\n1,2,9e9\n")?;
    let most: Frac63 = Frac63::of_parts(9_000_000_000_000_000_000, 1);
    match fit::<Frac63>(alloc, market, rights.slice()) {
        Err(stop) => Ok(is_doubled(&stop, most)),
        Ok(_) => Ok(false),
    }
}

#[test]
fn a_sum_that_is_too_large(rt: HostRuntime) -> Result<(), Fail> {
    let market = triangle(rt.alloc(), false)?;
    assert!(rt; is_too_large(rt.alloc(), &market)?);
    Ok(())
}

/// Tables that are refused, and why.
static FAULTS: [(&[u8], RightsFault); 6] = [
    (
        b"from,to,mw\n1,x,-5\n4,3,5\n",
        RightsFault::Frame(FrameFault::Cell {
            line: 2,
            col: 2,
            why: Why::Decimal(DecimalFault::BadNumber),
        }),
    ),
    (
        b"from,to,MW\n1,3,5\n",
        RightsFault::Frame(FrameFault::Header),
    ),
    (
        b"from,to,mw\n1,3,5\n1,3\n",
        RightsFault::Frame(FrameFault::Width { line: 3 }),
    ),
    (
        b"from,to,mw\n1,3,5\n4,3,5\n",
        RightsFault::NoBus { line: 3 },
    ),
    (b"from,to,mw\n1,0,-5\n", RightsFault::NoBus { line: 2 }),
    (b"from,to,mw\n1,3,-5\n", RightsFault::Negative { line: 2 }),
];

/// Why a table is refused.
fn fault_of(alloc: Global, market: &Market, table: &[u8]) -> Option<RightsFault> {
    match rights(alloc, market, table) {
        Err(fault) => Some(fault),
        Ok(_) => None,
    }
}

#[test]
fn faults_of_tables(rt: HostRuntime) -> Result<(), Fail> {
    let market = triangle(rt.alloc(), false)?;
    for (table, want) in &FAULTS {
        assert_eq!(rt; fault_of(rt.alloc(), &market, table), Some(*want));
    }
    assert!(rt; MOST_RIGHTS == 1000);
    Ok(())
}
