//! Rows of `gencost`, each with what it says or why it gives no cost.

use crate::{CostFault, RowFault, cost_of_row};
use case_text::read_costs;
use cost_steps::{Cost, CostPoint};
use record_reading::Why;
use scaled_decimal::DecimalFault;
use std::alloc::Global;
use std::test::Fail;

/// One MW, and one dollar an hour.
const ONE: i64 = 1_000_000_000;

/// What a row is wanted to give.
#[derive(Clone, Copy)]
enum Want {
    /// The square's factor and the linear one.
    Quadratic(i64, i64),
    /// The output and the cost of each point.
    Segments(&'static [(i64, i64)]),
    /// The column of a cell that has no number.
    Misread(usize, DecimalFault),
    /// The column of a factor that is too large.
    Bounds(usize),
    Row(RowFault),
    Fault(CostFault),
}

/// The rows of a case of nine buses, in the manual's format.
const NINE: &str = "2 1500 0 3 0.11 5 150; 2 2000 0 3 0.085 1.2 600; 2 3000 0 3 0.1225 1 335";

/// Rows, the number of the one that is read, and what it gives.
static ROWS: [(&str, usize, Want); 34] = [
    (
        NINE,
        1,
        Want::Quadratic(110_000_000_000_000, 5_000_000_000_000),
    ),
    (
        NINE,
        2,
        Want::Quadratic(85_000_000_000_000, 1_200_000_000_000),
    ),
    (
        NINE,
        3,
        Want::Quadratic(122_500_000_000_000, 1_000_000_000_000),
    ),
    (
        "2 0 0 5 0 0 0.01 40 0 9",
        1,
        Want::Quadratic(10_000_000_000_000, 40_000_000_000_000),
    ),
    (
        "2 0 0 2 12.5 3 0",
        1,
        Want::Quadratic(0, 12_500_000_000_000),
    ),
    ("2 Inf NaN 1 7", 1, Want::Quadratic(0, 0)),
    (
        "2 0 0 3 1000 -1 1e-300",
        1,
        Want::Quadratic(ONE * ONE, -1_000_000_000_000),
    ),
    (
        "1 0 0 4 0 0 12 240 36 1200 60 2400",
        1,
        Want::Segments(&[
            (0, 0),
            (12 * ONE, 240 * ONE),
            (36 * ONE, 1200 * ONE),
            (60 * ONE, 2400 * ONE),
        ]),
    ),
    (
        "1 0 0 2 0 0 50 500.5 0 0 0 0",
        1,
        Want::Segments(&[(0, 0), (50 * ONE, 500_500_000_000)]),
    ),
    (
        "1 0 0 3 -20 -1500 -10 -1000 0 0",
        1,
        Want::Segments(&[(-20 * ONE, -1500 * ONE), (-10 * ONE, -1000 * ONE), (0, 0)]),
    ),
    ("1.5 0 0 1 7", 1, Want::Misread(1, DecimalFault::TooFine)),
    ("0 0 0 1 7", 1, Want::Row(RowFault::Model)),
    ("3 0 0 1 7", 1, Want::Row(RowFault::Model)),
    ("2 0 0", 1, Want::Misread(4, DecimalFault::BadNumber)),
    (
        "2 0 0 9223372036854775808 7",
        1,
        Want::Misread(4, DecimalFault::OutOfRange),
    ),
    ("2 0 0 9223372036854775807 7", 1, Want::Row(RowFault::Count)),
    ("1 0 0 9223372036854775807 7", 1, Want::Row(RowFault::Count)),
    ("2 0 0 0 7", 1, Want::Row(RowFault::Count)),
    ("2 0 0 -1 7", 1, Want::Row(RowFault::Count)),
    ("2 0 0 2 7", 1, Want::Row(RowFault::Count)),
    ("1 0 0 1 0 0", 1, Want::Row(RowFault::Count)),
    ("1 0 0 3 0 0 1 1 2", 1, Want::Row(RowFault::Count)),
    ("2 0 0 4 1 0 0 0", 1, Want::Row(RowFault::Degree)),
    ("2 0 0 5 0 -1 0 0 0", 1, Want::Row(RowFault::Degree)),
    (
        "2 0 0 4 Inf 0 0 0",
        1,
        Want::Misread(5, DecimalFault::NotFinite),
    ),
    (
        "2 0 0 3 1e-16 0 0",
        1,
        Want::Misread(5, DecimalFault::TooFine),
    ),
    (
        "2 0 0 3 0 1e-13 0",
        1,
        Want::Misread(6, DecimalFault::TooFine),
    ),
    (
        "2 0 0 3 0 0 NaN",
        1,
        Want::Misread(7, DecimalFault::NotFinite),
    ),
    ("2 0 0 4 0 1000.000000000000001 0 0", 1, Want::Bounds(6)),
    ("2 0 0 3 -1e-15 1 0", 1, Want::Fault(CostFault::Slopes)),
    (
        "1 0 0 2 0 0 1 Inf",
        1,
        Want::Misread(8, DecimalFault::NotFinite),
    ),
    ("1 0 0 3 0 0 1 1 1 2", 1, Want::Fault(CostFault::Outputs)),
    ("1 0 0 3 0 0 10 20 20 30", 1, Want::Fault(CostFault::Slopes)),
    (
        "1 0 0 3 0 0 1e-9 10000000000 20 30",
        1,
        Want::Misread(8, DecimalFault::OutOfRange),
    ),
];

fn are_points(points: &[CostPoint], want: &[(i64, i64)]) -> bool {
    let mut same = points.len() == want.len();
    for (point, want) in points.iter().zip(want) {
        same = same && (point.output, point.cost) == *want;
    }
    same
}

fn fault_of(want: Want) -> Option<CostFault> {
    let fault = match want {
        Want::Quadratic(..) | Want::Segments(_) => return None,
        Want::Fault(fault) => return Some(fault),
        Want::Row(fault) => fault,
        Want::Bounds(col) => RowFault::Cell {
            col,
            why: Why::Bounds,
        },
        Want::Misread(col, fault) => RowFault::Cell {
            col,
            why: Why::Decimal(fault),
        },
    };
    Some(CostFault::Row { fault })
}

fn is_wanted(told: &Result<Cost, CostFault>, want: Want) -> bool {
    match told {
        Ok(Cost::Quadratic { square, linear }) => {
            matches!(want, Want::Quadratic(factor, line) if *square == factor && *linear == line)
        }
        Ok(Cost::Segments { points }) => {
            matches!(want, Want::Segments(wanted) if are_points(points.slice(), wanted))
        }
        Err(fault) => fault_of(want) == Some(*fault),
    }
}

/// What a row gives, and nothing where there is no such row.
fn told(alloc: Global, rows: &str, row: usize) -> Result<Option<Result<Cost, CostFault>>, Fail> {
    let text = format!(in alloc; "function mpc = case\nmpc.gencost = [{rows}];\n")?;
    match read_costs(alloc, text.as_bytes())? {
        Some(costs) if row >= 1 && row <= costs.rows() => Ok(Some(cost_of_row(alloc, &costs, row))),
        _ => Ok(None),
    }
}

#[test]
fn reads_rows(rt: HostRuntime) -> Result<(), Fail> {
    for (rows, row, want) in &ROWS {
        let told = told(rt.alloc(), rows, *row)?;
        assert!(rt;
            told.is_some_and(|told| is_wanted(&told, *want)),
            "{rows}, {row}"
        );
    }
    Ok(())
}
