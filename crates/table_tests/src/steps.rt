//! `edit_table`: the steps of a table.

use edit_table::{Step, StepFault, Steps, steps};
use market_model::Side;
use offer_book::Edit;
use record_reading::{FrameFault, Why};
use scaled_decimal::DecimalFault;
use std::alloc::Global;
use std::test::Fail;

/// The steps of these records.
fn steps_of(alloc: Global, records: &str) -> Result<Steps, StepFault> {
    match format!(in alloc; "op,target,side,block,value\n{records}") {
        Ok(table) => steps(alloc, table.as_bytes()),
        Err(_) => Err(StepFault::Memory),
    }
}

/// A record of each kind.
const RECORDS: &str =
    "price,1,sell,2,20.5\r\nquantity,3,buy,1,-4e1\ndemand,3,,,40\nlimit,2,base,,0\nlimit,2,post,,\"45\"\nneed,,,,60\nclear,,,,\n";

/// Their steps.
const STEPS: [Step; 7] = [
    Step::Edit(Edit::Price {
        unit: 1,
        side: Side::Sell,
        block: 2,
        price: 20_500_000,
    }),
    Step::Edit(Edit::Quantity {
        unit: 3,
        side: Side::Buy,
        block: 1,
        mw: -40_000_000_000,
    }),
    Step::Edit(Edit::Demand {
        bus: 3,
        mw: 40_000_000_000,
    }),
    Step::Edit(Edit::Limit {
        branch: 2,
        post: false,
        mw: 0,
    }),
    Step::Edit(Edit::Limit {
        branch: 2,
        post: true,
        mw: 45_000_000_000,
    }),
    Step::Edit(Edit::Need { mw: 60_000_000_000 }),
    Step::Clear,
];

#[test]
fn reads_each_step(rt: HostRuntime) -> Result<(), Fail> {
    let steps = steps_of(rt.alloc(), RECORDS)?;
    assert_eq!(rt; steps.slice(), STEPS.as_slice());
    Ok(())
}

/// How many steps these records have, or their first fault.
fn count(alloc: Global, records: &str) -> Result<usize, StepFault> {
    match steps_of(alloc, records) {
        Ok(steps) => Ok(steps.len()),
        Err(fault) => Err(fault),
    }
}

/// Records, each list with how many steps it has or with its first fault.
const COUNTS: &[(&str, Result<usize, StepFault>)] = &[
    ("", Ok(0)),
    ("clear,,,,\nclear,,,,\n", Ok(2)),
    (
        "price,1,sell,,5\n",
        Err(StepFault::Frame(FrameFault::Cell {
            line: 2,
            col: 4,
            why: Why::Decimal(DecimalFault::BadNumber),
        })),
    ),
    (
        "price,,buy,,x\n",
        Err(StepFault::Frame(FrameFault::Cell {
            line: 2,
            col: 2,
            why: Why::Decimal(DecimalFault::BadNumber),
        })),
    ),
    (
        "limit,1,post,,\n",
        Err(StepFault::Frame(FrameFault::Cell {
            line: 2,
            col: 5,
            why: Why::Decimal(DecimalFault::BadNumber),
        })),
    ),
    ("price,x,,1,5\n", Err(StepFault::Word { line: 2 })),
    ("demand,3,sell,,5\n", Err(StepFault::Word { line: 2 })),
    ("demand,3,,1,5\n", Err(StepFault::Word { line: 2 })),
    ("limit,1,sell,,5\n", Err(StepFault::Word { line: 2 })),
    ("limit,1,base,1,5\n", Err(StepFault::Word { line: 2 })),
    ("clear,,,,\nclear,,,,0\n", Err(StepFault::Word { line: 3 })),
    ("Clear,,,,\n", Err(StepFault::Word { line: 2 })),
    (
        "clear\n",
        Err(StepFault::Frame(FrameFault::Width { line: 2 })),
    ),
];

#[test]
fn tells_the_first_fault_of_steps(rt: HostRuntime) {
    for (records, want) in COUNTS {
        assert_eq!(rt; count(rt.alloc(), *records), *want, "{records}");
    }
}
