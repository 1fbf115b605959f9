//! `case_text::read_costs`: rows of `gencost` that are read, and what is wrong with texts that have none to read.

use case_text::{CaseFault, CostsFault, RawCosts, read_costs};
use std::process::Abort;
use std::test::Fail;

/// Texts, and what is wrong with them.
static FAULTS: [(&str, CostsFault); 9] = [
    (
        "function mpc = t\nmpc.gencost = 5;",
        CostsFault::Text {
            fault: CaseFault::Code { line: 2 },
        },
    ),
    (
        "function mpc = t\nmpc.gencost = {2 0 0 1 5};",
        CostsFault::Text {
            fault: CaseFault::Code { line: 2 },
        },
    ),
    (
        "function mpc = t\nmpc.gencost = [2 0 0 1 'five'];",
        CostsFault::Text {
            fault: CaseFault::BadToken { at: 40 },
        },
    ),
    (
        "function mpc = t\nmpc.gencost = [2 0 0 1 5",
        CostsFault::Text {
            fault: CaseFault::BadToken { at: 41 },
        },
    ),
    (
        "function mpc = t\nmpc.gencost = [2 0 0 1 5] 5",
        CostsFault::Text {
            fault: CaseFault::Code { line: 2 },
        },
    ),
    (
        "function mpc = t\nmpc.gencost = [1];\nmpc.gencost = [1];",
        CostsFault::Twice,
    ),
    (
        "function mpc = t\nmpc.gencost = [];\nmpc.gencost = [];",
        CostsFault::Twice,
    ),
    (
        "function mpc = t\nmpc.gencost = [2 0 0 1 5; 2 0 0 1 5; 2 0 0 1];",
        CostsFault::Ragged { row: 3 },
    ),
    (
        "function mpc = t\nmpc.gencost = [1 2];\nmpc.gen = 7 8",
        CostsFault::Text {
            fault: CaseFault::Code { line: 3 },
        },
    ),
];

#[test]
fn tells_what_is_wrong(rt: HostRuntime) -> Result<(), Fail> {
    for (text, want) in &FAULTS {
        match read_costs(rt.alloc(), text.as_bytes()) {
            Ok(_) => panic!(&rt; "costs: {text}"),
            Err(fault) => assert_eq!(rt; fault, *want, "{text}"),
        }
    }
    Ok(())
}

/// Compares the rows of the text below.
fn compare(rt: &impl Abort, costs: &RawCosts<'_>) {
    assert_eq!(rt; costs.rows(), 2);
    for (row, cells) in [(1, 7), (2, 7), (3, 0)] {
        assert_eq!(rt; costs.cells(row), cells);
    }
    for (row, col, want) in [
        (1, 1, b"2".as_slice()),
        (1, 5, b"0.11"),
        (2, 7, b"-1e3"),
        (2, 8, b""),
        (3, 1, b""),
    ] {
        assert_eq!(rt; costs.cell(row, col), want);
    }
}

#[test]
fn reads_rows(rt: HostRuntime) -> Result<(), Fail> {
    let text = b"\xEF\xBB\xBF% costs
function mpc = t; mpc.gen = [1 2]
mpc.gencosts = [9 9 9];
mpc.notes = 'mpc.gencost = [7]';
mpc.gencost = [ % model, start, stop, count
2 1500 0 3 0.11 5 150;

2, 0, 0, 3, ... and on
  0.085 1.2 -1e3
]; mpc.version = '2'
";
    match read_costs(rt.alloc(), text)? {
        Some(costs) => compare(&rt, &costs),
        None => panic!(&rt; "no costs"),
    }
    Ok(())
}

#[test]
fn needs_no_costs(rt: HostRuntime) -> Result<(), Fail> {
    for text in ["", "function mpc = t", "function mpc = t\nmpc.gen = [1 2];"] {
        assert!(rt; read_costs(rt.alloc(), text.as_bytes())?.is_none());
    }
    let empty = read_costs(rt.alloc(), b"function mpc = t\nmpc.gencost = []")?;
    assert!(rt; empty.is_some_and(|costs| costs.rows() == 0));
    Ok(())
}
