//! `csv_table`: the frame of a table, its cells and its numbers.

use csv_table::{header_line, read_table};
use plain_list::Memory;
use record_reading::{FrameFault, Why};
use scaled_decimal::DecimalFault;
use std::alloc::Global;
use std::test::Fail;

const HEADER: &[&str] = &["name", "note"];

fn record_count(
    alloc: Global,
    text: &[u8],
    most: Option<usize>,
) -> Result<Result<usize, FrameFault>, Memory> {
    match read_table(alloc, text, HEADER, most)? {
        Ok(table) => Ok(Ok(table.len())),
        Err(fault) => Ok(Err(fault)),
    }
}

#[test]
fn frames(rt: HostRuntime) {
    for (text, most, want) in [
        // No record, so no header.
        (b"".as_slice(), None, Err(FrameFault::Header)),
        (b"\n\r\n\n", None, Err(FrameFault::Header)),
        // A header alone, its last line with or without an end, its names in quotes or not.
        (b"name,note\n", None, Ok(0)),
        (b"name,note", None, Ok(0)),
        (b"\"name\",\"note\"\n", None, Ok(0)),
        // Blank lines, a byte order mark, the other line ends, and a line end within quotes.
        (b"\nname,note\n\n1,2\n\n\n3,4\n\n", None, Ok(2)),
        (b"\xEF\xBB\xBFname,note\n1,2", None, Ok(1)),
        (b"name,note\r\n1,2\r\n\r\n3,4\r\n", None, Ok(2)),
        (b"name,note\r1,2\r", None, Ok(1)),
        (b"name,note\n\"1\n2\",3\n", None, Ok(1)),
        // Records of another width, whose line is their place among the records, the header's being 1.
        (
            b"name,note\n1,2\n1,2,3\n4\n",
            None,
            Err(FrameFault::Width { line: 3 }),
        ),
        (
            b"name,note\n\n\n1\n",
            None,
            Err(FrameFault::Width { line: 2 }),
        ),
        (b"other\n1\n1,2\n", None, Err(FrameFault::Width { line: 3 })),
        (
            b"name,note\n1,2\n3\n",
            Some(1),
            Err(FrameFault::Width { line: 3 }),
        ),
        // Other headers: a name, the order, the case, one too few, one too many, a blank.
        (b"name,nota\n1,2\n", None, Err(FrameFault::Header)),
        (b"note,name\n1,2\n", None, Err(FrameFault::Header)),
        (b"Name,note\n1,2\n", None, Err(FrameFault::Header)),
        (b"name\n1\n", None, Err(FrameFault::Header)),
        (b"name,note,\n1,2,3\n", None, Err(FrameFault::Header)),
        (b"name, note\n1,2\n", None, Err(FrameFault::Header)),
        (b"name,nota\n1,2\n3,4\n", Some(1), Err(FrameFault::Header)),
        // As many records as are allowed, and more.
        (b"name,note\n1,2\n3,4\n5,6\n", Some(3), Ok(3)),
        (
            b"name,note\n1,2\n3,4\n5,6\n",
            Some(2),
            Err(FrameFault::TooMany { count: 3 }),
        ),
        (
            b"name,note\n1,2\n",
            Some(0),
            Err(FrameFault::TooMany { count: 1 }),
        ),
    ] {
        assert_eq!(rt; record_count(rt.alloc(), text, most), Ok(want), "{text:?}");
    }
}

#[test]
fn a_header_alone(rt: HostRuntime) -> Result<(), Fail> {
    let line = header_line(rt.alloc(), HEADER)?;
    assert_eq!(rt; line.as_slice(), b"name,note\n".as_slice());
    assert_eq!(rt; record_count(rt.alloc(), line.as_slice(), None), Ok(Ok(0)));
    Ok(())
}

#[test]
fn cells(rt: HostRuntime) -> Result<(), Fail> {
    let text = b"name,note\n\"x,\"\"y\"\"\",2\n,\r\n\"1\r\n2\", 3 \na\"b,\"open\n4,5\n".as_slice();
    let table = read_table(rt.alloc(), text, HEADER, Some(4))??;
    assert_eq!(rt; table.len(), 4);
    for (row, col, want) in [
        (0, 0, b"x,\"y\"".as_slice()),
        (0, 1, b"2"),
        (1, 0, b""),
        (1, 1, b""),
        (2, 0, b"1\r\n2"),
        (2, 1, b" 3 "),
        (3, 0, b"a\"b"),
        (3, 1, b"open\n4,5\n"),
        // Beyond the table's width.
        (0, 2, b""),
        (2, 9, b""),
    ] {
        assert!(rt; row < table.len());
        assert_eq!(rt; table.cell(row, col), want, "row {row}, col {col}");
    }
    Ok(())
}

#[test]
fn numbers(rt: HostRuntime) -> Result<(), Fail> {
    let text = b"name,note\n-2.5,x\n\"1e2\",0.0001\n".as_slice();
    let table = read_table(rt.alloc(), text, HEADER, None)??;
    assert_eq!(rt; table.len(), 2);
    for (row, col, want) in [
        (0, 0, Ok(-2_500)),
        (
            0,
            1,
            Err(FrameFault::Cell {
                line: 2,
                col: 2,
                why: Why::Decimal(DecimalFault::BadNumber),
            }),
        ),
        (1, 0, Ok(100_000)),
        (
            1,
            1,
            Err(FrameFault::Cell {
                line: 3,
                col: 2,
                why: Why::Decimal(DecimalFault::TooFine),
            }),
        ),
    ] {
        assert!(rt; row < table.len());
        assert!(rt; col < 2);
        assert_eq!(rt; table.number(row, col, 3), want, "row {row}, col {col}");
    }
    Ok(())
}
