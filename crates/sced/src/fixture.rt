//! What tests run over: files in memory, and a case of three buses that are joined in a triangle.

use crate::run::run;
use command_answers::Status;
use outside_store::{MemorySink, MemoryStore, Room};
use std::process::Abort;
use std::test::Fail;

pub const HEAD: &str = "function mpc = t3
mpc.version = '2';
mpc.baseMVA = 100;
mpc.bus = [
";

pub const BUSES: &str = "1 3 0 0 0 0 1 1 0 230 1 1.1 0.9;
2 1 0 0 0 0 1 1 0 230 1 1.1 0.9;
3 1 60 0 0 0 1 1 0 230 1 1.1 0.9;
";

pub const UNITS: &str = "1 0 0 0 0 1 100 1 100 0;
2 0 0 0 0 1 100 1 100 0;
";

pub const OFFERS: &str = "unit,side,mw,price\n1,sell,100,10\n2,sell,100,30\n";

pub const SHIFT: &str =
    "branch,bus,factor\n1,2,-0.5\n2,2,-0.5\n3,2,0.5\n1,3,-0.25\n2,3,-0.75\n3,3,-0.25\n";

pub const LOSS: &str = "branch,outage,factor\n2,1,1\n3,1,-1\n1,2,1\n3,2,1\n1,3,-1\n2,3,1\n";

/// Three buses in a line.
pub const LINE: &str = "function mpc = l3
mpc.version = '2';
mpc.baseMVA = 100;
mpc.bus = [
1 3 0 0 0 0 1 1 0 230 1 1.1 0.9;
2 1 0 0 0 0 1 1 0 230 1 1.1 0.9;
3 1 60 0 0 0 1 1 0 230 1 1.1 0.9;
];
mpc.gen = [
1 0 0 0 0 1 100 1 100 0;
];
mpc.branch = [
1 2 0 0.2 0 0 0 0 0 0 1 -360 360;
2 3 0 0.1 0 0 0 0 0 0 1 -360 360;
];
";

/// The case of these bus and gen rows, with these ratings and this phase shift of branch 2.
pub fn case<R: AllocGlobal>(
    rt: &R,
    buses: &str,
    units: &str,
    ratings: &str,
) -> Result<String, Fail> {
    let text = format!(in rt.alloc();
        "{HEAD}{buses}];\nmpc.gen = [\n{units}];\nmpc.branch = [\n1 2 0 0.2 0 0 0 0 0 0 1 -360 360;\n1 3 0 0.1 0 {ratings} 1 -360 360;\n2 3 0 0.1 0 0 0 0 0 0 1 -360 360;\n];\n"
    )?;
    Ok(text)
}

/// The text that a run is to put: the whole, how it begins, or how it begins and ends.
#[derive(Clone, Copy)]
pub enum Text<'a> {
    Whole(&'a str),
    Start(&'a str),
    Ends(&'a str, &'a str),
}

/// What a run is to end with: its status, its text, and the file that it wrote.
#[derive(Clone, Copy)]
pub struct Want<'a> {
    pub status: Status,
    pub text: Text<'a>,
    pub written: Option<&'a str>,
}

/// A text that is told, where no file is written.
pub fn told(status: Status, text: Text<'_>) -> Want<'_> {
    Want {
        status,
        text,
        written: None,
    }
}

/// The same of a whole text.
pub fn whole(status: Status, text: &str) -> Want<'_> {
    told(status, Text::Whole(text))
}

/// Runs the words of a line over files, with reads and puts that fail, by the number of each, and compares.
pub fn expect<R: Abort + AllocGlobal>(
    rt: &R,
    line: &str,
    files: &[(&str, &[u8])],
    failing: (&[u64], &[u64]),
    want: Want<'_>,
) -> Result<(), Fail> {
    expect_within(rt, line, files, 65_536, failing, want)
}

/// The same over files of at most so many bytes.
pub fn expect_within<R: Abort + AllocGlobal>(
    rt: &R,
    line: &str,
    files: &[(&str, &[u8])],
    bytes: usize,
    failing: (&[u64], &[u64]),
    want: Want<'_>,
) -> Result<(), Fail> {
    let mut store = stocked(rt, files, bytes, failing.0)?;
    answers(rt, line, &mut store, failing.1, want)
}

/// A store of these files and room for others, each of at most so many bytes, with reads and writes that fail, by the number of each.
pub fn stocked<R: Abort + AllocGlobal>(
    rt: &R,
    files: &[(&str, &[u8])],
    bytes: usize,
    failing: &[u64],
) -> Result<MemoryStore, Fail> {
    let room = Room {
        files: 10,
        name: 16,
        bytes,
    };
    let mut store = MemoryStore::new(rt.alloc(), room, failing)?;
    for (name, bytes) in files {
        assert!(rt; store.add(name, bytes).is_ok());
    }
    Ok(store)
}

/// The words of a line.
fn words_of<R: AllocGlobal>(rt: &R, line: &str) -> Result<Vec<String>, Fail> {
    let mut words = Vec::new(rt.alloc());
    for word in line.split(' ') {
        words.push(String::from_str(rt.alloc(), word)?)?;
    }
    Ok(words)
}

/// Runs the words of a line over a store, with puts that fail, and compares.
pub fn answers<R: Abort + AllocGlobal>(
    rt: &R,
    line: &str,
    store: &mut MemoryStore,
    failing: &[u64],
    want: Want<'_>,
) -> Result<(), Fail> {
    let words = words_of(rt, line)?;
    let mut sink = MemorySink::new(rt.alloc(), 8192, failing)?;
    let status = run(rt.alloc(), words.as_slice(), store, &mut sink);
    compare(rt, status, sink.bytes(), want)?;
    holds(rt, store, "out.json", want.written)
}

/// Compares what a run ended with and put.
fn compare<R: Abort>(rt: &R, status: Status, put: &[u8], want: Want<'_>) -> Result<(), Fail> {
    assert_eq!(rt; status, want.status);
    let (start, end) = match want.text {
        Text::Whole(text) => {
            assert_eq!(rt; put, text.as_bytes());
            (text, text)
        }
        Text::Start(start) => (start, "\n"),
        Text::Ends(start, end) => (start, end),
    };
    assert!(rt; put.starts_with(start.as_bytes()) && put.ends_with(end.as_bytes()));
    Ok(())
}

/// Compares what a file of a store has, where it is there.
pub fn holds<R: Abort + AllocGlobal>(
    rt: &R,
    store: &MemoryStore,
    name: &str,
    want: Option<&str>,
) -> Result<(), Fail> {
    match (store.bytes(name), want) {
        (Some(bytes), Some(text)) => assert_eq!(rt; bytes, text.as_bytes()),
        (told, None) => assert!(rt; told.is_none()),
        (None, Some(_)) => assert!(rt; false),
    }
    Ok(())
}
