//! Tables of factors that are made and written, with texts worked by hand.

use crate::fixture::{BUSES, UNITS, answers, case, holds, stocked, whole};
use command_answers::Status;
use outside_store::MemoryStore;
use std::process::Abort;
use std::test::Fail;

const WORDS: &str =
    "sced factors --case case.m --contingencies listed.csv --ptdf-out shift.csv --lodf-out";

const TOLD: &str = "shift records 9\noutage records 2\n";

const SHIFT: &str =
    "branch,bus,factor\n1,1,0\n1,2,-0.5\n1,3,-0.25\n2,1,0\n2,2,-0.5\n2,3,-0.75\n3,1,0\n3,2,0.5\n3,3,-0.25\n";

const LOSS: &str = "branch,outage,factor\n2,1,1\n3,1,-1\n";

/// Makes the tables, with outage factors in a file of this name, and compares what is told and written.
fn makes<R: Abort + AllocGlobal>(
    rt: &R,
    loss_out: &str,
    store: &mut MemoryStore,
    status: Status,
    tables: (Option<&str>, Option<&str>),
) -> Result<(), Fail> {
    let line = format!(in rt.alloc(); "{WORDS} {loss_out}")?;
    let told = if status == Status::Done { TOLD } else { "" };
    let want = whole(status, told);
    answers(rt, line.as_str(), store, [].as_slice(), want)?;
    holds(rt, store, "shift.csv", tables.0)?;
    holds(rt, store, "loss.csv", tables.1)
}

/// Two files are read, then two are written and a text is put; one of the calls of the store fails, or none. No file is written behind a
/// write that fails. Of one name, the outage factors stand there at the end.
#[test]
fn makes_tables(rt: HostRuntime) -> Result<(), Fail> {
    let case = case(&rt, BUSES, UNITS, "0 0 0 0 0")?;
    for (store_call, loss_out, status, shift, loss) in [
        (0, "loss.csv", Status::ReadFailed, None, None),
        (1, "loss.csv", Status::ReadFailed, None, None),
        (2, "loss.csv", Status::WriteFailed, None, None),
        (3, "loss.csv", Status::WriteFailed, Some(SHIFT), None),
        (4, "loss.csv", Status::Done, Some(SHIFT), Some(LOSS)),
        (4, "shift.csv", Status::Done, Some(LOSS), None),
    ] {
        let failing = [store_call];
        let files = [("case.m", case.as_bytes()), ("listed.csv", b"branch\n1\n")];
        let mut store = stocked(&rt, files.as_slice(), 65_536, failing.as_slice())?;
        makes(&rt, loss_out, &mut store, status, (shift, loss))?;
    }
    Ok(())
}
