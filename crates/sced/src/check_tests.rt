//! Checks of tables whose files are read whole.

use crate::fixture::{BUSES, LOSS, SHIFT, UNITS, case, expect, expect_within, whole};
use command_answers::Status;
use std::process::Abort;
use std::test::Fail;

const FITS: &str =
    "bus most 0 at 1 for 1\nbus within\nloop most 0 at 3 for 1\nloop within\noutage bus most 0 at 1 for 1\noutage bus within\noutage loop none\n";

const ALL: &str =
    "sced check --case case.m --ptdf shift.csv --lodf loss.csv --contingencies listed.csv";

/// Runs the words over the four files, with reads that fail, and compares.
fn expect_check<R: Abort + AllocGlobal>(
    rt: &R,
    line: &str,
    texts: [&str; 4],
    failing: &[u64],
    want: (Status, &str),
) -> Result<(), Fail> {
    let files = [
        ("case.m", texts[0].as_bytes()),
        ("shift.csv", texts[1].as_bytes()),
        ("loss.csv", texts[2].as_bytes()),
        ("listed.csv", texts[3].as_bytes()),
    ];
    let failing = (failing, [].as_slice());
    expect(rt, line, files.as_slice(), failing, whole(want.0, want.1))
}

/// A table whose only cell is as long as a file may be, and one of a byte more. It ends in a second where it is compiled for the gate, and
/// not within the time of a test under `rt try`.
#[test]
fn refuses_a_file_that_is_too_long(rt: HostRuntime) -> Result<(), Fail> {
    let case = case(&rt, BUSES, UNITS, "0 0 0 0 0")?;
    let line = "sced check --case case.m --ptdf shift.csv";
    let all = ([].as_slice(), [].as_slice());
    for (length, told) in [
        (33_554_432, "refused ptdf Header\n"),
        (33_554_433, "refused ptdf TooLong limit 33554432\n"),
    ] {
        let table = "x".repeat(rt.alloc(), length)?;
        let files = [("case.m", case.as_bytes()), ("shift.csv", table.as_bytes())];
        let want = whole(Status::Refused, told);
        expect_within(&rt, line, files.as_slice(), length, all, want)?;
    }
    Ok(())
}

#[test]
fn reads_all_files_first(rt: HostRuntime) -> Result<(), Fail> {
    let case = case(&rt, BUSES, UNITS, "0 0 0 0 0")?;
    let files = [case.as_str(), SHIFT, LOSS, "branch\n1\n"];
    expect_check(&rt, ALL, files, [].as_slice(), (Status::Done, FITS))?;
    let none = (Status::ReadFailed, "");
    let bad_case = ["", SHIFT, LOSS, ""];
    expect_check(&rt, ALL, bad_case, [1].as_slice(), none)?;
    let missing = "sced check --case case.m --ptdf shift.csv --lodf a";
    expect_check(&rt, missing, bad_case, [].as_slice(), none)
}
