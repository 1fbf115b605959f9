//! The files and the output of the system.

use crate::reading::{gives, shows, stop_of};
use outside_store::{Failed, FileStore, OutSink, ReadStop, Store};
use std::test::Fail;
use std::{fs, process};

#[test]
fn files_are_written_and_read_back(rt: HostRuntime) -> Result<(), Fail> {
    let name = format!(in rt.alloc(); "/tmp/outside_store.{}", process::id(rt.process()))?;
    let mut store = FileStore::new(&rt);
    for text in [
        "an older text, which is the longer of the two\n",
        "a text of some bytes\n",
    ] {
        assert_eq!(rt; store.write(name.as_str(), text.as_bytes()), Ok(()));
    }
    for (limit, want) in [(100, "a text of some bytes\n"), (5, "a text")] {
        assert!(rt;
            gives(rt.alloc(), &mut store, name.as_str(), limit, want),
            "at {limit}"
        );
    }
    let mut out = OutSink::new(&rt);
    assert!(rt; shows(rt.alloc(), &mut store, &mut out, name.as_str()));
    assert_eq!(rt; [out.faults(), store.failed_reads()], [0, 0]);
    fs::remove_file(&rt, name.as_str())?;
    Ok(())
}

#[test]
fn files_that_fail_are_counted(rt: HostRuntime) {
    let mut store = FileStore::new(&rt);
    // A name that is not there, and a folder, which opens and cannot be read.
    for name in ["/tmp/outside_store.none", "/tmp"] {
        let stop = stop_of(rt.alloc(), &mut store, name, 100);
        assert_eq!(rt; stop, Some(ReadStop::Failed), "at {name}");
    }
    // A device that is always full.
    for name in ["/dev/full", "/tmp"] {
        assert_eq!(rt; store.write(name, b"text"), Err(Failed), "at {name}");
    }
    assert_eq!(rt; [store.failed_reads(), store.failed_writes()], [2, 2]);
}
