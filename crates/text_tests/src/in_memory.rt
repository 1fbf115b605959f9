//! The store and the output in memory.

use crate::reading::{gives, shows};
use outside_store::{Failed, MemorySink, MemoryStore, NoRoom, Room, Sink, Store};
use std::alloc::{AllocError, Global};
use std::process::Abort;
use std::test::Fail;

const ROOM: Room = Room {
    files: 2,
    name: 6,
    bytes: 5,
};

/// A store with one file, some of whose calls fail.
fn small_store(alloc: Global, failing: &[u64]) -> Result<MemoryStore, AllocError> {
    let mut store = MemoryStore::new(alloc, ROOM, failing)?;
    match store.add("first", b"abcd") {
        Ok(()) => Ok(store),
        Err(NoRoom) => Err(AllocError),
    }
}

/// Whether two files are written, the first in place of an older one.
fn writes_both(store: &mut MemoryStore) -> bool {
    let first = store.write("first", b"xy");
    let second = store.write("second", b"12345");
    first.is_ok() && second.is_ok()
}

/// Whether a store of five calls has these two files and no third.
fn has_both(store: &MemoryStore) -> bool {
    store.bytes("first") == Some(b"xy".as_slice())
        && store.bytes("second") == Some(b"12345".as_slice())
        && store.bytes("third").is_none()
        && [store.calls(), store.failed_reads(), store.failed_writes()] == [5, 0, 0]
}

/// Reads a file up to so many bytes, and replaces it.
fn read_and_replace<R: Abort + AllocGlobal>(rt: &R, store: &mut MemoryStore) {
    for (limit, want) in [(2, "abc"), (3, "abcd"), (100, "abcd")] {
        assert!(rt;
            gives(rt.alloc(), store, "first", limit, want),
            "at {limit}"
        );
    }
    assert!(rt; writes_both(store));
    assert!(rt; has_both(store));
}

#[test]
fn a_store_reads_and_replaces(rt: HostRuntime) -> Result<(), Fail> {
    let mut store = small_store(rt.alloc(), &[])?;
    read_and_replace(&rt, &mut store);
    Ok(())
}

/// Reads and writes, of which the second and the fourth call fail.
fn read_and_write<R: Abort + AllocGlobal>(rt: &R, store: &mut MemoryStore) {
    for want in [true, false, true] {
        assert_eq!(rt; gives(rt.alloc(), store, "first", 100, "abcd"), want);
    }
    // The call that fails, bytes that are too long, a name that is too long, and a third name.
    for (name, text, want) in [
        ("first", "xy", false),
        ("first", "123456", false),
        ("seventh", "", false),
        ("second", "", true),
        ("third", "", false),
    ] {
        assert_eq!(rt;
            store.write(name, text.as_bytes()).is_ok(),
            want,
            "at {name}"
        );
    }
    assert_eq!(rt; store.add("third", b""), Err(NoRoom));
    assert!(rt; store.bytes("first") == Some(b"abcd".as_slice()));
    assert_eq!(rt;
        [store.calls(), store.failed_reads(), store.failed_writes()],
        [8, 1, 4]
    );
}

#[test]
fn a_store_fails_where_it_must(rt: HostRuntime) -> Result<(), Fail> {
    let mut store = small_store(rt.alloc(), &[1, 3])?;
    read_and_write(&rt, &mut store);
    Ok(())
}

#[test]
fn a_sink_takes_what_fits(rt: HostRuntime) -> Result<(), Fail> {
    let mut sink = MemorySink::new(rt.alloc(), 5, &[1])?;
    for (text, want) in [
        ("ab", Ok(())),
        ("c", Err(Failed)),
        ("defg", Err(Failed)),
        ("def", Ok(())),
    ] {
        assert_eq!(rt; sink.put(text.as_bytes()), want, "at {text}");
    }
    assert!(rt; sink.bytes() == b"abdef".as_slice() && sink.calls() == 4 && sink.faults() == 2);
    Ok(())
}

/// Which of these names a store of one file shows by an output of eight bytes, and whether these come out.
fn shown(alloc: Global, names: [&str; 4], want: &str) -> Option<[bool; 4]> {
    let mut store = small_store(alloc, &[]).ok()?;
    let mut sink = MemorySink::new(alloc, 8, &[]).ok()?;
    let shown = [
        shows(alloc, &mut store, &mut sink, names[0]),
        shows(alloc, &mut store, &mut sink, names[1]),
        shows(alloc, &mut store, &mut sink, names[2]),
        shows(alloc, &mut store, &mut sink, names[3]),
    ];
    if sink.bytes() == want.as_bytes() {
        Some(shown)
    } else {
        None
    }
}

#[test]
fn memory_serves_through_the_bounds(rt: HostRuntime) {
    let names = ["first", "second", "first", "first"];
    let want = Some([true, false, true, false]);
    assert_eq!(rt; shown(rt.alloc(), names, "abcdabcd"), want);
}
