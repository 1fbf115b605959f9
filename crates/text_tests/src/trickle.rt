//! A system whose files give and take one byte a call, and fail in mid-stream.

ghost use Rattle.std.specs.Prelude.{◌≤◌, IfOk};

use crate::reading::{gives, stop_of};
use outside_store::{FileStore, ReadStop, Store};
use std::alloc::Allocator;
use std::fs::{Metadata, OpenFile, OpenOptions};
use std::io::{self, Read, Seek, SeekFrom, Write};
use std::rt::Files;

/// Gives or takes one byte a call, so many times, and then fails or, where `ends`, has no more to give or to take. As a system it has
/// files alone, each of which is this one.
#[derive(Clone, Copy)]
struct Trickle {
    calls: u8,
    ends: bool,
}

fn refused<T>() -> io::Result<T> {
    Err(io::Error::from(io::ErrorKind::Unsupported))
}

impl Trickle {
    fn next(&mut self) -> io::Result<usize>
        ensures { IfOk result (λ count. count ≤ 1) }
    {
        if self.calls > 0 {
            self.calls -= 1;
            Ok(1)
        } else if self.ends {
            Ok(0)
        } else {
            Err(io::Error::from(io::ErrorKind::Other))
        }
    }
}

impl Read for Trickle {
    fn read(&mut self, buf: &mut [u8]) -> io::Result<usize> {
        if buf.is_empty() {
            return Ok(0);
        }
        buf[0] = b'x';
        self.next()
    }
}

impl Write for Trickle {
    fn write(&mut self, buf: &[u8]) -> io::Result<usize> {
        if buf.is_empty() { Ok(0) } else { self.next() }
    }

    fn flush(&mut self) -> io::Result<()> {
        Ok(())
    }
}

impl Seek for Trickle {
    fn seek(&mut self, _to: SeekFrom) -> io::Result<u64> {
        refused()
    }
}

impl OpenFile for Trickle {
    fn metadata(&self) -> io::Result<Metadata> {
        refused()
    }

    fn set_len(&self, _size: u64) -> io::Result<()> {
        refused()
    }

    fn sync_all(&self) -> io::Result<()> {
        refused()
    }

    fn sync_data(&self) -> io::Result<()> {
        refused()
    }
}

impl Files for Trickle {
    type File = Trickle;

    type Dir = Trickle;

    fn open_file(&self, _how: &OpenOptions, _path: &str) -> io::Result<Trickle> {
        Ok(*self)
    }

    fn open_dir(&self, _path: &str) -> io::Result<Trickle> {
        refused()
    }

    fn metadata(&self, _path: &str) -> io::Result<Metadata> {
        refused()
    }

    fn symlink_metadata(&self, _path: &str) -> io::Result<Metadata> {
        refused()
    }

    fn copy(&self, _from: &str, _to: &str) -> io::Result<u64> {
        refused()
    }

    fn rename(&self, _from: &str, _to: &str) -> io::Result<()> {
        refused()
    }

    fn remove_file(&self, _path: &str) -> io::Result<()> {
        refused()
    }

    fn create_dir(&self, _path: &str) -> io::Result<()> {
        refused()
    }

    fn remove_dir(&self, _path: &str) -> io::Result<()> {
        refused()
    }

    fn remove_dir_all<B: Allocator>(&self, _alloc: B, _path: &str) -> io::Result<()> {
        refused()
    }
}

#[test]
fn pieces_are_joined_until_one_fails(rt: HostRuntime) {
    let mut ends = FileStore::new(Trickle {
        calls: 3,
        ends: true,
    });
    assert!(rt; gives(rt.alloc(), &mut ends, "any", 8, "xxx"));
    let mut breaks = FileStore::new(Trickle {
        calls: 3,
        ends: false,
    });
    assert!(rt; gives(rt.alloc(), &mut breaks, "any", 2, "xxx"));
    let stop = stop_of(rt.alloc(), &mut breaks, "any", 3);
    assert_eq!(rt; stop, Some(ReadStop::Failed));
    for (calls, ends, want) in [(3, true, true), (2, true, false), (2, false, false)] {
        let mut store = FileStore::new(Trickle { calls, ends });
        assert_eq!(rt; store.write("any", b"abc").is_ok(), want, "at {calls}");
    }
}
