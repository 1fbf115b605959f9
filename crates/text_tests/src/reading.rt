//! Calls through the bounds alone, as a program sees its store and its output.

ghost use Rattle.std.specs.Prelude.{◌<◌, ◌+◌, ◌^◌};

use outside_store::{ReadStop, Sink, Store};
use std::alloc::Global;

/// Whether a read of a file, up to so many bytes and one, gives this.
pub(crate) fn gives<S: Store>(
    alloc: Global,
    store: &mut S,
    name: &str,
    limit: usize,
    want: &str,
) -> bool
    requires { limit + 1 < 2 ^ 64 }
{
    match store.read(alloc, name, limit) {
        Ok(bytes) => bytes.as_slice() == want.as_bytes(),
        Err(_) => false,
    }
}

/// Why a read of a file stops, where it does.
pub(crate) fn stop_of<S: Store>(
    alloc: Global,
    store: &mut S,
    name: &str,
    limit: usize,
) -> Option<ReadStop>
    requires { limit + 1 < 2 ^ 64 }
{
    store.read(alloc, name, limit).err()
}

/// Whether a file is read and put out.
pub(crate) fn shows<S: Store, K: Sink>(
    alloc: Global,
    store: &mut S,
    out: &mut K,
    name: &str,
) -> bool {
    match store.read(alloc, name, 100) {
        Ok(bytes) => out.put(bytes.as_slice()).is_ok(),
        Err(_) => false,
    }
}
