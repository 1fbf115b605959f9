// Bytes within a room that is taken when they are made, so that no later call asks for memory.
ghost use Rattle.std.specs.Prelude.{◌≡◌, ◌≤◌, ◌↔◌, [], ◌++◌, length, IfOk, OnOk, OnErr, IsErr};
ghost use Rattle.outside_store.specs.Recorder.{IsFull};

use std::alloc::{AllocError, Global};
use std::marker::Model;

/// There was no room for a name or its bytes.
#[derive(Clone, Copy, PartialEq, Eq, Debug)]
pub struct NoRoom;

#[derive(Drop)]
pub(crate) struct BoundedBytes {
    items: Vec<u8>,
    limit: usize,
}

impl Model for BoundedBytes {
    ghost use Rattle.std.specs.Prelude.{◌≤◌, vec_len, vec_capacity};
    ghost use Rattle.outside_store.specs.Bounded.{Bounded};

    ghost Value = { Bounded };

    ghost view = { λ held. record { bytes = held.items.items; room = held.limit } };

    ghost invariant = { λ held. (vec_len held.items ≤ held.limit)
        × (held.limit ≤ vec_capacity held.items) };
}

impl BoundedBytes {
    pub(crate) fn new(alloc: Global, room: usize) -> Result<BoundedBytes, AllocError>
        ensures { IfOk result (λ held. held ≡ record { bytes = []; room = room }) }
    {
        let items = Vec::with_capacity(alloc, room)?;
        Ok(BoundedBytes { items, limit: room })
    }

    pub(crate) fn as_slice(&self) -> &[u8]
        ensures { result.now ≡ self.now.bytes }
    {
        self.items.as_slice()
    }

    /// Adds the bytes at the end, if there is room for all of them.
    pub(crate) fn append(&mut self, more: &[u8]) -> Result<(), NoRoom>
        ensures full { IsErr result ↔ IsFull self.old more.now }
        ensures ok { OnOk result (self.new ≡ record self.old { bytes = self.old.bytes ++ more.now }) }
        ensures err { OnErr result (self.new ≡ self.old) }
    {
        if more.len() > self.limit - self.items.len() {
            return Err(NoRoom);
        }
        self.items.extend_from_slice(more).unwrap();
        Ok(())
    }

    /// Holds these bytes in place of what it held.
    pub(crate) fn replace(&mut self, bytes: &[u8])
        requires { length bytes.now ≤ self.old.room }
        ensures { self.new ≡ record self.old { bytes = bytes.now } }
    {
        self.items.clear();
        self.items.extend_from_slice(bytes).unwrap();
    }
}
