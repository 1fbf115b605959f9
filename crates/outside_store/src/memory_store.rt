// A store in memory, for trying out what a caller does where a call fails.
ghost use Rattle.std.specs.Prelude.{◌≡◌, ℕ, ◌<◌, ◌≤◌, ◌+◌, ◌^◌, ◌↔◌, ◌⊎◌, [], take};
ghost use Rattle.std.specs.Prelude.{vec_len, MatchOption, IfOk, IfErr, OnOk, OnErr, IsErr};
ghost use Rattle.std.specs.Result.{IsErrOf};
ghost use Rattle.outside_store.specs.Causes.{CountsFault, Still, raised};
ghost use Rattle.outside_store.specs.Files.{SameFiles, Reads, Wrote};
ghost use Rattle.outside_store.specs.Memory.{find, IsPastRoom, Stores};
ghost use Rattle.outside_store.specs.Plan.{IsNextListed, advanced};

use crate::bounded_bytes::NoRoom;
use crate::failure_plan::FailurePlan;
use crate::named_file::{NamedFile, bytes_of, place_of};
use crate::{Failed, ReadStop, Store};
use std::alloc::{AllocError, Global};
use std::marker::Model;

/// How many files a store in memory can hold, and how many bytes each name and each file can have.
#[derive(Clone, Copy, PartialEq, Eq, Debug)]
pub struct Room {
    pub files: usize,
    pub name: usize,
    pub bytes: usize,
}

/// A store that keeps its files in room that is taken when it is made.
///
/// Reads and writes are numbered together, from 0.
/// A read fails exactly where its number is listed or the name is not there.
/// A write fails exactly where its number is listed or there is no room: the bytes are too long for a file, or the name
/// is not there yet and is too long, or every place is taken. It then changes no file.
#[derive(Drop)]
pub struct MemoryStore {
    places: Vec<NamedFile>,
    used: usize,
    room: Room,
    schedule: FailurePlan,
    read_faults: u64,
    write_faults: u64,
}

impl Model for MemoryStore {
    ghost use Rattle.std.specs.Prelude.{◌-◌, ◌≤◌, ℕ, take, length, All};
    ghost use Rattle.outside_store.specs.Memory.{HeldFiles};

    ghost Value = { HeldFiles };

    ghost use Rattle.outside_store.specs.Places.{shown_all, IsRoomy};

    ghost view = { λ store. record {
      files = shown_all (take store.used store.places.items);
      free = length store.places.items - store.used;
      name_room = store.room.name;
      byte_room = store.room.bytes;
      plan = store.schedule;
      failed_reads = store.read_faults;
      failed_writes = store.write_faults;
    } };

    ghost invariant = { λ store. (store.used ≤ length store.places.items)
        × (All (IsRoomy store.room.name store.room.bytes) store.places.items) };
}

impl MemoryStore {
    /// A store with no file yet.
    ///
    /// `failing` has the numbers of the calls that are to fail, the first read or write being number 0.
    pub fn new(alloc: Global, room: Room, failing: &[u64]) -> Result<MemoryStore, AllocError>
        ensures { IfOk result (λ store. store ≡ record {
          files = [];
          free = room.files;
          name_room = room.name;
          byte_room = room.bytes;
          plan = record { failing = failing.now; calls = 0 };
          failed_reads = 0;
          failed_writes = 0;
        }) }
    {
        let mut places = Vec::with_capacity(alloc, room.files)?;
        for _ in 0..room.files {
            places.push(NamedFile::new(alloc, room.name, room.bytes)?)?;
        }
        let schedule = FailurePlan::new(alloc, failing)?;
        Ok(MemoryStore {
            places,
            used: 0,
            room,
            schedule,
            read_faults: 0,
            write_faults: 0,
        })
    }

    /// Puts a file there, in place of what the name had.
    ///
    /// This is for setting a store up: it is not numbered among the calls, and fails only where there is no room.
    pub fn add(&mut self, name: &str, bytes: &[u8]) -> Result<(), NoRoom>
        ensures refused { IsErr result ↔ IsPastRoom self.old name.now bytes.now }
        ensures stored { OnOk result (Stores name.now bytes.now self.old self.new) }
        ensures kept { OnErr result (self.new ≡ self.old) }
        ensures rest { self.new ≡ record self.old { files = self.new.files; free = self.new.free } }
    {
        if bytes.len() > self.room.bytes {
            return Err(NoRoom);
        }
        match place_of(&self.places[..self.used], name.as_bytes()) {
            Some(place) => {
                self.places[place].replace(bytes);
                Ok(())
            }
            None if name.len() <= self.room.name && self.used < self.places.len() => {
                self.places[self.used].take_over(name.as_bytes(), bytes);
                self.used += 1;
                Ok(())
            }
            None => Err(NoRoom),
        }
    }

    /// The bytes of a name.
    pub fn bytes(&self, name: &str) -> Option<&[u8]>
        ensures { let there = find self.now.files name.now in
            MatchOption result (there ≡ None) (λ bytes. there ≡ Some bytes.now) }
    {
        bytes_of(&self.places[..self.used], name.as_bytes())
    }

    /// How many reads failed.
    pub fn failed_reads(&self) -> u64
        ensures { result ≡ self.now.failed_reads }
    {
        self.read_faults
    }

    /// How many writes failed.
    pub fn failed_writes(&self) -> u64
        ensures { result ≡ self.now.failed_writes }
    {
        self.write_faults
    }

    /// How many reads and writes there were.
    pub fn calls(&self) -> u64
        ensures { result ≡ self.now.plan.calls }
    {
        self.schedule.calls()
    }
}

/// A copy of at most so many of the first bytes.
fn copy_up_to(alloc: Global, bytes: &[u8], most: usize) -> Result<Vec<u8>, ReadStop>
    ensures copy { IfOk result (λ copy. copy.items ≡ take most bytes.now) }
    ensures memory { IfErr result (λ stop. stop ≡ ReadStop.Memory) }
{
    Vec::from_slice(alloc, &bytes[..bytes.len().min(most)]).map_err(|_| ReadStop::Memory)
}

impl Store for MemoryStore {
    ghost use Rattle.std.specs.Prelude.{Some};
    ghost use Rattle.outside_store.specs.Memory.{find};

    ghost files = { λ store. Some (find store.files) };

    ghost failed_reads = { λ store _. store.failed_reads };

    ghost failed_writes = { λ store _. store.failed_writes };

    fn read(&mut self, alloc: Global, name: &str, limit: usize) -> Result<Vec<u8>, ReadStop>
        requires { limit + 1 < 2 ^ 64 }
        ensures same { SameFiles (Some (find self.old.files)) (Some (find self.new.files)) }
        ensures short { IfOk result (λ v. vec_len v ≤ limit + 1) }
        ensures bytes { IfOk result (λ v. Reads (Some (find self.old.files)) name.now limit v.items) }
        ensures stops { CountsFault (IsErrOf result ReadStop.Failed) name.now
            (λ _. self.old.failed_reads) (λ _. self.new.failed_reads) }
        ensures writes { Still (λ _. self.old.failed_writes) (λ _. self.new.failed_writes) }

        // Exactly when a read fails, and what else a call changes.
        ensures refused { IsErrOf result ReadStop.Failed
            ↔ ((IsNextListed self.old.plan) ⊎ (find self.old.files name.now ≡ None)) }
        ensures failed { IsErrOf result ReadStop.Failed → self.new ≡ record self.old {
          plan = advanced self.old.plan;
          failed_reads = raised self.old.failed_reads;
        } }
        ensures answered { ¬ IsErrOf result ReadStop.Failed
            → self.new ≡ record self.old { plan = advanced self.old.plan } }
    {
        let fails = self.schedule.next_fails();
        match bytes_of(&self.places[..self.used], name.as_bytes()) {
            Some(bytes) if !fails => copy_up_to(alloc, bytes, limit + 1),
            _ => {
                self.read_faults = self.read_faults.saturating_add(1);
                Err(ReadStop::Failed)
            }
        }
    }

    fn write(&mut self, name: &str, bytes: &[u8]) -> Result<(), Failed>
        ensures wrote { Wrote (IsErr result) name.now bytes.now
            (Some (find self.old.files)) (Some (find self.new.files)) }
        ensures stops { CountsFault (IsErr result) name.now
            (λ _. self.old.failed_writes) (λ _. self.new.failed_writes) }
        ensures reads { Still (λ _. self.old.failed_reads) (λ _. self.new.failed_reads) }

        // Exactly when a write fails, and what else a call changes.
        ensures refused { IsErr result
            ↔ ((IsNextListed self.old.plan) ⊎ (IsPastRoom self.old name.now bytes.now)) }
        ensures stored { OnOk result (Stores name.now bytes.now self.old self.new) }
        ensures rest { OnOk result (self.new ≡ record self.old {
          files = self.new.files;
          free = self.new.free;
          plan = advanced self.old.plan;
        }) }
        ensures failed { OnErr result (self.new ≡ record self.old {
          plan = advanced self.old.plan;
          failed_writes = raised self.old.failed_writes;
        }) }
    {
        if self.schedule.next_fails() || self.add(name, bytes).is_err() {
            self.write_faults = self.write_faults.saturating_add(1);
            return Err(Failed);
        }
        Ok(())
    }
}
