// Files by name and an output, as a program meets them: each call may fail, and says so by a count.
#![tactic(auto)]

use std::alloc::Global;

mod bounded_bytes;
mod failure_plan;
mod file_store;
mod memory_sink;
mod memory_store;
mod named_file;
mod out_sink;
mod transfer;

pub use bounded_bytes::NoRoom;
pub use file_store::FileStore;
pub use memory_sink::MemorySink;
pub use memory_store::{MemoryStore, Room};
pub use out_sink::OutSink;

/// A write that the outside refused.
#[derive(Clone, Copy, PartialEq, Eq, Debug)]
pub struct Failed;

/// Why a read gave no bytes: the outside refused it, or there was no memory for them.
#[derive(Clone, Copy, PartialEq, Eq, Debug)]
pub enum ReadStop {
    Failed,
    Memory,
}

/// Bytes by name.
///
/// A store may tell its files to contracts, and then tells them after each call too.
/// For each name it counts the reads that failed and the writes that failed; it may use one number for all names.
/// No count ever falls, and one at the end of its 64 bits, which stays there, is taken as risen.
pub trait Store {
    ghost use Rattle.std.specs.Prelude.{◌≡◌, ℕ, ◌<◌, ◌≤◌, ◌+◌, ◌^◌, List, Option, vec_len, IfOk, IsErr};
    ghost use Rattle.std.specs.Result.{IsErrOf};
    ghost use Rattle.outside_store.specs.Causes.{CountsFault, Still};
    ghost use Rattle.outside_store.specs.Files.{Files, SameFiles, Reads, Wrote};

    // The files, where the store tells them.
    ghost files: { Self → Option Files };

    // How many reads of a name failed.
    ghost failed_reads: { Self → List ℕ → ℕ };

    // How many writes of a name failed.
    ghost failed_writes: { Self → List ℕ → ℕ };

    /// The whole of a file, cut after its first `limit + 1` bytes.
    ///
    /// So a file of more than `limit` bytes shows as one.
    /// Want of memory may be answered for any name; a name that is not there is otherwise a failed read.
    fn read(&mut self, alloc: Global, name: &str, limit: usize) -> Result<Vec<u8>, ReadStop>
        requires { limit + 1 < 2 ^ 64 }
        ensures same { SameFiles (files self.old) (files self.new) }
        ensures short { IfOk result (λ v. vec_len v ≤ limit + 1) }
        ensures bytes { IfOk result (λ v. Reads (files self.old) name.now limit v.items) }
        ensures stops { CountsFault (IsErrOf result ReadStop.Failed) name.now
            (failed_reads self.old) (failed_reads self.new) }
        ensures writes { Still (failed_writes self.old) (failed_writes self.new) };

    /// Gives a name these bytes in place of what it had.
    ///
    /// After a failed write the name has what it had, or a prefix of the bytes.
    fn write(&mut self, name: &str, bytes: &[u8]) -> Result<(), Failed>
        ensures wrote { Wrote (IsErr result) name.now bytes.now (files self.old) (files self.new) }
        ensures stops { CountsFault (IsErr result) name.now
            (failed_writes self.old) (failed_writes self.new) }
        ensures reads { Still (failed_reads self.old) (failed_reads self.new) };
}

/// An output, which takes bytes one piece after another.
///
/// A sink may tell contracts what it took, and then tells it after each call too.
/// It counts the pieces that it refused; the count never falls, and at the end of its 64 bits, where it stays, is taken as risen.
pub trait Sink {
    ghost use Rattle.std.specs.Prelude.{◌≡◌, ℕ, List, Option, IsErr};
    ghost use Rattle.outside_store.specs.Sinks.{Took, CountFault};

    // The bytes taken so far, where the sink tells them.
    ghost taken: { Self → Option (List ℕ) };

    // How many pieces were refused.
    ghost faults: { Self → ℕ };

    /// Takes a piece whole, or fails after a prefix of it.
    fn put(&mut self, bytes: &[u8]) -> Result<(), Failed>
        ensures took { Took (IsErr result) bytes.now (taken self.old) (taken self.new) }
        ensures stops { CountFault (IsErr result) (faults self.old) (faults self.new) };
}
