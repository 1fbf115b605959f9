// Standard output as a sink. It does not tell what it took.
ghost use Rattle.std.specs.Prelude.{◌≡◌, ℕ, None, IsErr, OnErr};
ghost use Rattle.outside_store.specs.Causes.{raised};
ghost use Rattle.outside_store.specs.Sinks.{Took, CountFault};

use crate::transfer::write_whole;
use crate::{Failed, Sink};
use std::io;

/// The output that a runtime prints to. Nothing is held back: each put is written before it returns.
#[derive(Drop)]
pub struct OutSink<R: Print + Drop> {
    rt: R,
    failed: u64,
}

impl<R: Print + Drop> OutSink<R> {
    /// The output of this runtime, with no fault counted.
    pub fn new(rt: R) -> OutSink<R>
        ensures { ⟦<OutSink<R> as Sink>⟧.faults result ≡ 0 }
    {
        OutSink { rt, failed: 0 }
    }

    /// How many puts failed.
    pub fn faults(&self) -> u64
        ensures { result ≡ ⟦<OutSink<R> as Sink>⟧.faults self.now }
    {
        self.failed
    }
}

impl<R: Print + Drop> Sink for OutSink<R> {
    ghost use Rattle.std.specs.Prelude.{None};

    ghost taken = { λ _. None };

    ghost faults = { λ sink. sink.failed };

    fn put(&mut self, bytes: &[u8]) -> Result<(), Failed>
        ensures took { Took (IsErr result) bytes.now None None }
        ensures stops { CountFault (IsErr result) self.old.failed self.new.failed }

        // A failed put is counted once; `stops` says that no other is counted.
        ensures counted { OnErr result (self.new.failed ≡ raised self.old.failed) }
    {
        if write_whole(&mut io::writer(&self.rt), bytes) {
            Ok(())
        } else {
            self.failed = self.failed.saturating_add(1);
            Err(Failed)
        }
    }
}
