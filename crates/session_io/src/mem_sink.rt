ghost use Rattle.std.specs.Prelude.{◌≡◌, Some, []};
ghost use Rattle.session_io.specs.Failing.{none_to_come};

use crate::Sink;
use crate::failures::Failures;
use shard_disk::Trouble;
use std::alloc::Global;

/// A sink that keeps its bytes in memory. It tells all.
#[derive(Drop)]
pub struct MemSink {
    bytes: Vec<u8>,
    failures: Failures,
    wants: u64,
}

impl MemSink {
    /// An empty sink. The writes at the places of `failing` fail, counted from 0.
    pub fn new(alloc: Global, failing: Vec<u64>) -> Self
        ensures written { ⟦<MemSink as Sink>⟧.written result ≡ Some [] }
        ensures wants { ⟦<MemSink as Sink>⟧.wants result ≡ 0 }
        ensures health { ⟦<MemSink as Sink>⟧.health result ≡ record { faults = 0; is_steady = none_to_come failing.items 0 } }
    {
        MemSink {
            bytes: Vec::new(alloc),
            failures: Failures::new(failing),
            wants: 0,
        }
    }

    /// The bytes that were written.
    pub fn bytes(&self) -> &[u8]
        ensures { ⟦<MemSink as Sink>⟧.written self.now ≡ Some result.now }
    {
        &self.bytes
    }
}

impl Sink for MemSink {
    ghost written = { λ s. Some s.bytes.items };

    ghost health = { λ s. s.failures };

    ghost wants = { λ s. s.wants };

    fn write(&mut self, bytes: &[u8]) -> Result<usize, Trouble> {
        if self.failures.next_fails() {
            return Err(Trouble::Fault);
        }
        match self.bytes.extend_from_slice(bytes) {
            Ok(()) => Ok(bytes.len()),
            Err(_) => {
                self.wants = self.wants.saturating_add(1);
                Err(Trouble::Memory)
            }
        }
    }
}
