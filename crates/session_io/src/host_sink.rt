ghost use Rattle.std.specs.Prelude.{◌≡◌, None, false};

use crate::Sink;
use shard_disk::Trouble;
use std::io::Write;

/// A writer of the system as a sink. It tells nothing of its content.
#[derive(Drop)]
pub struct HostSink<W> {
    inner: W,
    faults: u64,
}

impl<W: Write + Send> HostSink<W> {
    /// Nothing was written to it.
    pub fn new(inner: W) -> Self
        ensures written { ⟦<HostSink<W> as Sink>⟧.written result ≡ None }
        ensures health { ⟦<HostSink<W> as Sink>⟧.health result ≡ record { faults = 0; is_steady = false } }
    {
        HostSink { inner, faults: 0 }
    }
}

impl<W: Write + Send> Sink for HostSink<W> {
    ghost written = { λ s. None };

    // What the system will do isn't known.
    ghost health = { λ s. record { faults = s.faults; is_steady = false } };

    // A refusal of the system counts as a fault.
    ghost wants = { λ _. 0 };

    fn write(&mut self, bytes: &[u8]) -> Result<usize, Trouble> {
        if let Ok(count) = self.inner.write(bytes)
            && (count > 0 || bytes.is_empty())
        {
            return Ok(count);
        }
        self.faults = self.faults.saturating_add(1);
        Err(Trouble::Fault)
    }
}
