ghost use Rattle.std.specs.Prelude.{◌≡◌, ◌^◌, ◌-◌, None, false};

use crate::Source;
use shard_disk::Fault;
use std::io::Read;

/// A reader of the system as a source. It tells nothing of its content.
#[derive(Drop)]
pub struct HostSource<R> {
    inner: R,
    reads_left: u64,
    faults: u64,
    ended: bool,
}

impl<R: Read + Send> HostSource<R> {
    /// Nothing was read from it. It may give bytes 2^64 - 1 times.
    pub fn new(inner: R) -> Self
        ensures given { ⟦<HostSource<R> as Source>⟧.given result ≡ None }
        ensures ended { ⟦<HostSource<R> as Source>⟧.ended result ≡ false }
        ensures reads { ⟦<HostSource<R> as Source>⟧.reads_left result ≡ 2 ^ 64 - 1 }
        ensures health { ⟦<HostSource<R> as Source>⟧.health result ≡ record { faults = 0; is_steady = false } }
    {
        HostSource {
            inner,
            reads_left: u64::MAX,
            faults: 0,
            ended: false,
        }
    }
}

impl<R: Read + Send> Source for HostSource<R> {
    ghost given = { λ s. None };

    ghost left = { λ s. None };

    ghost ended = { λ s. s.ended };

    ghost reads_left = { λ s. s.reads_left };

    // What the system will do isn't known.
    ghost health = { λ s. record { faults = s.faults; is_steady = false } };

    fn read(&mut self, buffer: &mut [u8]) -> Result<usize, Fault> {
        if self.reads_left > 0
            && let Ok(count) = self.inner.read(buffer)
        {
            if count > 0 {
                self.reads_left -= 1;
            } else if !buffer.is_empty() {
                self.ended = true;
            }
            return Ok(count);
        }
        self.faults = self.faults.saturating_add(1);
        Err(Fault)
    }
}
