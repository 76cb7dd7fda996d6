ghost use Rattle.std.specs.Prelude.{◌≡◌, ◌-◌, ◌≤◌, length, min, take, drop, Some, [], false};
ghost use Rattle.session_io.specs.Failing.{none_to_come};

use crate::Source;
use crate::failures::Failures;
use shard_disk::Fault;

/// A source of bytes in memory. It tells all.
#[derive(Drop)]
pub struct MemSource {
    bytes: Vec<u8>,
    at: usize,
    ended: bool,
    failures: Failures,
    ghost within: { at ≤ length bytes.items },
}

impl MemSource {
    /// A source of these bytes. The reads at the places of `failing` fail, counted from 0.
    pub fn new(bytes: Vec<u8>, failing: Vec<u64>) -> Self
        ensures given { ⟦<MemSource as Source>⟧.given result ≡ Some [] }
        ensures left { ⟦<MemSource as Source>⟧.left result ≡ Some bytes.items }
        ensures ended { ⟦<MemSource as Source>⟧.ended result ≡ false }
        ensures health { ⟦<MemSource as Source>⟧.health result ≡ record { faults = 0; is_steady = none_to_come failing.items 0 } }
    {
        MemSource {
            bytes,
            at: 0,
            ended: false,
            failures: Failures::new(failing),
        }
    }
}

impl Source for MemSource {
    ghost given = { λ s. Some (take s.at s.bytes.items) };

    ghost left = { λ s. Some (drop s.at s.bytes.items) };

    ghost ended = { λ s. s.ended };

    ghost reads_left = { λ s. length s.bytes.items - s.at };

    ghost health = { λ s. s.failures };

    fn read(&mut self, buffer: &mut [u8]) -> Result<usize, Fault> {
        if self.failures.next_fails() {
            return Err(Fault);
        }
        let (_, rest) = self.bytes.split_at(self.at);
        let count = copy_front(buffer, rest);
        if count == 0 && !buffer.is_empty() {
            self.ended = true;
        }
        self.at += count;
        Ok(count)
    }
}

// Copies as many bytes as both have.
fn copy_front(buffer: &mut [u8], bytes: &[u8]) -> usize
    ensures count { result ≡ min (length bytes.now) (length buffer.old) }
    ensures copied { take result buffer.new ≡ take result bytes.now }
{
    let count = bytes.len().min(buffer.len());
    buffer[..count].copy_from_slice(&bytes[..count]);
    count
}
