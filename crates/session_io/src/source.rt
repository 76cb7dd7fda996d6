ghost use Rattle.std.specs.Prelude.{◌≡◌, ℕ, Bool, ◌||◌, List, Option, IsTrue};
ghost use Rattle.std.specs.Io.{ReadsAtMost};
ghost use Rattle.std.specs.Io.KnownBytes.{IsAtEnd};
ghost use Rattle.shard_disk.specs.Health.{Health, FaultHasCause};
ghost use Rattle.session_io.specs.Streams.{Grows, Shrinks, SpendsReads, moved, tells_end};

use shard_disk::Fault;

/// Where the bytes of a client come from.
pub trait Source: Send {
    /// The bytes that it has given so far, where it tells them.
    ghost given: { Self → Option (List ℕ) };

    /// The bytes that it has left to give, where it tells them.
    ghost left: { Self → Option (List ℕ) };

    /// Whether a read with room has answered that no byte is left.
    ghost ended: { Self → Bool };

    /// How many reads may still give bytes.
    ghost reads_left: { Self → ℕ };

    ghost health: { Self → Health };

    /// Fills a front of the buffer, and answers its length. Where there is room, 0 says that the input has ended.
    fn read(&mut self, buffer: &mut [u8]) -> Result<usize, Fault>
        ensures count { ReadsAtMost result buffer.new }
        ensures given { Grows (given self.old) (given self.new) (moved result buffer.new) }
        ensures left { Shrinks (left self.old) (left self.new) (moved result buffer.new) }
        ensures ended { ended self.new ≡ (ended self.old || tells_end result buffer.new) }
        ensures at_end { IsTrue (tells_end result buffer.new) → IsAtEnd (left self.old) }
        ensures spends { SpendsReads (reads_left self.old) (reads_left self.new) result }
        ensures fault { FaultHasCause result (health self.old) (health self.new) };
}
