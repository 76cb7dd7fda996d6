ghost use Rattle.std.specs.Prelude.{ℕ, ◌<◌, List, Option, IfOk, length};
ghost use Rattle.std.specs.Io.{WritesAtMost};
ghost use Rattle.shard_disk.specs.Health.{Health, HasCause};
ghost use Rattle.session_io.specs.Streams.{Grows, CountsWants, moved};

use shard_disk::Trouble;

/// Where the replies to a client go.
pub trait Sink: Send {
    /// The bytes that it has taken so far, where it tells them.
    ghost written: { Self → Option (List ℕ) };

    ghost health: { Self → Health };

    /// How often it refused bytes for want of memory. The count stays at its greatest value.
    ghost wants: { Self → ℕ };

    /// Takes a front of the bytes, and answers its length. Of bytes it takes at least one, or fails.
    fn write(&mut self, bytes: &[u8]) -> Result<usize, Trouble>
        ensures count { WritesAtMost result bytes.now }
        ensures progress { IfOk result (λ count. 0 < length bytes.now → 0 < count) }
        ensures written { Grows (written self.old) (written self.new) (moved result bytes.now) }
        ensures fault { HasCause result (health self.old) (health self.new) }
        ensures wants { CountsWants result (wants self.old) (wants self.new) };
}
