ghost use Rattle.std.specs.Prelude.{ℤ, List, [], ◌∷◌, Option};
ghost use Rattle.session_io.specs.Streams.{Grows};

use tsdb_types::Time;

/// Tells the moment. It can't fail.
pub trait Clock: Send {
    /// The moments that it has told so far, where it tells them.
    ghost moments: { Self → Option (List ℤ) };

    /// The moment now, in nanoseconds from the beginning of 1970. It may be earlier than the last one.
    fn now(&mut self) -> Time
        ensures moments { Grows (moments self.old) (moments self.new) (result ∷ []) };
}
