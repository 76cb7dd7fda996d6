ghost use Rattle.std.specs.Prelude.{◌≡◌};
ghost use Rattle.simple8b.specs.declared.fault.WordsFault.TheVariants as fault;

use std::alloc::{AllocError, AllocFailed};
use thiserror::Error;

/// Why words were not decoded.
#[derive(Clone, Copy, Debug, Error, PartialEq, Eq)]
pub enum WordsFault {
    /// The encoder writes these words for no list of so many values.
    #[error("the words are not those of a list")]
    BadWords,
    /// There was no memory for the call.
    #[error("out of memory")]
    Memory,
}

impl From<AllocError> for WordsFault {
    ghost from_gives = { λ _ e. e ≡ fault.Memory };

    fn from(_: AllocError) -> Self {
        WordsFault::Memory
    }
}

impl<T: Drop> From<AllocFailed<T>> for WordsFault {
    ghost from_gives = { λ _ e. e ≡ fault.Memory };

    fn from(_: AllocFailed<T>) -> Self {
        WordsFault::Memory
    }
}
