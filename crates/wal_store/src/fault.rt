ghost use Rattle.std.specs.Prelude.{◌≡◌};
ghost use Rattle.wal_store.specs.declared.fault.EntryFault.TheVariants as entry_fault;

use std::alloc::{AllocError, AllocFailed};
use thiserror::Error;

/// Why bytes were read as no entry.
#[derive(Clone, Copy, Debug, Error, PartialEq, Eq)]
pub enum EntryFault {
    /// They stand for none.
    #[error("the bytes are no entry")]
    BadEntry,
    #[error("out of memory")]
    Memory,
}

impl From<AllocError> for EntryFault {
    ghost from_gives = { λ _ e. e ≡ entry_fault.Memory };

    fn from(_: AllocError) -> Self {
        EntryFault::Memory
    }
}

impl<T: Drop> From<AllocFailed<T>> for EntryFault {
    ghost from_gives = { λ _ e. e ≡ entry_fault.Memory };

    fn from(_: AllocFailed<T>) -> Self {
        EntryFault::Memory
    }
}
