ghost use Rattle.std.specs.Prelude.{◌≡◌};
ghost use Rattle.point_model.specs.declared.fault.CursorFault.TheVariants as cursor_fault;

use shard_disk::{Damage, Fault};
use std::alloc::{AllocError, AllocFailed};
use thiserror::Error;

/// Why a cursor gave no point. After a fault it may only be ended.
#[derive(Clone, Copy, Debug, Error, PartialEq, Eq)]
pub enum CursorFault {
    /// A device that the cursor reads from failed.
    #[error("a device failed")]
    Fault,
    /// Bytes that it read are wrong.
    #[error("{0}")]
    Damaged(Damage),
    /// There was no memory for the call.
    #[error("out of memory")]
    Memory,
}

impl From<Fault> for CursorFault {
    ghost from_gives = { λ _ e. e ≡ cursor_fault.Fault };

    fn from(_: Fault) -> Self {
        CursorFault::Fault
    }
}

impl From<AllocError> for CursorFault {
    ghost from_gives = { λ _ e. e ≡ cursor_fault.Memory };

    fn from(_: AllocError) -> Self {
        CursorFault::Memory
    }
}

impl<T: Drop> From<AllocFailed<T>> for CursorFault {
    ghost from_gives = { λ _ e. e ≡ cursor_fault.Memory };

    fn from(_: AllocFailed<T>) -> Self {
        CursorFault::Memory
    }
}
