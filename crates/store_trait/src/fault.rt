ghost use Rattle.std.specs.Prelude.{◌≡◌};
ghost use Rattle.store_trait.specs.declared.fault.WriteFault.TheVariants as write_fault;
ghost use Rattle.store_trait.specs.declared.fault.DeleteFault.TheVariants as delete_fault;
ghost use Rattle.store_trait.specs.declared.fault.ViewFault.TheVariants as view_fault;

use std::alloc::{AllocError, AllocFailed};
use thiserror::Error;
use tsdb_types::{Kind, Name};

/// Why a batch was refused. Where several causes stand together, the earlier variant is answered.
#[derive(Debug, Drop, Error, PartialEq)]
pub enum WriteFault {
    /// A field of the batch has values of another kind behind the entry with this number.
    #[error("a field has values of another kind at {number}")]
    TypeConflict {
        field: Name,
        held: Kind,
        number: u64,
    },
    /// The last number, 9223372036854775807, is given.
    #[error("the last number is given")]
    HistoryFull,
    /// The new series of the batch would pass the limit on series.
    #[error("{held} series are held")]
    SeriesFull {
        held: u64,
    },
    /// The points of the batch would pass the limit on points in memory.
    #[error("{held} points are cached")]
    CacheFull {
        held: u64,
    },
    /// There was no memory for the call.
    #[error("out of memory")]
    Memory,
    /// A device failed.
    #[error("a device failed")]
    Fault,
}

impl From<AllocError> for WriteFault {
    ghost from_gives = { λ _ e. e ≡ write_fault.Memory };

    fn from(_: AllocError) -> Self {
        WriteFault::Memory
    }
}

impl<T: Drop> From<AllocFailed<T>> for WriteFault {
    ghost from_gives = { λ _ e. e ≡ write_fault.Memory };

    fn from(_: AllocFailed<T>) -> Self {
        WriteFault::Memory
    }
}

/// Why a deletion was refused.
#[derive(Clone, Copy, Debug, Error, PartialEq, Eq)]
pub enum DeleteFault {
    /// The last number, 9223372036854775807, is given.
    #[error("the last number is given")]
    HistoryFull,
    /// There was no memory for the call.
    #[error("out of memory")]
    Memory,
    /// A device failed.
    #[error("a device failed")]
    Fault,
}

impl From<AllocError> for DeleteFault {
    ghost from_gives = { λ _ e. e ≡ delete_fault.Memory };

    fn from(_: AllocError) -> Self {
        DeleteFault::Memory
    }
}

impl<T: Drop> From<AllocFailed<T>> for DeleteFault {
    ghost from_gives = { λ _ e. e ≡ delete_fault.Memory };

    fn from(_: AllocFailed<T>) -> Self {
        DeleteFault::Memory
    }
}

/// Why no view was begun.
#[derive(Clone, Copy, Debug, Error, PartialEq, Eq)]
pub enum ViewFault {
    /// So many views are out.
    #[error("{out} views are out")]
    TooManyViews { out: u32 },
    /// There was no memory for the call.
    #[error("out of memory")]
    Memory,
    /// A device failed.
    #[error("a device failed")]
    Fault,
}

impl From<AllocError> for ViewFault {
    ghost from_gives = { λ _ e. e ≡ view_fault.Memory };

    fn from(_: AllocError) -> Self {
        ViewFault::Memory
    }
}

impl<T: Drop> From<AllocFailed<T>> for ViewFault {
    ghost from_gives = { λ _ e. e ≡ view_fault.Memory };

    fn from(_: AllocFailed<T>) -> Self {
        ViewFault::Memory
    }
}
