ghost use Rattle.std.specs.Prelude.{◌≡◌};
ghost use Rattle.tsdb_types.specs.declared.block.BlockFault.TheVariants as block_fault;

use std::alloc::{AllocError, AllocFailed};
use thiserror::Error;

/// Why the bytes of a block, or of a list of times or of values in it, were not decoded.
#[derive(Clone, Copy, Debug, Error, PartialEq, Eq)]
pub enum BlockFault {
    /// The type byte of a block is none of integer, Boolean and unsigned.
    #[error("a block of type {byte} is not known")]
    BadKind { byte: u8 },
    /// The bytes are not what the encoder writes for any list.
    #[error("the bytes are no block")]
    BadBlock,
    /// There was no memory for the call.
    #[error("out of memory")]
    Memory,
}

impl From<AllocError> for BlockFault {
    ghost from_gives = { λ _ e. e ≡ block_fault.Memory };

    fn from(_: AllocError) -> Self {
        BlockFault::Memory
    }
}

impl<T: Drop> From<AllocFailed<T>> for BlockFault {
    ghost from_gives = { λ _ e. e ≡ block_fault.Memory };

    fn from(_: AllocFailed<T>) -> Self {
        BlockFault::Memory
    }
}
