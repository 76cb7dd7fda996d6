ghost use Rattle.std.specs.Prelude.{◌≡◌};
ghost use Rattle.shard_disk.specs.declared.damage.FormatFault.TheVariants as fault;

use std::alloc::{AllocError, AllocFailed};
use thiserror::Error;

/// What is wrong with the bytes of a file.
#[derive(Clone, Copy, Debug, Error, PartialEq, Eq)]
pub enum Why {
    /// The directory isn't empty and has no manifest.
    #[error("no manifest")]
    NoManifest,
    /// A file that is named isn't there.
    #[error("missing")]
    Missing,
    /// The first bytes aren't those of a file of its kind.
    #[error("wrong head")]
    Head,
    /// The last bytes don't lead to an index.
    #[error("wrong foot")]
    Foot,
    /// The index isn't one, or a key of it isn't.
    #[error("wrong keys")]
    Keys,
    /// The bytes of a block are no block.
    #[error("wrong block")]
    Block,
    /// The checksum that is stored isn't the one that the bytes have.
    #[error("checksum {stored:08x} is stored, {computed:08x} computed")]
    Sum { stored: u32, computed: u32 },
    /// The bytes of a record are none.
    #[error("wrong body")]
    Body,
    /// The number of an entry doesn't follow the one before.
    #[error("wrong number")]
    Number,
}

impl Why {
    ghost use Rattle.shard_disk.specs.Damage.{name_of};

    /// The name of the variant alone, as a status line shows it.
    pub fn name(&self) -> &'static str
        ensures { result.now ≡ name_of self.now }
    {
        match self {
            Why::NoManifest => "NoManifest",
            Why::Missing => "Missing",
            Why::Head => "Head",
            Why::Foot => "Foot",
            Why::Keys => "Keys",
            Why::Block => "Block",
            Why::Sum { .. } => "Sum",
            Why::Body => "Body",
            Why::Number => "Number",
        }
    }
}

/// Where the bytes of a file are wrong, and why.
#[derive(Clone, Copy, Debug, Error, PartialEq, Eq)]
#[error("file {file}, offset {offset}: {why}")]
pub struct Damage {
    /// The number of the file.
    pub file: u32,
    /// The place in it, in bytes from its beginning.
    pub offset: u64,
    pub why: Why,
}

/// Why bytes that are in memory couldn't be read as a file of their kind.
#[derive(Clone, Copy, Debug, Error, PartialEq, Eq)]
pub enum FormatFault {
    #[error("{0}")]
    Damaged(Damage),
    #[error("out of memory")]
    Memory,
}

impl From<AllocError> for FormatFault {
    ghost from_gives = { λ _ e. e ≡ fault.Memory };

    fn from(_: AllocError) -> Self {
        FormatFault::Memory
    }
}

impl<T: Drop> From<AllocFailed<T>> for FormatFault {
    ghost from_gives = { λ _ e. e ≡ fault.Memory };

    fn from(_: AllocFailed<T>) -> Self {
        FormatFault::Memory
    }
}
