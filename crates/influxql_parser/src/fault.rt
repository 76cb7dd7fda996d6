ghost use Rattle.std.specs.Prelude.{◌≡◌};
ghost use Rattle.influxql_parser.specs.declared.fault.ReadFault.TheVariants as fault;

use std::alloc::{AllocError, AllocFailed};
use thiserror::Error;

/// Why a text is no statement that can be answered.
#[derive(Clone, Copy, Debug, Error, PartialEq, Eq)]
pub enum ReadFault {
    /// The grammar has no reading of the text.
    #[error("the text is no statement")]
    Syntax,
    /// It has one, in which a comparison of time stands under an OR.
    #[error("a comparison of time stands under an OR")]
    TimeInOr,
    /// It has one with a number, a duration or a moment that 64 bits with a sign don't hold.
    #[error("a number or a moment is out of range")]
    NumberRange,
    #[error("out of memory")]
    Memory,
}

impl From<AllocError> for ReadFault {
    ghost from_gives = { λ _ e. e ≡ fault.Memory };

    fn from(_: AllocError) -> Self {
        ReadFault::Memory
    }
}

impl<T: Drop> From<AllocFailed<T>> for ReadFault {
    ghost from_gives = { λ _ e. e ≡ fault.Memory };

    fn from(_: AllocFailed<T>) -> Self {
        ReadFault::Memory
    }
}
