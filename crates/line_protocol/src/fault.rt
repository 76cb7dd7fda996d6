ghost use Rattle.std.specs.Prelude.{◌≡◌};
ghost use Rattle.line_protocol.specs.declared.fault.Refusal.TheVariants as refusal;

use std::alloc::{AllocError, AllocFailed};
use thiserror::Error;

/// Why a line has no reading.
#[derive(Clone, Copy, Debug, Error, PartialEq, Eq)]
pub enum LineCode {
    #[error("the measurement is empty")]
    NoMeasurement,
    #[error("a tag has no key, no value or no equals sign")]
    BadTag,
    #[error("two tags have one key")]
    DuplicateTag,
    #[error("there is no field")]
    NoField,
    #[error("a field has no key, no equals sign or no value of a kind")]
    BadField,
    #[error("the value of a field is a float")]
    FloatValue,
    #[error("the value of a field is a string")]
    StringValue,
    #[error("the value of a field is out of range")]
    NumberRange,
    #[error("what follows the fields is no time")]
    BadTime,
    #[error("the time is out of range")]
    TimeRange,
    #[error("the key of a field is too long")]
    KeyTooLong,
    #[error("a mark stands in the series of a field")]
    MarkInKey,
    #[error("a tag or a field is named time")]
    ReservedName,
    #[error("a field has another kind than before")]
    KindInBatch,
    #[error("no line holds a point")]
    NoPoints,
    #[error("the batch is too long")]
    BatchTooLong,
}

/// Why a text was read to no batch. Lines are numbered from 1; the line is 0 where the whole text is meant.
#[derive(Clone, Copy, Debug, Error, PartialEq, Eq)]
pub enum LineFault {
    #[error("line {line}: {code}")]
    Line { code: LineCode, line: u32 },
    #[error("out of memory")]
    Memory,
}

// Why one line was not read.
#[derive(Clone, Copy, Debug, PartialEq, Eq)]
pub enum Refusal {
    Code(LineCode),
    Memory,
}

impl From<AllocError> for Refusal {
    ghost from_gives = { λ _ e. e ≡ refusal.Memory };

    fn from(_: AllocError) -> Self {
        Refusal::Memory
    }
}

impl<T: Drop> From<AllocFailed<T>> for Refusal {
    ghost from_gives = { λ _ e. e ≡ refusal.Memory };

    fn from(_: AllocFailed<T>) -> Self {
        Refusal::Memory
    }
}
