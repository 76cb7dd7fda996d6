use line_protocol::LineCode;
use point_model::Deletion;
use tsdb_types::{Batch, Name};

/// Why a request is refused before any point is looked at.
#[derive(Clone, Copy, Debug, PartialEq, Eq)]
pub enum Refusal {
    /// The line with this number, from 1, is no line of line protocol; or the whole text is none, where it is 0.
    Protocol { code: LineCode, line: u32 },
    /// A line has more than 65,536 bytes without its end.
    LineTooLong,
    /// The input ends before the last line of a BATCH.
    BatchCut,
    /// A line is no UTF-8.
    NotText,
    /// A statement has no reading by the grammar.
    Syntax,
    /// It has one, in which a comparison of time stands under an OR.
    TimeInOr,
    /// It has one with a number, a duration or a moment out of range.
    NumberRange,
}

/// What a request asks for.
#[derive(Debug, Drop)]
pub enum Statement {
    /// Writes the points of a batch.
    Write(Batch),
    /// Takes points of a measurement away.
    Delete(Deletion),
    /// Reads a field of a measurement, over all its series and all times.
    Select { field: Name, measurement: Name },
    /// Asks whether the history has come to this number.
    After(u64),
    /// Nothing, since it is refused.
    Refused(Refusal),
    /// Nothing that is built.
    NotBuilt,
}
