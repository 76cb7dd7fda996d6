use point_model::Join;
use query_model::{Literal, Op};
use tsdb_types::Name;

/// A comparison in a condition.
#[derive(Drop)]
pub enum Test {
    /// Of a tag or a field with a literal, which is `None` where it is out of range.
    Compare {
        name: Name,
        op: Op,
        literal: Option<Literal>,
    },
    /// Of the time with a moment, in nanoseconds, which is `None` where it or a part of it is out of range.
    Time {
        op: Op,
        moment: Option<i64>,
    },
}

/// A part of the text of a condition.
#[derive(Drop)]
pub enum Piece {
    /// `(`
    Open,
    /// `)`
    Close,
    /// AND or OR
    Join(Join),
    /// A comparison.
    Test(Test),
}
