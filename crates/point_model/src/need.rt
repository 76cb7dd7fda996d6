use crate::TagCond;
use tsdb_types::{Name, Time};

/// What a query asks of the points.
#[derive(Debug, Drop)]
pub struct Need {
    /// The points are those of its series.
    pub measurement: Name,
    /// The series meet it.
    pub tags: TagCond,
    /// The first time that counts.
    pub from: Time,
    /// The last time that counts. Where it is before the first, none does.
    pub to: Time,
    /// Whether later points come before earlier ones.
    pub descending: bool,
}
