use crate::{Cond, Items};
use point_model::TagKeys;
use tsdb_types::{Name, Time};

/// A SELECT. Its comparisons of time stand in the bounds alone.
#[derive(Drop)]
pub struct Select {
    pub items: Items,
    pub measurement: Name,
    pub cond: Cond,
    /// The first time that counts, where one is given.
    pub lower: Option<Time>,
    /// The last time that counts, where one is given. Where it is before the first, none does.
    pub upper: Option<Time>,
    /// When the statement was read.
    pub moment: Time,
    /// The rows are grouped by all tag keys.
    pub all_tags: bool,
    /// The tags by which the rows are grouped, as they were named.
    pub tags: TagKeys,
    /// The interval of windows, above 0, and their offset, in nanoseconds.
    pub windows: Option<(i64, i64)>,
    pub fill: Fill,
    pub descending: bool,
    /// At most so many rows a table are shown; 0 is no limit.
    pub limit: u32,
    /// So many rows a table are left out before.
    pub offset: u32,
    /// At most so many tables are shown; 0 is no limit.
    pub slimit: u32,
    /// So many tables are left out before.
    pub soffset: u32,
}

/// What stands in a window for an item without a value.
#[derive(Clone, Copy, PartialEq, Eq)]
pub enum Fill {
    /// Nothing, but 0 for a count.
    Null,
    /// A window in which no item has a value is no row.
    None,
    /// The item's value in the nearest earlier row.
    Previous,
    /// This number.
    Number(i64),
}
