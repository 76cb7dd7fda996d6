use crate::{Name, SeriesKey};

/// A series and a field of it. The points of a column differ in time and value alone.
#[derive(Debug, Drop, PartialEq, Eq, Hash)]
pub struct Column {
    pub series: SeriesKey,
    pub field: Name,
}
