use tsdb_types::{Name, SeriesKey};

/// A series and a field that are added to an index or removed from it.
#[derive(Debug, Drop)]
pub struct IndexChange {
    /// Whether the pair is added.
    pub add: bool,
    /// The id of the series.
    pub id: u32,
    pub series: SeriesKey,
    pub field: Name,
}
