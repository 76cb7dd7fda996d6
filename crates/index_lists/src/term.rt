use tsdb_types::Name;

/// What the series of an index are listed by.
#[derive(Debug, Drop, PartialEq, Eq, Hash)]
pub enum Term {
    /// The measurement.
    Measurement(Name),
    /// The measurement, and a field in which the series has points.
    Field(Name, Name),
    /// The measurement, and the key of a tag of the series.
    TagKey(Name, Name),
    /// The measurement, and the key and the value of a tag of the series.
    TagValue(Name, Name, Name),
}
