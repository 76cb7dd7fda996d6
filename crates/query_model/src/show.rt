use tsdb_types::Name;

/// What is to be listed: of all measurements, or of one.
#[derive(Drop)]
pub enum Show {
    /// The measurements that have points.
    Measurements,
    /// The series.
    Series(Option<Name>),
    /// The keys of the tags that the series have.
    TagKeys(Option<Name>),
    /// The values of the tags with one key.
    TagValues(Option<Name>, Name),
    /// The fields with the kinds of their values.
    FieldKeys(Option<Name>),
    /// The files of the store.
    Files,
}
