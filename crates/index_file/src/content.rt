use crate::{Ids, Measurements, NameLists, TagLists};
use tsdb_types::Name;

/// What an index holds of all measurements, in the order of their names.
#[derive(Debug, Drop)]
pub struct Content {
    pub measurements: Measurements,
}

/// What an index holds of one measurement.
#[derive(Debug, Drop)]
pub struct MeasurementIds {
    pub name: Name,
    /// The series of the measurement that have a field.
    pub ids: Ids,
    /// For each field the series that have it, in the order of the fields' keys.
    pub fields: NameLists,
    /// For each tag its values, in the order of the tags' keys.
    pub tags: TagLists,
}

/// A field key, or a tag's value, and the series that have it.
#[derive(Debug, Drop)]
pub struct NameIds {
    pub name: Name,
    pub ids: Ids,
}

/// A tag key, and for each value of that tag the series that have it, in the order of the values.
#[derive(Debug, Drop)]
pub struct TagIds {
    pub key: Name,
    pub values: NameLists,
}
