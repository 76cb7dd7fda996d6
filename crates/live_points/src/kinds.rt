// The kind that the points of a key, or of a field of a measurement, have.
ghost use Rattle.std.specs.Prelude.{◌≡◌, IfOk};
ghost use Rattle.live_points.specs.Held as held;
ghost use Rattle.live_points.specs.Known.{kind_in};

use crate::keys::write_key;
use crate::samples::Samples;
use point_cache::PointCache;
use std::alloc::AllocError;
use store_trait::Heading;
use tsdb_types::{Kind, Name, SeriesKey, Time, Value};

// The kind of the points of a key; none where it has none. The composite key is written into the buffer.
pub(crate) fn kind_at(
    cache: &PointCache,
    buffer: &mut Vec<u8>,
    series: &SeriesKey,
    field: &Name,
) -> Result<Option<Kind>, AllocError>
    ensures { IfOk result (λ kind. kind ≡ held.kind_at cache.now.runs (series.now, field.now)) }
{
    write_key(buffer, series, field)?;
    Ok(first_kind(cache.rows_of(buffer.as_slice())))
}

pub(crate) fn first_kind(rows: &[(Time, Value)]) -> Option<Kind>
    ensures { result ≡ held.first_kind rows.now }
{
    match rows.split_first() {
        None => None,
        Some(((_time, value), _behind)) => Some(value.kind()),
    }
}

// The kind of a field of a measurement, by its sample.
pub(crate) fn kind_of_field(
    cache: &PointCache,
    samples: &Samples,
    buffer: &mut Vec<u8>,
    heading: &Heading,
    field: &Name,
) -> Result<Option<Kind>, AllocError>
    ensures { IfOk result (λ kind. kind ≡ kind_in cache.now.runs samples.now heading.now field.now) }
{
    match samples.get(heading) {
        None => Ok(None),
        Some(fields) => match fields.get(field) {
            None => Ok(None),
            Some(series) => kind_at(cache, buffer, series, field),
        },
    }
}
