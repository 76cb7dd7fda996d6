// A measurement at the front of what is left.
ghost use Rattle.index_file.specs.Contents.{IsMeasurement, name_cmp};
ghost use Rattle.index_file.specs.Format.{measurement_bytes};
ghost use Rattle.index_file.specs.Taking.{IsBehind, Takes};

use crate::fit::{are_of_fields, are_of_tags};
use crate::rest::Rest;
use crate::take::{take_ids, take_lists, take_name_behind, take_tags};
use crate::{MeasurementIds, Stop};
use std::alloc::Global;
use tsdb_types::Name;

/// A measurement whose name comes behind the last one.
pub fn take_measurement(
    alloc: Global,
    rest: &mut Rest<'_>,
    last: &Option<Name>,
) -> Result<MeasurementIds, Stop>
    ensures { Takes (λ measurement. IsMeasurement measurement × IsBehind name_cmp last.now measurement.name) measurement_bytes result rest.old rest.new }
{
    let name = take_name_behind(alloc, rest, last)?;
    let ids = take_ids(alloc, rest)?;
    let fields = take_lists(alloc, rest)?;
    if !are_of_fields(alloc, ids.as_slice(), fields.as_slice())? {
        return Err(Stop::Wrong);
    }
    let tags = take_tags(alloc, rest)?;
    if !are_of_tags(ids.as_slice(), tags.as_slice()) {
        return Err(Stop::Wrong);
    }
    Ok(MeasurementIds {
        name,
        ids,
        fields,
        tags,
    })
}
