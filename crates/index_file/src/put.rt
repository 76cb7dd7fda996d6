ghost use Rattle.std.specs.Prelude.{◌≡◌, ◌++◌, ◌<◌, ◌^◌, length, OnOk, IfOk};
ghost use Rattle.fixed_width.specs.Fields.{bytes_of_u32};
ghost use Rattle.index_file.specs.Contents.{AreIds, AreNamed, AreTags, IsContent, IsMeasurement, IsNamed, IsTag, IsText};
ghost use Rattle.index_file.specs.Format.{counted_bytes, file_of, front_bytes, ids_bytes, measurement_bytes, named_bytes, tag_bytes, text_bytes};

use crate::frame::HEAD;
use crate::{Content, MeasurementIds, NameIds, TagIds};
use fixed_width::{put_u16, put_u32};
use std::alloc::{AllocError, Global};
use tsdb_types::Name;
use word_codec::crc32;

/// The file of a content: the head, the count of measurements and their bytes, and behind these the checksum.
pub fn write(alloc: Global, content: &Content) -> Result<Vec<u8>, AllocError>
    requires { IsContent content.now }
    ensures { IfOk result (λ bytes. bytes.items ≡ file_of content.now) }
{
    let mut out = Vec::new(alloc);
    put_front(&mut out, content)?;
    let sum = crc32(&out);
    put_u32(&mut out, sum)?;
    Ok(out)
}

fn put_front(out: &mut Vec<u8>, content: &Content) -> Result<(), AllocError>
    requires { IsContent content.now }
    ensures { OnOk result (out.new.items ≡ out.old.items ++ front_bytes content.now) }
{
    out.extend_from_slice(&HEAD)?;
    put_measurements(out, content.measurements.as_slice())
}

fn put_measurements(out: &mut Vec<u8>, measurements: &[MeasurementIds]) -> Result<(), AllocError>
    requires { IsContent (record { measurements = measurements.now }) }
    ensures { OnOk result (out.new.items ≡ out.old.items ++ counted_bytes measurement_bytes measurements.now) }
{
    put_u32(out, measurements.len() as u32)?;
    for measurement in measurements {
        put_measurement(out, measurement)?;
    }
    Ok(())
}

fn put_measurement(out: &mut Vec<u8>, measurement: &MeasurementIds) -> Result<(), AllocError>
    requires { IsMeasurement measurement.now }
    ensures { OnOk result (out.new.items ≡ out.old.items ++ measurement_bytes measurement.now) }
{
    put_name(out, &measurement.name)?;
    put_ids(out, measurement.ids.as_slice())?;
    put_lists(out, measurement.fields.as_slice())?;
    put_tags(out, measurement.tags.as_slice())
}

fn put_name(out: &mut Vec<u8>, name: &Name) -> Result<(), AllocError>
    requires { length name.now < 2 ^ 16 }
    ensures { OnOk result (out.new.items ≡ out.old.items ++ text_bytes name.now) }
{
    let text = name.as_str().as_bytes();
    put_u16(out, text.len() as u16)?;
    out.extend_from_slice(text)
}

fn put_ids(out: &mut Vec<u8>, ids: &[u32]) -> Result<(), AllocError>
    requires { length ids.now < 2 ^ 32 }
    ensures { OnOk result (out.new.items ≡ out.old.items ++ ids_bytes ids.now) }
{
    put_u32(out, ids.len() as u32)?;
    for id in ids {
        put_u32(out, *id)?;
    }
    Ok(())
}

// Fields, or the values of a tag.
fn put_lists(out: &mut Vec<u8>, lists: &[NameIds]) -> Result<(), AllocError>
    requires { AreNamed lists.now }
    ensures { OnOk result (out.new.items ≡ out.old.items ++ counted_bytes named_bytes lists.now) }
{
    put_u32(out, lists.len() as u32)?;
    for list in lists {
        put_list(out, list)?;
    }
    Ok(())
}

fn put_list(out: &mut Vec<u8>, list: &NameIds) -> Result<(), AllocError>
    requires { IsNamed list.now }
    ensures { OnOk result (out.new.items ≡ out.old.items ++ named_bytes list.now) }
{
    put_name(out, &list.name)?;
    put_ids(out, list.ids.as_slice())
}

fn put_tags(out: &mut Vec<u8>, tags: &[TagIds]) -> Result<(), AllocError>
    requires { AreTags tags.now }
    ensures { OnOk result (out.new.items ≡ out.old.items ++ counted_bytes tag_bytes tags.now) }
{
    put_u32(out, tags.len() as u32)?;
    for tag in tags {
        put_tag(out, tag)?;
    }
    Ok(())
}

fn put_tag(out: &mut Vec<u8>, tag: &TagIds) -> Result<(), AllocError>
    requires { IsTag tag.now }
    ensures { OnOk result (out.new.items ≡ out.old.items ++ tag_bytes tag.now) }
{
    put_name(out, &tag.key)?;
    put_lists(out, tag.values.as_slice())
}
