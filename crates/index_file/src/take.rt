// Names, ids and lists at the front of what is left.
ghost use Rattle.std.specs.Prelude.{◌≡◌, ◌<◌, ◌^◌, ◌↔◌, Option, Some, None, IfOk, IsErrOf, IsTrue};
ghost use Rattle.std.specs.Ordering.{nat_cmp};
ghost use Rattle.std.specs.Str.{IsUtf8};
ghost use Rattle.tsdb_types.specs.Names.{IsName};
ghost use Rattle.fixed_width.specs.Fields.{bytes_of_u32};
ghost use Rattle.index_file.specs.Contents.{AreIds, AreNamed, AreTags, IsNamed, IsTag, IsText, name_cmp};
ghost use Rattle.index_file.specs.Format.{counted_bytes, ids_bytes, named_bytes, tag_bytes, text_bytes};
ghost use Rattle.index_file.specs.Taking.{IsBehind, Takes};

use crate::rest::Rest;
use crate::{Ids, NameIds, NameLists, Stop, TagIds, TagLists};
use std::alloc::Global;
use tsdb_types::{Name, NameFault};

/// A name behind its length.
pub fn take_name(alloc: Global, rest: &mut Rest<'_>) -> Result<Name, Stop>
    ensures { Takes IsText text_bytes result rest.old rest.new }
{
    let len = rest.take_u16()?;
    let text = rest.take_bytes(len as usize)?;
    name_of(alloc, text)
}

fn name_of(alloc: Global, bytes: &[u8]) -> Result<Name, Stop>
    ensures text { IfOk result (λ name. name ≡ bytes.now) }
    ensures named { IfOk result (λ name. IsName bytes.now × IsUtf8 bytes.now) }
    ensures wrong { IsErrOf result Stop.Wrong → ¬ (IsName bytes.now × IsUtf8 bytes.now) }
{
    let Ok(text) = str::from_utf8(bytes) else {
        return Err(Stop::Wrong);
    };
    match Name::new(alloc, text) {
        Ok(name) => Ok(name),
        Err(NameFault::BadName) => Err(Stop::Wrong),
        Err(NameFault::Memory) => Err(Stop::Memory),
    }
}

/// Ids behind their count.
pub fn take_ids(alloc: Global, rest: &mut Rest<'_>) -> Result<Ids, Stop>
    ensures { Takes AreIds ids_bytes result rest.old rest.new }
{
    let count = rest.take_u32()?;
    let mut ids = Vec::with_capacity(alloc, rest.count_of_u32(count))?;
    let mut last = None;
    for _ in 0..count {
        let id = take_id(rest, last)?;
        last = Some(id);
        ids.push(id)?;
    }
    if ids.is_empty() {
        return Err(Stop::Wrong);
    }
    Ok(Ids::new(ids))
}

fn take_id(rest: &mut Rest<'_>, last: Option<u32>) -> Result<u32, Stop>
    ensures { Takes (λ id. (id < 2 ^ 32) × IsBehind nat_cmp last id) bytes_of_u32 result rest.old rest.new }
{
    let id = rest.take_u32()?;
    match last {
        Some(last) if last >= id => Err(Stop::Wrong),
        _ => Ok(id),
    }
}

/// Fields, or the values of a tag, behind their count.
pub fn take_lists(alloc: Global, rest: &mut Rest<'_>) -> Result<NameLists, Stop>
    ensures { Takes AreNamed (counted_bytes named_bytes) result rest.old rest.new }
{
    let count = rest.take_u32()?;
    let mut lists = Vec::new(alloc);
    let mut last = None;
    for _ in 0..count {
        let list = take_list(alloc, rest, &last)?;
        last = Some(list.name.carry()?);
        lists.push(list)?;
    }
    Ok(NameLists::new(lists))
}

fn take_list(alloc: Global, rest: &mut Rest<'_>, last: &Option<Name>) -> Result<NameIds, Stop>
    ensures { Takes (λ list. IsNamed list × IsBehind name_cmp last.now list.name) named_bytes result rest.old rest.new }
{
    let name = take_name_behind(alloc, rest, last)?;
    let ids = take_ids(alloc, rest)?;
    Ok(NameIds { name, ids })
}

/// A name that comes behind the last one.
pub fn take_name_behind(
    alloc: Global,
    rest: &mut Rest<'_>,
    last: &Option<Name>,
) -> Result<Name, Stop>
    ensures { Takes (λ name. IsText name × IsBehind name_cmp last.now name) text_bytes result rest.old rest.new }
{
    let name = take_name(alloc, rest)?;
    if !is_behind(last, &name) {
        return Err(Stop::Wrong);
    }
    Ok(name)
}

fn is_behind(last: &Option<Name>, name: &Name) -> bool
    ensures { IsTrue result ↔ IsBehind name_cmp last.now name.now }
{
    match last {
        Some(last) => last < name,
        None => true,
    }
}

/// The tags of a measurement, behind their count.
pub fn take_tags(alloc: Global, rest: &mut Rest<'_>) -> Result<TagLists, Stop>
    ensures { Takes AreTags (counted_bytes tag_bytes) result rest.old rest.new }
{
    let count = rest.take_u32()?;
    let mut tags = Vec::new(alloc);
    let mut last = None;
    for _ in 0..count {
        let tag = take_tag(alloc, rest, &last)?;
        last = Some(tag.key.carry()?);
        tags.push(tag)?;
    }
    Ok(TagLists::new(tags))
}

fn take_tag(alloc: Global, rest: &mut Rest<'_>, last: &Option<Name>) -> Result<TagIds, Stop>
    ensures { Takes (λ tag. IsTag tag × IsBehind name_cmp last.now tag.key) tag_bytes result rest.old rest.new }
{
    let key = take_name_behind(alloc, rest, last)?;
    let values = take_lists(alloc, rest)?;
    Ok(TagIds { key, values })
}
