// Whether the ids of the fields and the tags of a measurement are those of the measurement.
ghost use Rattle.std.specs.Prelude.{◌≡◌, ◌<◌, ◌↔◌, ◌||◌, ℕ, Bool, true, false, map, length, slice_get, Some, IsTrue, IfOk, IfSome, IfNone};
ghost use Rattle.std.specs.List.{AllByRecursion};
ghost use Rattle.std.specs.List.Sorted.{IsStrictlySortedBy};
ghost use Rattle.std.specs.Ordering.{nat_cmp};
ghost use Rattle.index_file.specs.Contents.{AreAllAmong, AreAmong, has, some_has};

use crate::{NameIds, TagIds};
use std::alloc::{AllocError, Global};

/// Whether the ids are those that the fields have.
pub fn are_of_fields(alloc: Global, ids: &[u32], fields: &[NameIds]) -> Result<bool, AllocError>
    requires { IsStrictlySortedBy nat_cmp ids.now }
    ensures { IfOk result (λ are. IsTrue are ↔ (AreAllAmong ids.now fields.now × AllByRecursion (λ id. IsTrue (some_has fields.now id)) ids.now)) }
{
    let mut marks = vec![in alloc; false; ids.len()]?;
    for field in fields {
        if !mark_ids(ids, field.ids.as_slice(), &mut marks) {
            return Ok(false);
        }
    }
    Ok(!marks.contains(&false))
}

// Marks where each id of the list stands among the others. Answers whether each stands there.
fn mark_ids(ids: &[u32], list: &[u32], marks: &mut Vec<bool>) -> bool
    requires ascending { IsStrictlySortedBy nat_cmp ids.now }
    requires long { length marks.old.items ≡ length ids.now }
    ensures among { IsTrue result ↔ AreAmong ids.now list.now }
    ensures marked { IsTrue result → (is : ℕ → Bool) → marks.old.items ≡ map is ids.now → marks.new.items ≡ map (λ id. is id || has list.now id) ids.now }
    ensures long { length marks.new.items ≡ length ids.now }
{
    let mut next = 0;
    for id in list {
        let Some(place) = place_of(ids, *id, next) else {
            return false;
        };
        marks[place] = true;
        next = place + 1;
    }
    true
}

/// Whether each id that a tag's value has is one of these.
pub fn are_of_tags(ids: &[u32], tags: &[TagIds]) -> bool
    requires { IsStrictlySortedBy nat_cmp ids.now }
    ensures { IsTrue result ↔ AllByRecursion (λ tag. AreAllAmong ids.now tag.values) tags.now }
{
    for tag in tags {
        if !are_all_among(ids, tag.values.as_slice()) {
            return false;
        }
    }
    true
}

fn are_all_among(ids: &[u32], lists: &[NameIds]) -> bool
    requires { IsStrictlySortedBy nat_cmp ids.now }
    ensures { IsTrue result ↔ AreAllAmong ids.now lists.now }
{
    for list in lists {
        if !are_among(ids, list.ids.as_slice()) {
            return false;
        }
    }
    true
}

fn are_among(ids: &[u32], list: &[u32]) -> bool
    requires { IsStrictlySortedBy nat_cmp ids.now }
    ensures { IsTrue result ↔ AreAmong ids.now list.now }
{
    let mut next = 0;
    for id in list {
        let Some(place) = place_of(ids, *id, next) else {
            return false;
        };
        next = place + 1;
    }
    true
}

// Where the id stands among ascending ones; first it is looked for at the place that is given.
fn place_of(ids: &[u32], id: u32, likely: usize) -> Option<usize>
    requires { IsStrictlySortedBy nat_cmp ids.now }
    ensures found { IfSome result (λ place. slice_get ids.now place ≡ Some id) }
    ensures bound { IfSome result (λ place. place < length ids.now) }
    ensures none { IfNone result (has ids.now id ≡ false) }
{
    if likely < ids.len() && ids[likely] == id {
        return Some(likely);
    }
    match ids.binary_search(&id) {
        Ok(place) => Some(place),
        Err(_) => None,
    }
}
