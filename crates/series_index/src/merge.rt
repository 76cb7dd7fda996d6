// The ids that one of two lists has, or both.
ghost use Rattle.std.specs.Prelude.{◌≡◌, ◌≤◌, ◌⊎◌, ◌||◌, ℕ, Bool, List, [], IfOk};
ghost use Rattle.std.specs.List.{filter};
ghost use Rattle.std.specs.List.Sorted.{IsStrictlySortedBy};
ghost use Rattle.std.specs.Ordering.{nat_cmp};
ghost use Rattle.series_index.specs.Merging.{behind_id};

use std::alloc::{AllocError, Global};

/// The ids that one of the lists has, or both.
pub fn either(alloc: Global, first: &[u32], second: &[u32]) -> Result<Vec<u32>, AllocError>
    ensures { IfOk result (λ ids. (all : List ℕ) (is also : ℕ → Bool) → IsStrictlySortedBy nat_cmp all → first.now ≡ filter is all → second.now ≡ filter also all
        → ids.items ≡ filter (λ id. is id || also id) all) }
{
    let mut merged = Vec::new(alloc);
    let mut left = first;
    let mut right = second;
    while !left.is_empty() && !right.is_empty() {
        let id = least(left[0], right[0]);
        merged.push(id)?;
        left = behind(left, id);
        right = behind(right, id);
    }
    merged.extend_from_slice(left)?;
    merged.extend_from_slice(right)?;
    Ok(merged)
}

fn least(one: u32, other: u32) -> u32
    ensures least { (result ≤ one) × (result ≤ other) }
    ensures either { (result ≡ one) ⊎ (result ≡ other) }
{
    if one < other { one } else { other }
}

// The list behind the id, where it begins with it.
fn behind(list: &[u32], id: u32) -> &[u32]
    ensures { result.now ≡ behind_id id list.now }
{
    match list.split_first() {
        Some((first, rest)) if *first == id => rest,
        _ => list,
    }
}
