// Which ids of a list another list has, or lacks.
ghost use Rattle.std.specs.Prelude.{◌≡◌, ◌<◌, ◌↔◌, ◌&&◌, ℕ, Bool, List, not, length, IsTrue, IfOk};
ghost use Rattle.std.specs.List.{filter};
ghost use Rattle.std.specs.List.Sorted.{IsStrictlySortedBy, IsNonDecreasing};
ghost use Rattle.std.specs.Ordering.{nat_cmp};
ghost use Rattle.series_index.specs.Matching.{has};

use std::alloc::{AllocError, Global};

/// The ids that both lists have.
pub fn both(alloc: Global, first: &[u32], second: &[u32]) -> Result<Vec<u32>, AllocError>
    requires first { IsNonDecreasing first.now }
    requires second { IsNonDecreasing second.now }
    ensures { IfOk result (λ ids. (all : List ℕ) (is also : ℕ → Bool) → first.now ≡ filter is all → second.now ≡ filter also all → ids.items ≡ filter (λ id. is id && also id) all) }
{
    if first.len() <= second.len() {
        among(alloc, first, second)
    } else {
        among(alloc, second, first)
    }
}

// The ids of the first list that the second one has. It is looked up by halves.
fn among(alloc: Global, ids: &[u32], others: &[u32]) -> Result<Vec<u32>, AllocError>
    requires { IsNonDecreasing others.now }
    ensures { IfOk result (λ found. found.items ≡ filter (λ id. has others.now id) ids.now) }
{
    let mut found = Vec::new(alloc);
    for id in ids {
        if is_among(*id, others) {
            found.push(*id)?;
        }
    }
    Ok(found)
}

/// The ids of the first list that the second one lacks.
pub fn without(alloc: Global, ids: &[u32], others: &[u32]) -> Result<Vec<u32>, AllocError>
    requires { IsNonDecreasing others.now }
    ensures { IfOk result (λ left. left.items ≡ filter (λ id. not (has others.now id)) ids.now) }
{
    let mut left = Vec::new(alloc);
    for id in ids {
        if !is_among(*id, others) {
            left.push(*id)?;
        }
    }
    Ok(left)
}

/// Whether the list has the id, by binary search.
pub fn is_among(id: u32, others: &[u32]) -> bool
    requires { IsNonDecreasing others.now }
    ensures { result ≡ has others.now id }
{
    match others.binary_search(&id) {
        Ok(_) => true,
        Err(_) => false,
    }
}
