ghost use Rattle.std.specs.Prelude.{◌≡◌, ℕ, List, IfOk, OnOk};
ghost use Rattle.std.specs.List.{filter};
ghost use Rattle.std.specs.List.Sorted.{IsNonDecreasing, IsStrictlySortedBy};
ghost use Rattle.std.specs.Ordering.{nat_cmp};
ghost use Rattle.index_lists.specs.Listing.{AreIdsOf, Holds};
ghost use Rattle.index_lists.specs.Pairs.{Pair};
ghost use Rattle.point_model.specs.Conditions.{Condition};
ghost use Rattle.point_model.specs.Flat.{joined};
ghost use Rattle.series_index.specs.Index.{is_match};
ghost use Rattle.series_index.specs.Matching.{Told, matching};
ghost use Rattle.series_index.specs.Evaluation.{AreLists, with_join, with_part};

use crate::among::both;
use crate::merge::either;
use crate::test::tested;
use index_lists::{Lists, Term};
use point_model::{Join, Part, TagCond};
use std::alloc::{AllocError, Global};
use tsdb_types::Name;

/// The ids of the series of a measurement that meet a condition, ascending.
pub fn matching_ids(
    alloc: Global,
    lists: &Lists,
    measurement: &Name,
    tags: &TagCond,
) -> Result<Vec<u32>, AllocError>
    requires { (pairs : List Pair) × Holds pairs lists.now }
    ensures { IfOk result (λ ids. (pairs : List Pair) → Holds pairs lists.now → AreIdsOf (is_match measurement.now tags.now) pairs ids.items) }
{
    let term = Term::Measurement(measurement.carry()?);
    evaluated(alloc, lists, measurement, lists.ids(&term), tags)
}

// Those of the ids of a measurement whose series meet the condition.
fn evaluated(
    alloc: Global,
    lists: &Lists,
    measurement: &Name,
    all: &[u32],
    tags: &TagCond,
) -> Result<Vec<u32>, AllocError>
    requires { (series_of : ℕ → List ℕ) × Told series_of lists.now measurement.now all.now }
    ensures { IfOk result (λ ids. (series_of : ℕ → List ℕ) → Told series_of lists.now measurement.now all.now → ids.items ≡ matching series_of tags.now all.now) }
{
    let parts = tags.parts();
    let mut waiting = Vec::new(alloc);
    let mut place = parts.len();
    while place > 0 {
        place -= 1;
        let (_, part) = &parts[place];
        take_part(alloc, lists, measurement, all, part, &mut waiting)?;
    }
    match waiting.pop() {
        Some(ids) => Ok(ids),
        None => Ok(Vec::new(alloc)),
    }
}

// Puts the list of a test behind the others, or that of a join in the place of its two sides'.
fn take_part(
    alloc: Global,
    lists: &Lists,
    measurement: &Name,
    all: &[u32],
    part: &Part,
    waiting: &mut Vec<Vec<u32>>,
) -> Result<(), AllocError>
    requires told { (series_of : ℕ → List ℕ) × Told series_of lists.now measurement.now all.now }
    requires lists { (conditions : List Condition) × ((series_of : ℕ → List ℕ) → Told series_of lists.now measurement.now all.now → AreLists series_of all.now conditions waiting.old.items) }
    ensures { OnOk result ((series_of : ℕ → List ℕ) → Told series_of lists.now measurement.now all.now → (conditions : List Condition)
        → AreLists series_of all.now conditions waiting.old.items → AreLists series_of all.now (with_part part.now conditions) waiting.new.items) }
{
    match part {
        Part::Test(test) => {
            let ids = tested(alloc, lists, measurement, all, test)?;
            waiting.push(ids)?;
            Ok(())
        }
        Part::Join(join) => take_join(alloc, *join, waiting),
    }
}

fn take_join(alloc: Global, join: Join, waiting: &mut Vec<Vec<u32>>) -> Result<(), AllocError>
    requires { (series_of : ℕ → List ℕ) × (all : List ℕ) × (conditions : List Condition) × IsStrictlySortedBy nat_cmp all × AreLists series_of all conditions waiting.old.items }
    ensures { OnOk result ((series_of : ℕ → List ℕ) (all : List ℕ) (conditions : List Condition) → IsStrictlySortedBy nat_cmp all
        → AreLists series_of all conditions waiting.old.items → AreLists series_of all (with_join join conditions) waiting.new.items) }
{
    let Some(first) = waiting.pop() else {
        return Ok(());
    };
    let Some(second) = waiting.pop() else {
        return Ok(());
    };
    let ids = joined_ids(alloc, join, &first, &second)?;
    waiting.push(ids)?;
    Ok(())
}

fn joined_ids(
    alloc: Global,
    join: Join,
    first: &[u32],
    second: &[u32],
) -> Result<Vec<u32>, AllocError>
    requires first { IsNonDecreasing first.now }
    requires second { IsNonDecreasing second.now }
    ensures { IfOk result (λ ids. (series_of : ℕ → List ℕ) (one other : Condition) (all : List ℕ) → IsStrictlySortedBy nat_cmp all
        → first.now ≡ matching series_of one all → second.now ≡ matching series_of other all → ids.items ≡ matching series_of (joined join one other) all) }
{
    match join {
        Join::And => both(alloc, first, second),
        Join::Or => either(alloc, first, second),
    }
}
