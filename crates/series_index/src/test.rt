// The series of a measurement that pass a test.
ghost use Rattle.std.specs.Prelude.{◌≡◌, ℕ, List, [], IfOk};
ghost use Rattle.tsdb_types.specs.Names.{IsName};
ghost use Rattle.point_model.specs.Flat.{condition_of};
ghost use Rattle.series_index.specs.Matching.{Told, ids_with, matching};

use crate::among::without;
use index_lists::{Lists, Term};
use point_model::{TagTest, TagText};
use std::alloc::{AllocError, Global};
use tsdb_types::{Name, NameFault};

/// Those of the ids of a measurement whose series pass the test.
pub fn tested(
    alloc: Global,
    lists: &Lists,
    measurement: &Name,
    all: &[u32],
    test: &TagTest,
) -> Result<Vec<u32>, AllocError>
    requires { (series_of : ℕ → List ℕ) × Told series_of lists.now measurement.now all.now }
    ensures { IfOk result (λ ids. (series_of : ℕ → List ℕ) → Told series_of lists.now measurement.now all.now → ids.items ≡ matching series_of (condition_of test.now) all.now) }
{
    match test {
        TagTest::True => all.to_vec(alloc),
        TagTest::Eq(key, text) => with_text(alloc, lists, measurement, all, key, text),
        TagTest::Ne(key, text) => {
            let ids = with_text(alloc, lists, measurement, all, key, text)?;
            without(alloc, all, &ids)
        }
    }
}

// Those whose tag with this key has this text; a tag that a series lacks has the empty text.
fn with_text(
    alloc: Global,
    lists: &Lists,
    measurement: &Name,
    all: &[u32],
    key: &Name,
    text: &TagText,
) -> Result<Vec<u32>, AllocError>
    requires { (series_of : ℕ → List ℕ) × Told series_of lists.now measurement.now all.now }
    ensures { IfOk result (λ ids. (series_of : ℕ → List ℕ) → Told series_of lists.now measurement.now all.now → ids.items ≡ ids_with series_of key.now text.now all.now) }
{
    let text = text.as_str();
    if text.as_bytes().is_empty() {
        return lacking(alloc, lists, measurement, all, key);
    }
    match Name::new(alloc, text) {
        Ok(value) => having(alloc, lists, measurement, key, value),
        // No tag has a value that is no name.
        Err(NameFault::BadName) => Ok(Vec::new(alloc)),
        Err(NameFault::Memory) => Err(AllocError),
    }
}

// Those without the tag.
fn lacking(
    alloc: Global,
    lists: &Lists,
    measurement: &Name,
    all: &[u32],
    key: &Name,
) -> Result<Vec<u32>, AllocError>
    requires { (series_of : ℕ → List ℕ) × Told series_of lists.now measurement.now all.now }
    ensures { IfOk result (λ ids. (series_of : ℕ → List ℕ) → Told series_of lists.now measurement.now all.now → ids.items ≡ ids_with series_of key.now [] all.now) }
{
    let term = Term::TagKey(measurement.carry()?, key.carry()?);
    without(alloc, all, lists.ids(&term))
}

// Those whose tag has the value.
fn having(
    alloc: Global,
    lists: &Lists,
    measurement: &Name,
    key: &Name,
    value: Name,
) -> Result<Vec<u32>, AllocError>
    requires { IsName value }
    ensures { IfOk result (λ ids. (series_of : ℕ → List ℕ) (all : List ℕ) → Told series_of lists.now measurement.now all → ids.items ≡ ids_with series_of key.now value all) }
{
    let term = Term::TagValue(measurement.carry()?, key.carry()?, value);
    lists.ids(&term).to_vec(alloc)
}
