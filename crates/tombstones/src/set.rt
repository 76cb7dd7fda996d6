ghost use Rattle.std.specs.Prelude.{◌≡◌, ◌^◌, ◌<◌, ℤ, ◌≤ℤ◌, ◌↔◌, [], length, IsTrue, OnOk, OnErr, IfOk};
ghost use Rattle.tombstones.specs.Ranges.{Covers, AreApart};
ghost use Rattle.tombstones.specs.Covered.{Hides, HidesAlso, hides};
ghost use Rattle.tombstones.specs.Kept.{tombs_of, AreRows, finds};
ghost use Rattle.std.specs.Map.{lookup};

use crate::TombRange;
use crate::joined::covers_in;
use crate::ranges::Ranges;
use std::alloc::{AllocError, Global};
use std::collections::BTreeMap;
use std::marker::Model;
use tsdb_types::Time;

/// Deleted ranges of times by key. A contract sees it as the list of its tombstones: the keys ascend, and so do the
/// ranges of a key.
#[derive(Drop)]
pub struct TombSet {
    rows: BTreeMap<Vec<u8>, Ranges>,
    alloc: Global,
}

impl Model for TombSet {
    ghost use Rattle.std.specs.Prelude.{List};
    ghost use Rattle.tombstones.specs.Covered.{Tomb};
    ghost use Rattle.tombstones.specs.Kept.{tombs_of, AreRows};

    ghost Value = { List Tomb };

    ghost view = { λ s. tombs_of s.rows.entries };

    ghost invariant = { λ s. AreRows s.rows.entries };
}

impl TombSet {
    /// A set that hides nothing.
    pub fn new(alloc: Global) -> TombSet
        ensures { result ≡ [] }
    {
        TombSet {
            rows: BTreeMap::new(alloc),
            alloc,
        }
    }

    /// Hides the points of a key from one time to another, both included, besides what is hidden already.
    pub fn add(&mut self, key: &[u8], from: Time, to: Time) -> Result<(), AllocError>
        requires { length key.now < 2 ^ 32 }
        ensures ok { OnOk result (HidesAlso self.old key.now (record { from = from; to = to }) self.new) }
        ensures err { OnErr result (self.new ≡ self.old) }
    {
        if from > to {
            return Ok(());
        }
        add_to(&mut self.rows, self.alloc, key, TombRange { from, to })
    }

    /// Whether the point of the key at the time is hidden. Takes no memory.
    pub fn covers(&self, key: &[u8], time: Time) -> bool
        ensures hides { IsTrue result ↔ Hides self.now key.now time }
        ensures test { result ≡ hides self.now key.now time }
    {
        covers_in(self.ranges(key), time)
    }

    /// The ranges of a key. They ascend, and no two of them could be one. Takes no memory.
    pub fn ranges(&self, key: &[u8]) -> &[TombRange]
        ensures covered { (time : ℤ) → Covers result.now time ↔ Hides self.now key.now time }
        ensures apart { AreApart result.now }
    {
        match self.rows.get(key) {
            Some(ranges) => ranges.as_slice(),
            None => &[],
        }
    }

    /// Whether nothing is hidden.
    pub fn is_empty(&self) -> bool
        ensures { IsTrue result ↔ (self.now ≡ []) }
    {
        self.rows.is_empty()
    }

    /// A copy.
    pub fn carry(&self) -> Result<TombSet, AllocError>
        ensures { IfOk result (λ copy. copy ≡ self.now) }
    {
        Ok(TombSet {
            rows: self.rows.clone()?,
            alloc: self.alloc,
        })
    }

    /// The keys with their ranges.
    pub(crate) fn rows(&self) -> &BTreeMap<Vec<u8>, Ranges>
        ensures all { tombs_of result.now.entries ≡ self.now }
        ensures rows { AreRows result.now.entries }
    {
        &self.rows
    }
}

fn add_to(
    rows: &mut BTreeMap<Vec<u8>, Ranges>,
    alloc: Global,
    key: &[u8],
    range: TombRange,
) -> Result<(), AllocError>
    requires rows { AreRows rows.old.entries }
    requires short { length key.now < 2 ^ 32 }
    requires some { range.from ≤ℤ range.to }
    ensures ok { OnOk result (HidesAlso (tombs_of rows.old.entries) key.now range (tombs_of rows.new.entries)) }
    ensures err { OnErr result (tombs_of rows.new.entries ≡ tombs_of rows.old.entries) }
    ensures rows { AreRows rows.new.entries }
{
    match rows.get_mut(key) {
        Some(ranges) => ranges.add(range),
        None => add_key(rows, alloc, key, range),
    }
}

// Adds a key that isn't there.
fn add_key(
    rows: &mut BTreeMap<Vec<u8>, Ranges>,
    alloc: Global,
    key: &[u8],
    range: TombRange,
) -> Result<(), AllocError>
    requires rows { AreRows rows.old.entries }
    requires absent { lookup (finds key.now) rows.old.entries ≡ None }
    requires short { length key.now < 2 ^ 32 }
    requires some { range.from ≤ℤ range.to }
    ensures ok { OnOk result (HidesAlso (tombs_of rows.old.entries) key.now range (tombs_of rows.new.entries)) }
    ensures err { OnErr result (tombs_of rows.new.entries ≡ tombs_of rows.old.entries) }
    ensures rows { AreRows rows.new.entries }
{
    let key = Vec::from_slice(alloc, key)?;
    let ranges = Ranges::of(alloc, range)?;
    rows.insert(key, ranges)?;
    Ok(())
}
