// The series that are held.
ghost use Rattle.std.specs.Prelude.{◌≡◌, ◌+◌, ◌<◌, ◌≤◌, ◌++◌, ◌∷◌, [], length, nat_eq, false, IsTrue, IfOk};
ghost use Rattle.std.specs.List.{list_any, AllByRecursion, IsDistinct};
ghost use Rattle.std.specs.Cmp.Lexicographic.{pointwise};
ghost use Rattle.indexmap.specs.IndexSet.{spare};
ghost use Rattle.series_store.specs.Format.{IsKey};
ghost use Rattle.series_store.specs.Lists.{HasNoId};

use indexmap::IndexSet;
use std::alloc::{AllocError, Global};
use tsdb_types::{Seed, SeriesKey};

/// Holds the series of a text, where it is one that isn't held.
pub fn hold_text(
    alloc: Global,
    held: &mut IndexSet<SeriesKey, Seed>,
    text: &[u8],
) -> Result<bool, AllocError>
    ensures new { IfOk result (λ new. IsTrue new → IsKey text.now × (held.new.keys ≡ held.old.keys ++ text.now ∷ [])) }
    ensures distinct { IfOk result (λ new. IsTrue new → IsDistinct (pointwise nat_eq) held.new.keys) }
    ensures old { IfOk result (λ new. new ≡ false → IsKey text.now → IsTrue (list_any (pointwise nat_eq text.now) held.old.keys)) }
{
    let Ok(text) = str::from_utf8(text) else {
        return Ok(false);
    };
    match SeriesKey::from_text(alloc, text)? {
        Some(key) => {
            let new = held.insert(key)?;
            Ok(new)
        }
        None => Ok(false),
    }
}

/// Holds series that aren't held, where there is room for them.
pub fn hold_all(held: &mut IndexSet<SeriesKey, Seed>, series: Vec<SeriesKey>)
    requires fresh { AllByRecursion (HasNoId held.old.keys) series.items }
    requires distinct { IsDistinct (pointwise nat_eq) series.items }
    requires room { length series.items ≤ spare held.old }
    ensures { held.new.keys ≡ held.old.keys ++ series.items }
{
    for key in series {
        hold(held, key);
    }
}

fn hold(held: &mut IndexSet<SeriesKey, Seed>, key: SeriesKey)
    requires fresh { HasNoId held.old.keys key }
    requires room { 0 < spare held.old }
    ensures keys { held.new.keys ≡ held.old.keys ++ key ∷ [] }
    ensures room { spare held.old ≤ spare held.new + 1 }
{
    let _ = held.insert(key);
}
