// The sources of a key in a cache and in its snapshot.
ghost use Rattle.std.specs.Prelude.{◌≡◌, ◌++◌, [], ◌∷◌, All, IfNone, IfOk, IfSome, OnOk, map};
ghost use Rattle.std.specs.List.{AllByRecursion};
ghost use Rattle.tsdb_types.specs.Keys.{key_of};
ghost use Rattle.merge_cursor.specs.Overlays.{AreInOrder, overlay};
ghost use Rattle.point_cache.specs.Cached.{IsRun, KeysAscend, points_at};
ghost use Rattle.point_view.specs.Layers.{cached_rows, frozen, frozen_rows, key_rows, memory_rows};
ghost use Rattle.point_view.specs.Sources.{rows_at};

use crate::key_cursor::KeyCursor;
use crate::source::Source;
use crate::stored::Stored;
use point_cache::{KeyPoints, PointCache};
use point_model::Need;
use std::alloc::{AllocError, Global};
use std::sync::Arc;
use tsdb_types::{Name, SeriesKey};

const MARK: &[u8] = b"#!~#";

// What cache and snapshot show together of a composite key.
pub(crate) fn cursor_of(
    alloc: Global,
    cache: &PointCache,
    need: &Need,
    key: &[u8],
) -> Result<KeyCursor, AllocError>
    ensures { IfOk result (λ cursor. cursor ≡ memory_rows need.now cache.now key.now) }
{
    let mut sources = Vec::new(alloc);
    add_cached(alloc, cache, need, key, &mut sources)?;
    add_frozen(alloc, cache, need, key, &mut sources)?;
    KeyCursor::new(alloc, sources, need.descending)
}

// The points of the cache, where it has some of the key.
fn add_cached(
    alloc: Global,
    cache: &PointCache,
    need: &Need,
    key: &[u8],
    sources: &mut Vec<Source>,
) -> Result<(), AllocError>
    requires { All (AreInOrder need.now.descending) sources.old.items }
    ensures shown { OnOk result (overlay need.now.descending sources.new.items ≡ overlay need.now.descending (sources.old.items ++ cached_rows need.now cache.now key.now ∷ [])) }
    ensures ordered { OnOk result (All (AreInOrder need.now.descending) sources.new.items) }
{
    if cache.rows_of(key).is_empty() {
        return Ok(());
    }
    let rows = cache.points_of(key, need.from, need.to)?;
    let end = rows.len();
    let source = Source::new(
        Stored::Copied(rows),
        0,
        end,
        Vec::new(alloc),
        need.descending,
    );
    sources.push(source)?;
    Ok(())
}

// The points of the snapshot, where one stands that has the key.
fn add_frozen(
    alloc: Global,
    cache: &PointCache,
    need: &Need,
    key: &[u8],
    sources: &mut Vec<Source>,
) -> Result<(), AllocError>
    requires { All (AreInOrder need.now.descending) sources.old.items }
    ensures shown { OnOk result (overlay need.now.descending sources.new.items ≡ overlay need.now.descending (sources.old.items ++ frozen_rows need.now cache.now key.now ∷ [])) }
    ensures ordered { OnOk result (All (AreInOrder need.now.descending) sources.new.items) }
{
    let snapshot = match cache.snapshot() {
        Some(snapshot) => snapshot,
        None => return Ok(()),
    };
    let place = match place_of(snapshot, key) {
        Some(place) => place,
        None => return Ok(()),
    };
    let hidden = Vec::from_slice(alloc, cache.snapshot_tombs().ranges(key))?;
    let points = Stored::Shared(Arc::try_clone(snapshot)?, place);
    let source = Source::between(points, need.from, need.to, hidden, need.descending);
    sources.push(source)?;
    Ok(())
}

// The place of a key among those of a snapshot, by binary search.
fn place_of(snapshot: &KeyPoints, key: &[u8]) -> Option<usize>
    requires { KeysAscend snapshot.now.rows }
    ensures found { IfSome result (λ place. rows_at snapshot.now.rows place ≡ points_at snapshot.now.rows key.now) }
    ensures none { IfNone result (points_at snapshot.now.rows key.now ≡ []) }
{
    let rows = snapshot.rows.as_slice();
    match rows.binary_search_by(|run| run.key.as_bytes().cmp(key)) {
        Ok(place) => Some(place),
        Err(_) => None,
    }
}

// What cache and snapshot show together of each key.
pub(crate) fn cursors_of(
    alloc: Global,
    cache: &PointCache,
    need: &Need,
    keys: &[(SeriesKey, Name)],
) -> Result<Vec<KeyCursor>, AllocError>
    ensures { IfOk result (λ cursors. cursors.items ≡ map (key_rows need.now cache.now) keys.now) }
{
    let mut cursors = Vec::with_capacity(alloc, keys.len())?;
    let mut buffer = Vec::new(alloc);
    for (series, field) in keys {
        write_key(&mut buffer, series, field)?;
        cursors.push(cursor_of(alloc, cache, need, buffer.as_slice())?)?;
    }
    Ok(cursors)
}

// Writes the composite key over what the buffer held.
fn write_key(buffer: &mut Vec<u8>, series: &SeriesKey, field: &Name) -> Result<(), AllocError>
    ensures { OnOk result (buffer.new.items ≡ key_of series.now field.now) }
{
    buffer.clear();
    buffer.extend_from_slice(series.text().as_bytes())?;
    buffer.extend_from_slice(MARK)?;
    buffer.extend_from_slice(field.as_str().as_bytes())?;
    Ok(())
}

// What holds of the points of a cache and of its snapshot.
pub(crate) fn look_at(cache: &PointCache)
    ensures cached { AllByRecursion IsRun cache.now.runs }
    ensures frozen { AllByRecursion IsRun (frozen cache.now) }
{
    let _ = cache.len();
    let _ = cache.snapshot();
}
