// An entry as the body of a log has it behind its number: the client, and what was accepted.
ghost use Rattle.std.specs.Prelude.{◌≡◌, ◌≢◌, ◌++◌, ◌≤◌, ℕ, ℤ, List, length, IfOk, IfSome, IfNone, OnOk, IsErrOf};
ghost use Rattle.fixed_width.specs.Fields.{bytes_of_i64};
ghost use Rattle.tsdb_types.specs.Moments.{IsMoment};
ghost use Rattle.point_model.specs.Deletions.{IsLoggable};
ghost use Rattle.point_model.specs.declared.deletion.Deletion.{Deletion};
ghost use Rattle.point_model.specs.declared.entry.Entry.{Entry};
ghost use Rattle.point_model.specs.declared.entry.Entry.TheVariants.{Write, Delete};
ghost use Rattle.wal_store.specs.Runs.{IsWritable, entry_bytes};
ghost use Rattle.wal_store.specs.Spelling.{Spells, SpellsDeletion, IsDeletion, deletion_bytes};

use crate::EntryFault;
use crate::condition::{put_condition, take_condition};
use crate::group::{first_run, put_groups, take_groups};
use crate::point::take_byte;
use crate::text::{put_text, take_name};
use fixed_width::{put_i64, put_u32, take_i64, take_u32};
use point_model::{Deletion, Entry};
use std::alloc::{AllocError, Global};
use tsdb_types::{Batch, Point, Seed, Time};

// The bytes that say what an entry is.
const WRITE: u8 = 1;

const DELETE: u8 = 2;

// With its number of 8 bytes an entry has at most 2^30.
const MOST_BYTES: usize = (1 << 30) - 8;

/// The bytes of an entry, as the body of a log has them behind its number: one group of points for each run of one series.
pub fn write_entry(alloc: Global, entry: &Entry) -> Result<Vec<u8>, AllocError>
    requires { IsWritable entry.now }
    ensures bytes { IfOk result (λ bytes. bytes.items ≡ entry_bytes entry.now) }
    ensures spells { IfOk result (λ bytes. Spells entry.now bytes.items) }
{
    let mut out = Vec::with_capacity(alloc, room_for(entry))?;
    put_entry(&mut out, entry)?;
    Ok(out)
}

/// Puts an entry behind what is there.
fn put_entry(out: &mut Vec<u8>, entry: &Entry) -> Result<(), AllocError>
    requires { IsWritable entry.now }
    ensures bytes { OnOk result (out.new.items ≡ out.old.items ++ entry_bytes entry.now) }
    ensures spells { OnOk result (Spells entry.now (entry_bytes entry.now)) }
{
    match entry {
        Entry::Write { client, points } => put_write(out, *client, points),
        Entry::Delete { client, deletion } => put_delete(out, *client, deletion),
    }
}

/// Puts a write behind what is there.
pub fn put_write(out: &mut Vec<u8>, client: u32, points: &Batch) -> Result<(), AllocError>
    requires { IsWritable (Write client points.now) }
    ensures bytes { OnOk result (out.new.items ≡ out.old.items ++ entry_bytes (Write client points.now)) }
    ensures spells { OnOk result (Spells (Write client points.now) (entry_bytes (Write client points.now))) }
{
    put_u32(out, client)?;
    out.push(WRITE)?;
    put_groups(out, points.points())
}

/// Puts a deletion behind what is there.
pub fn put_delete(out: &mut Vec<u8>, client: u32, deletion: &Deletion) -> Result<(), AllocError>
    requires { IsWritable (Delete client deletion.now) }
    ensures bytes { OnOk result (out.new.items ≡ out.old.items ++ entry_bytes (Delete client deletion.now)) }
    ensures spells { OnOk result (Spells (Delete client deletion.now) (entry_bytes (Delete client deletion.now))) }
{
    put_u32(out, client)?;
    out.push(DELETE)?;
    put_deletion(out, deletion)
}

/// Room for the bytes of an entry, so that those of a write are put without further memory.
fn room_for(entry: &Entry) -> usize {
    match entry {
        Entry::Write { points, .. } => room_for_points(points.points()),
        Entry::Delete { .. } => 64,
    }
}

/// Room for the bytes of a write, run by run.
pub fn room_for_points(points: &[Point]) -> usize {
    let mut room = 9usize;
    let mut rest = points;
    while let Some(run) = first_run(rest) {
        room = room
            .saturating_add(run.series.text().len())
            .saturating_add(6)
            .saturating_add(room_for_run(run.points));
        rest = run.behind;
    }
    room
}

fn room_for_run(points: &[Point]) -> usize {
    let mut room = 0usize;
    for point in points {
        room = room
            .saturating_add(point.cell.field.as_str().len())
            .saturating_add(19);
    }
    room
}

fn put_deletion(out: &mut Vec<u8>, deletion: &Deletion) -> Result<(), AllocError>
    requires { IsLoggable deletion.now }
    ensures bytes { OnOk result (out.new.items ≡ out.old.items ++ deletion_bytes deletion.now) }
    ensures deletion { OnOk result (IsDeletion deletion.now) }
{
    put_text(out, deletion.measurement.as_str())?;
    put_condition(out, &deletion.tags)?;
    put_i64(out, deletion.from.get())?;
    put_i64(out, deletion.to.get())
}

/// The entry that these bytes stand for. Its columns are found by hashes that begin with the seed.
pub fn read_entry(alloc: Global, seed: Seed, bytes: &[u8]) -> Result<Entry, EntryFault>
    ensures found { IfOk result (λ entry. Spells entry bytes.now) }
    ensures bad { IsErrOf result EntryFault.BadEntry → (entry : Entry) → Spells entry bytes.now → ⊥ }
{
    match take_entry(alloc, seed, bytes)? {
        Some(entry) => Ok(entry),
        None => Err(EntryFault::BadEntry),
    }
}

/// The entry that these bytes stand for, where they do for one.
pub fn take_entry(alloc: Global, seed: Seed, bytes: &[u8]) -> Result<Option<Entry>, AllocError>
    ensures found { IfOk result (λ taken. IfSome taken (λ entry. Spells entry bytes.now)) }
    ensures none { IfOk result (λ taken. IfNone taken ((entry : Entry) → Spells entry bytes.now → ⊥)) }
{
    if bytes.len() > MOST_BYTES {
        return Ok(None);
    }
    let Some((client, rest)) = take_u32(bytes) else {
        return Ok(None);
    };
    let Some((kind, body)) = take_byte(rest) else {
        return Ok(None);
    };
    match kind {
        WRITE => match take_groups(alloc, seed, body)? {
            Some(points) => Ok(Some(Entry::Write { client, points })),
            None => Ok(None),
        },
        DELETE => match take_deletion(alloc, body)? {
            Some(deletion) => Ok(Some(Entry::Delete { client, deletion })),
            None => Ok(None),
        },
        _ => Ok(None),
    }
}

fn take_deletion(alloc: Global, bytes: &[u8]) -> Result<Option<Deletion>, AllocError>
    ensures found { IfOk result (λ taken. IfSome taken (λ deletion. SpellsDeletion deletion bytes.now)) }
    ensures none { IfOk result (λ taken. IfNone taken ((deletion : Deletion) → SpellsDeletion deletion bytes.now → ⊥)) }
{
    let Some((measurement, rest)) = take_name(alloc, bytes)? else {
        return Ok(None);
    };
    let Some((tags, rest)) = take_condition(alloc, rest)? else {
        return Ok(None);
    };
    let Some((from, to)) = take_bounds(rest) else {
        return Ok(None);
    };
    Ok(Some(Deletion {
        measurement,
        tags,
        from,
        to,
    }))
}

/// The two moments of which these are the bytes and nothing else.
fn take_bounds(bytes: &[u8]) -> Option<(Time, Time)>
    ensures found { IfSome result (λ bounds. bytes.now ≡ bytes_of_i64 bounds.0 ++ bytes_of_i64 bounds.1) }
    ensures from { IfSome result (λ bounds. IsMoment bounds.0) }
    ensures to { IfSome result (λ bounds. IsMoment bounds.1) }
    ensures none { IfNone result ((from to : ℤ) → IsMoment from → IsMoment to → bytes.now ≢ bytes_of_i64 from ++ bytes_of_i64 to) }
{
    let (from, rest) = take_i64(bytes)?;
    let (to, rest) = take_i64(rest)?;
    if !rest.is_empty() {
        return None;
    }
    match Time::new(from) {
        None => None,
        Some(from) => match Time::new(to) {
            None => None,
            Some(to) => Some((from, to)),
        },
    }
}

/// Bytes stand for one entry at most, and an entry that some bytes stand for can be written.
pub fn one_entry()
    ensures one { (a b : Entry) (bytes : List ℕ) → Spells a bytes → Spells b bytes → a ≡ b }
    ensures writable { (entry : Entry) (bytes : List ℕ) → Spells entry bytes → IsWritable entry }
{}
