ghost use Rattle.std.specs.Prelude.{◌≡◌, ◌≢◌, ◌↔◌, ◌≤◌, ◌<◌, ◌++◌, ◌∷◌, ◌^◌, [], true, length, max, drop, take_while, nat_le, IsTrue, IfOk, IfErr, OnOk, OnErr, vec_len, vec_capacity};
ghost use Rattle.point_model.specs.declared.entry.Entry.TheVariants.{Write, Delete};
ghost use Rattle.wal_store.specs.Runs.{IsWritable};
ghost use Rattle.wal_store.specs.Segments.{SpellsRecord, last_number, record_of};

use crate::WalRecord;
use crate::entry::{put_delete, put_write, room_for_points};
use fixed_width::put_u64;
use gate_log::{Frame, Log};
use point_model::Deletion;
use shard_disk::{Disk, Trouble};
use std::alloc::{AllocError, Global};
use std::marker::Model;
use tsdb_types::Batch;

/// The log of accepted entries: segments, of which the last takes further entries. A contract sees the `Segments` of
/// `specs/Segments.antt`.
#[derive(Drop)]
pub struct Wal {
    pub(crate) alloc: Global,
    pub(crate) files: Vec<u32>,
    pub(crate) newest: Vec<u64>,
    pub(crate) newest_here: u64,
    pub(crate) log: Log,
    pub(crate) last: u64,
    pub(crate) has_room: bool,
}

impl Model for Wal {
    ghost use Rattle.std.specs.Prelude.{vec_capacity};
    ghost use Rattle.wal_store.specs.Segments.{Segments, IsKept};

    ghost Value = { Segments };

    ghost view = { λ w. record { files = w.files.items; newest = w.newest.items; newest_here = w.newest_here; log = w.log; last = w.last; has_room = w.has_room } };

    ghost invariant = { λ w. IsKept (vec_capacity w.files) (vec_capacity w.newest)
        (record { files = w.files.items; newest = w.newest.items; newest_here = w.newest_here; log = w.log; last = w.last; has_room = w.has_room }) };
}

impl Wal {
    ghost use Rattle.gate_log.specs.Calls.Append.{Appends};
    ghost use Rattle.gate_log.specs.Calls.Settle.{Settling};
    ghost use Rattle.gate_log.specs.Log.{IsEmptyLog, IsInDoubt, IsPlaced};
    ghost use Rattle.wal_store.specs.Segments.{MayFollow, one_segment, settled_segments, with_number, with_segment, without_segments};

    /// A log of one segment, which has no record and a closed gate; its first entry has the number after this one. It keeps the
    /// allocator. Where there is no memory the segment comes back.
    pub fn new(alloc: Global, log: Log, last: u64) -> Result<Wal, (Log, AllocError)>
        requires { IsEmptyLog log }
        ensures ok { IfOk result (λ wal. wal ≡ one_segment log last) }
        ensures refused { IfErr result (λ back. back.0 ≡ log) }
    {
        Wal::of(alloc, log, last)
    }

    /// A log of one segment.
    pub(crate) fn of(alloc: Global, log: Log, last: u64) -> Result<Wal, (Log, AllocError)>
        ensures ok { IfOk result (λ wal. wal ≡ one_segment log last) }
        ensures refused { IfErr result (λ back. back.0 ≡ log) }
    {
        match one_file(alloc, log.file()) {
            Ok(files) => Ok(Wal {
                alloc,
                files,
                newest: Vec::new(alloc),
                newest_here: 0,
                log,
                last,
                has_room: false,
            }),
            Err(error) => Err((log, error)),
        }
    }

    /// The record of a write of this number: it takes all the memory that adding it needs, and copies no point.
    pub fn write_record(
        &self,
        number: u64,
        client: u32,
        points: &Batch,
    ) -> Result<WalRecord, AllocError>
        requires writable { IsWritable (Write client points.now) }
        requires number { number ≤ last_number }
        ensures record_of { IfOk result (λ made. made ≡ record_of number (Write client points.now)) }
        ensures spells { IfOk result (λ made. SpellsRecord number (Write client points.now) made.body) }
    {
        let room = room_for_points(points.points());
        let mut body = Vec::with_capacity(self.alloc, room.saturating_add(8))?;
        put_u64(&mut body, number)?;
        put_write(&mut body, client, points)?;
        framed(self.alloc, number, &body)
    }

    /// The record of a deletion of this number: it takes all the memory that adding it needs.
    pub fn delete_record(
        &self,
        number: u64,
        client: u32,
        deletion: &Deletion,
    ) -> Result<WalRecord, AllocError>
        requires writable { IsWritable (Delete client deletion.now) }
        requires number { number ≤ last_number }
        ensures record_of { IfOk result (λ made. made ≡ record_of number (Delete client deletion.now)) }
        ensures spells { IfOk result (λ made. SpellsRecord number (Delete client deletion.now) made.body) }
    {
        let mut body = Vec::with_capacity(self.alloc, 64)?;
        put_u64(&mut body, number)?;
        put_delete(&mut body, client, deletion)?;
        framed(self.alloc, number, &body)
    }

    /// Adds a record to the last segment, durably. Its number is one more than that of the last entry, or than the floor where no
    /// entry is past it. It takes no memory. After a fault the entry is there or not, as `in_doubt` tells: where it answers false the
    /// entry isn't there.
    pub fn append<D: Disk>(&mut self, disk: &mut D, added: &WalRecord) -> Result<(), Trouble>
        requires number { MayFollow self.old added.now.number }
        requires placed { IsTrue D.tells → IsPlaced (D.files disk.old) self.old.log }
        ensures log { Appends D.Disk added.now.body self.old.log self.new.log disk.old disk.new result }
        ensures ok { OnOk result (self.new ≡ with_number self.old self.new.log added.now.number) }
        ensures refused { OnErr result (self.new ≡ record self.old { log = self.new.log }) }
    {
        self.log.append(disk, &added.frame)?;
        self.newest_here = self.newest_here.max(added.number);
        self.last = added.number;
        Ok(())
    }

    /// Ends the doubt about an entry, so that it isn't there whatever crash comes, and closes a missing gate. Else it does
    /// nothing.
    pub fn settle<D: Disk>(&mut self, disk: &mut D) -> Result<(), Trouble>
        requires { IsTrue D.tells → IsPlaced (D.files disk.old) self.old.log }
        ensures log { Settling D.Disk self.old.log self.new.log disk.old disk.new result }
        ensures same { self.new ≡ record self.old { log = self.new.log } }
    {
        self.log.settle(disk)
    }

    /// Whether an entry may be there or not, as a crash would tell. `settle`, and the next entry, end that.
    pub fn in_doubt(&self) -> bool
        ensures { IsTrue result ↔ IsInDoubt self.now.log }
    {
        self.log.in_doubt()
    }

    /// The files of the segments, the oldest first.
    pub fn segments(&self) -> &[u32]
        ensures files { result.now ≡ self.now.files }
        ensures some { result.now ≢ [] }
    {
        &self.files
    }

    /// Makes room for a segment more, for `roll`.
    pub fn reserve(&mut self) -> Result<(), AllocError>
        ensures ok { OnOk result (self.new ≡ record self.old { has_room = true }) }
        ensures err { OnErr result (self.new ≡ self.old) }
    {
        self.files.reserve(1)?;
        self.newest.reserve(1)?;
        self.has_room = true;
        Ok(())
    }

    /// Goes on with a further segment, which has no record and a closed gate, as `Log::make` leaves it. It takes no memory.
    pub fn roll(&mut self, log: Log)
        requires room { self.old.has_room ≡ true }
        requires settled { IsInDoubt self.old.log → ⊥ }
        requires empty { IsEmptyLog log }
        ensures { self.new ≡ with_segment self.old log }
    {
        self.push_segment(log);
    }

    /// A further segment, for which there is room.
    pub(crate) fn push_segment(&mut self, log: Log)
        requires { self.old.has_room ≡ true }
        ensures { self.new ≡ with_segment self.old log }
    {
        push_within(&mut self.files, log.file());
        push_within(&mut self.newest, self.newest_here);
        self.newest_here = 0;
        self.log = log;
        self.has_room = false;
    }

    /// The last segment has an entry of this number, and it is the last one where it is greater.
    pub(crate) fn pass(&mut self, number: u64)
        ensures { self.new ≡ record self.old { newest_here = max self.old.newest_here number; last = max self.old.last number } }
    {
        self.newest_here = self.newest_here.max(number);
        self.last = self.last.max(number);
    }

    /// The number of the last entry, or the floor where there is none past it.
    pub fn last(&self) -> u64
        ensures { result ≡ self.now.last }
    {
        self.last
    }

    /// The file of the last segment.
    pub(crate) fn last_file(&self) -> u32
        ensures { result ≡ self.now.log.file }
    {
        self.log.file()
    }

    /// How many segments at the front hold no entry past this number, the last aside. Once an edit that forgets them is durable,
    /// `forget` drops them.
    pub fn settled(&self, up_to: u64) -> usize
        ensures count { result ≡ settled_segments up_to self.now }
        ensures fewer { result < length self.now.files }
    {
        up_to_count(&self.newest, up_to)
    }

    /// Drops so many segments at the front, fewer than there are. It takes no memory and leaves the files as they are.
    pub fn forget(&mut self, count: usize)
        requires { count < length self.old.files }
        ensures { self.new ≡ without_segments count self.old }
    {
        drop_front(&mut self.files, count);
        drop_front(&mut self.newest, count);
    }
}

fn one_file(alloc: Global, file: u32) -> Result<Vec<u32>, AllocError>
    ensures { IfOk result (λ files. files.items ≡ file ∷ []) }
{
    let mut files = Vec::new(alloc);
    files.push(file)?;
    Ok(files)
}

/// The record of this number whose body these bytes are.
fn framed(alloc: Global, number: u64, body: &[u8]) -> Result<WalRecord, AllocError>
    requires { length body.now ≤ 2 ^ 30 }
    ensures { IfOk result (λ made. made ≡ record { number = number; body = body.now }) }
{
    let frame = Frame::new(alloc, body)?;
    Ok(WalRecord { number, frame })
}

/// Puts an item behind the others of a list that has room for it.
fn push_within<T: Drop>(items: &mut Vec<T>, item: T)
    requires { vec_len items.old < vec_capacity items.old }
    ensures items { items.new.items ≡ items.old.items ++ item ∷ [] }
    ensures capacity { vec_capacity items.old ≤ vec_capacity items.new }
{
    let _ = items.push(item);
}

fn drop_front<T: Drop>(items: &mut Vec<T>, count: usize)
    requires { count ≤ vec_len items.old }
    ensures items { items.new.items ≡ drop count items.old.items }
    ensures capacity { vec_capacity items.old ≤ vec_capacity items.new }
{
    let _ = items.drain(..count);
}

/// How many numbers at the front are at most this one.
fn up_to_count(numbers: &[u64], up_to: u64) -> usize
    ensures { result ≡ length (take_while (λ number. nat_le number up_to) numbers.now) }
{
    for (at, number) in numbers.iter().enumerate() {
        if *number > up_to {
            return at;
        }
    }
    numbers.len()
}
