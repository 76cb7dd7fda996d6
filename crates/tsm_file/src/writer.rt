// A file that is written key by key.
ghost use Rattle.std.specs.Prelude.{◌≡◌, ◌≢◌, ◌+◌, ◌<◌, ◌^◌, ◌++◌, [], ◌∷◌, List, length, map, fold, max, Some, None, IsTrue, IsErrOf, OnOk, IfOk, IfErr, MatchResult};
ghost use Rattle.shard_disk.specs.Health.{Ages, Failed};
ghost use Rattle.shard_disk.specs.Stage.{Finished, Refused};
ghost use Rattle.tsm_format.specs.Faults.{last_key};
ghost use Rattle.tsm_format.specs.Rows.{AreIndex, end_of};
ghost use Rattle.tsm_file.specs.Written.{IsHeld, KeyedPoint};
ghost use Rattle.tsm_file.specs.Writing.{Holds, IsClosed, IsOpen, IsOutput, IsReadBack, MayCome, device_of};
ghost use Rattle.tsm_file.specs.Steps.{EndsBlock, IsEnded, MayBegin, MayGoOn};

use crate::framed::{entry_at, frame_block, kind_in, most_blocks, room_behind};
use crate::{TsmFacts, TsmIndex};
use fixed_width::put_u64;
use shard_disk::{Trouble, Writer};
use std::alloc::Global;
use std::mem;
use tsdb_types::{Kind, Time, Value};
use tsm_format::{Entries, Entry, HEADER, Key, KeyRow, write_index};

/// How many points each block of a key has, but the last one.
const BLOCK_POINTS: usize = 1000;

/// Writes a TSM file, key by key and in each key point by point. It keeps the index and at most 1,000 points.
pub struct TsmWriter<W> {
    device: W,
    alloc: Global,
    /// The keys before the last one, with their blocks.
    rows: Vec<KeyRow>,
    /// The last key, what its values are, and the blocks of it that are written.
    key: Vec<u8>,
    kind: Kind,
    entries: Vec<Entry>,
    /// The points of the last key behind these blocks. There are none only before the first push.
    points: Vec<(Time, Value)>,
    /// Where the next block begins.
    end: u64,
    /// How many points the blocks hold.
    count: u64,
    /// The bytes of a block, kept for its room.
    buffer: Vec<u8>,
}

impl<W: Writer> TsmWriter<W> {
    /// A file without points, on a device that holds nothing. A refusal gives the device back, which may only be
    /// dropped.
    pub fn new(alloc: Global, device: W) -> Result<TsmWriter<W>, (W, Trouble)>
        requires empty { IsTrue W.tells → W.content device ≡ [] }
        requires usable { W.stage device ≢ Refused }
        ensures ok { IfOk result (λ writer. Holds (IsTrue W.tells) W.content W.stage writer []) }
        ensures ages { MatchResult result
            (λ writer. Ages (W.health device) (W.health (device_of writer)))
            (λ refused. Ages (W.health device) (W.health refused.0)) }
        ensures fault { IfErr result (λ refused. refused.1 ≡ Trouble.Fault → Failed (W.health device) (W.health refused.0)) }
    {
        let mut device = device;
        match device.append(&HEADER) {
            Ok(()) => Ok(TsmWriter {
                device,
                alloc,
                rows: Vec::new(alloc),
                key: Vec::new(alloc),
                kind: Kind::Integer,
                entries: Vec::new(alloc),
                points: Vec::new(alloc),
                end: HEADER.len() as u64,
                count: 0,
                buffer: Vec::new(alloc),
            }),
            Err(trouble) => Err((device, trouble)),
        }
    }

    /// Adds a point: of a key behind the last one, or of that key, later and of its kind. After a refusal the writer may
    /// only be given up.
    pub fn push(&mut self, key: &[u8], time: Time, value: Value) -> Result<(), Trouble>
        requires { (pushed : List KeyedPoint) × Holds (IsTrue W.tells) W.content W.stage self.old pushed
            × MayCome pushed (record { key = key.now; time = time; value = value }) }
        ensures ok { OnOk result ((pushed : List KeyedPoint) → Holds (IsTrue W.tells) W.content W.stage self.old pushed
            → Holds (IsTrue W.tells) W.content W.stage self.new (pushed ++ record { key = key.now; time = time; value = value } ∷ [])) }
        ensures ages { Ages (W.health (device_of self.old)) (W.health (device_of self.new)) }
        ensures fault { IsErrOf result Trouble.Fault → Failed (W.health (device_of self.old)) (W.health (device_of self.new)) }
    {
        if self.points.is_empty() {
            return self.begin(key, time, value);
        }
        if self.key.as_slice() != key {
            self.end_key()?;
            return self.begin(key, time, value);
        }
        self.add(time, value)
    }

    /// Ends the file, durably, and tells what it holds. A refusal gives the device back, which may only be dropped.
    pub fn finish(self) -> Result<(W, TsmFacts), (W, Trouble)>
        requires { (pushed : List KeyedPoint) × Holds (IsTrue W.tells) W.content W.stage self pushed × (pushed ≢ []) }
        ensures ok { IfOk result (λ ended. (pushed : List KeyedPoint) → Holds (IsTrue W.tells) W.content W.stage self pushed
            → IsOutput (IsTrue W.tells) (W.content ended.0) ended.1 pushed) }
        ensures read_back { IfOk result (λ ended. (pushed : List KeyedPoint) → Holds (IsTrue W.tells) W.content W.stage self pushed
            → IsReadBack (IsTrue W.tells) (W.content ended.0) ended.1 pushed) }
        ensures finished { IfOk result (λ ended. W.stage ended.0 ≡ Finished) }
        ensures ages { MatchResult result
            (λ ended. Ages (W.health (device_of self)) (W.health ended.0))
            (λ refused. Ages (W.health (device_of self)) (W.health refused.0)) }
        ensures fault { IfErr result (λ refused. refused.1 ≡ Trouble.Fault → Failed (W.health (device_of self)) (W.health refused.0)) }
    {
        let mut writer = self;
        match writer.end_file() {
            Ok(()) => Ok(writer.into_facts()),
            Err(trouble) => Err((writer.give_up(), trouble)),
        }
    }

    /// The device itself. Takes no memory.
    pub fn give_up(self) -> W
        ensures { result ≡ device_of self }
    {
        let TsmWriter {
            device,
            alloc: _,
            rows: _,
            key: _,
            kind: _,
            entries: _,
            points: _,
            end: _,
            count: _,
            buffer: _,
        } = self;
        device
    }

    /// The first point of a key, where no points are left of another.
    fn begin(&mut self, key: &[u8], time: Time, value: Value) -> Result<(), Trouble>
        ensures opens { OnOk result ((pushed : List KeyedPoint) → MayBegin (last_key None self.old.rows.items) key.now
            → IsClosed (IsTrue W.tells) (W.content (device_of self.old)) self.old pushed
            → IsOpen (IsTrue W.tells) (W.content (device_of self.new)) self.new (pushed ++ record { key = key.now; time = time; value = value } ∷ [])) }
        ensures device { device_of self.new ≡ device_of self.old }
        ensures fault { ¬ IsErrOf result Trouble.Fault }
    {
        self.kind = kind_in(time, value);
        self.key = Vec::from_slice(self.alloc, key)?;
        self.entries = Vec::new(self.alloc);
        self.points.push((time, value))?;
        Ok(())
    }

    /// A further point of the last key.
    fn add(&mut self, time: Time, value: Value) -> Result<(), Trouble>
        requires usable { W.stage (device_of self.old) ≢ Refused }
        requires open { (pushed : List KeyedPoint) × IsOpen (IsTrue W.tells) (W.content (device_of self.old)) self.old pushed }
        requires may { MayGoOn self.old time value }
        ensures goes_on { OnOk result ((pushed : List KeyedPoint) → IsOpen (IsTrue W.tells) (W.content (device_of self.old)) self.old pushed
            → IsOpen (IsTrue W.tells) (W.content (device_of self.new)) self.new (pushed ++ record { key = self.old.key.items; time = time; value = value } ∷ [])) }
        ensures usable { OnOk result (W.stage (device_of self.new) ≢ Refused) }
        ensures ages { Ages (W.health (device_of self.old)) (W.health (device_of self.new)) }
        ensures fault { IsErrOf result Trouble.Fault → Failed (W.health (device_of self.old)) (W.health (device_of self.new)) }
    {
        kind_in(time, value);
        if self.points.len() < BLOCK_POINTS {
            self.points.push((time, value))?;
            return Ok(());
        }
        self.end_block()?;
        self.points.push((time, value))?;
        Ok(())
    }

    /// Writes the points that are left as a block of the last key.
    fn end_block(&mut self) -> Result<(), Trouble>
        requires usable { W.stage (device_of self.old) ≢ Refused }
        requires held { IsHeld self.old.kind self.old.points.items }
        ensures ends { OnOk result (EndsBlock (IsTrue W.tells) W.content self.old self.new) }
        ensures usable { OnOk result (W.stage (device_of self.new) ≢ Refused) }
        ensures ages { Ages (W.health (device_of self.old)) (W.health (device_of self.new)) }
        ensures fault { IsErrOf result Trouble.Fault → Failed (W.health (device_of self.old)) (W.health (device_of self.new)) }
    {
        frame_block(self.alloc, &mut self.buffer, &self.points)?;
        // A block of 1,000 points is far shorter, and no file that long.
        let Some((size, end)) = room_behind(self.end, self.buffer.len()) else {
            return Err(Trouble::Memory);
        };
        let Some(count) = self.count.checked_add(self.points.len() as u64) else {
            return Err(Trouble::Memory);
        };
        let entry = entry_at(&self.points, self.end, size);
        self.entries.push(entry)?;
        self.device.append(&self.buffer)?;
        self.end = end;
        self.count = count;
        self.points.clear();
        Ok(())
    }

    /// Writes the last block of the last key, and puts the key to those that are done.
    fn end_key(&mut self) -> Result<(), Trouble>
        requires usable { W.stage (device_of self.old) ≢ Refused }
        requires open { (pushed : List KeyedPoint) × IsOpen (IsTrue W.tells) (W.content (device_of self.old)) self.old pushed }
        ensures closes { OnOk result ((pushed : List KeyedPoint) → IsOpen (IsTrue W.tells) (W.content (device_of self.old)) self.old pushed
            → IsClosed (IsTrue W.tells) (W.content (device_of self.new)) self.new pushed) }
        ensures last { OnOk result (last_key None self.new.rows.items ≡ Some self.old.key.items) }
        ensures usable { OnOk result (W.stage (device_of self.new) ≢ Refused) }
        ensures ages { Ages (W.health (device_of self.old)) (W.health (device_of self.new)) }
        ensures fault { IsErrOf result Trouble.Fault → Failed (W.health (device_of self.old)) (W.health (device_of self.new)) }
    {
        self.end_block()?;
        let key = mem::replace(&mut self.key, Vec::new(self.alloc));
        let entries = mem::replace(&mut self.entries, Vec::new(self.alloc));
        self.rows.push(KeyRow {
            key: Key::new(key),
            kind: self.kind,
            entries: Entries::new(entries),
        })?;
        Ok(())
    }

    /// Writes what is left of the blocks, the index and the footer, and makes the file durable.
    fn end_file(&mut self) -> Result<(), Trouble>
        requires usable { W.stage (device_of self.old) ≢ Refused }
        requires open { (pushed : List KeyedPoint) × IsOpen (IsTrue W.tells) (W.content (device_of self.old)) self.old pushed }
        ensures ends { OnOk result ((pushed : List KeyedPoint) → IsOpen (IsTrue W.tells) (W.content (device_of self.old)) self.old pushed
            → IsEnded (IsTrue W.tells) (W.content (device_of self.new)) self.new pushed) }
        ensures finished { OnOk result (W.stage (device_of self.new) ≡ Finished) }
        ensures ages { Ages (W.health (device_of self.old)) (W.health (device_of self.new)) }
        ensures fault { IsErrOf result Trouble.Fault → Failed (W.health (device_of self.old)) (W.health (device_of self.new)) }
    {
        self.end_key()?;
        let mut tail = write_index(self.alloc, &self.rows)?;
        put_u64(&mut tail, self.end)?;
        self.device.append(&tail)?;
        self.device.finish()?;
        Ok(())
    }

    /// The device, and what was written to it.
    fn into_facts(self) -> (W, TsmFacts)
        requires { AreIndex (end_of self.rows.items) self.rows.items }
        ensures device { result.0 ≡ device_of self }
        ensures points { result.1.points ≡ self.count }
        ensures most_entries { result.1.most_entries ≡ fold max 0 (map (λ row. length row.entries) self.rows.items) }
        ensures index { result.1.index ≡ record { file = 0; rows = self.rows.items } }
    {
        let TsmWriter {
            device,
            alloc: _,
            rows,
            key: _,
            kind: _,
            entries: _,
            points: _,
            end: _,
            count,
            buffer: _,
        } = self;
        let most_entries = most_blocks(&rows);
        let facts = TsmFacts {
            points: count,
            most_entries,
            index: TsmIndex::of_rows(0, rows),
        };
        (device, facts)
    }
}
