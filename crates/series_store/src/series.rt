ghost use Rattle.std.specs.Prelude.{◌≡◌, ◌↔◌, ◌≤◌, ◌++◌, ℕ, [], length, slice_get, option_copied, Some, Err, IsTrue, IfOk, IfNone, OnOk, OnErr};
ghost use Rattle.std.specs.List.{AllByRecursion};
ghost use Rattle.shard_disk.specs.Crash.{Leaves, Same};
ghost use Rattle.shard_disk.specs.Directory.{HasFile, IsPresent};
ghost use Rattle.shard_disk.specs.declared.damage.Damage.{Damage};
ghost use Rattle.gate_log.specs.Faults.{LogHasCause};

use crate::NewSeries;
use crate::held::hold_all;
use crate::read::series_of;
use gate_log::{Log, LogFault};
use indexmap::IndexSet;
use shard_disk::{Disk, Trouble};
use std::alloc::{AllocError, Global};
use std::marker::Model;
use tsdb_types::{Seed, SeriesKey};

/// The series of a directory. The id of a series is its place in the file, counted from 0 over all records.
#[derive(Drop)]
pub struct Series {
    alloc: Global,
    keys: IndexSet<SeriesKey, Seed>,
    log: Log,
}

impl Model for Series {
    ghost use Rattle.indexmap.specs.IndexSet.{spare};
    ghost use Rattle.series_store.specs.Calls.{Kept};
    ghost use Rattle.series_store.specs.Lists.{IsList};

    ghost Value = { Kept };

    ghost view = { λ s. record { keys = s.keys.keys; log = s.log; room = spare s.keys } };

    ghost invariant = { λ s. IsList s.keys.keys };
}

impl Series {
    ghost use Rattle.gate_log.specs.Calls.Append.{Appends};
    ghost use Rattle.gate_log.specs.Calls.Settle.{Settling};
    ghost use Rattle.gate_log.specs.Log.{IsEmptyLog, IsInDoubt, IsPlaced, file_of};
    ghost use Rattle.series_store.specs.Calls.{Finds};
    ghost use Rattle.series_store.specs.Format.{IsKey, record_bytes};
    ghost use Rattle.series_store.specs.Lists.{HasId, HasNoId, IsList, MayAdd};
    ghost use Rattle.series_store.specs.Reading.{IsWrong};

    /// No series yet, in a log without a record, which a closed gate ends. The seed of the hashes is one that clients don't know:
    /// they choose the series.
    pub fn new(alloc: Global, seed: Seed, log: Log) -> Series
        requires { IsEmptyLog log }
        ensures keys { result.keys ≡ [] }
        ensures log { result.log ≡ log }
    {
        Series {
            alloc,
            keys: IndexSet::with_hasher(alloc, seed),
            log,
        }
    }

    /// The series of a file, which is made durable before it answers.
    pub fn read<D: Disk>(
        alloc: Global,
        seed: Seed,
        disk: &mut D,
        no: u32,
    ) -> Result<Series, LogFault>
        requires { IsTrue D.tells → IsPresent (D.files disk.old) no }

        ensures found { IfOk result (λ found. Finds (IsTrue D.tells) no found (D.files disk.new) (D.crashes disk.old) (D.crashes disk.new)) }
        ensures damaged { (damage : Damage) → result ≡ Err (LogFault.Damaged damage) → IsTrue D.tells → HasFile (D.files disk.old) no (IsWrong no damage) }
        ensures fault { LogHasCause result (D.health disk.old) (D.health disk.new) }

        ensures files { D.files disk.new ≡ D.files disk.old }
        ensures crash { Leaves Same (D.crashes disk.old) (D.crashes disk.new) }
        ensures handed_out { D.handed_out disk.new ≡ D.handed_out disk.old }
    {
        let (log, records) = Log::read(alloc, disk, no)?;
        let keys = series_of(alloc, seed, no, &records)?;
        Ok(Series { alloc, keys, log })
    }

    /// How many series there are, at most 10,000,000.
    pub fn len(&self) -> u32
        ensures len { result ≡ length self.now.keys }
        ensures list { IsList self.now.keys }
    {
        self.keys.len() as u32
    }

    pub fn is_empty(&self) -> bool
        ensures { IsTrue result ↔ (self.now.keys ≡ []) }
    {
        self.keys.is_empty()
    }

    /// The id of a series; `None` exactly where it isn't one of these. Takes no memory.
    pub fn id(&self, key: &SeriesKey) -> Option<u32>
        ensures found { (id : ℕ) → (result ≡ Some id) ↔ HasId self.now.keys key.now id }
        ensures none { IfNone result (HasNoId self.now.keys key.now) }
    {
        match self.keys.get_index_of(key) {
            Some(place) => Some(place as u32),
            None => None,
        }
    }

    /// The series with this id; `None` exactly where no series has it.
    pub fn key(&self, id: u32) -> Option<&SeriesKey>
        ensures { option_copied result ≡ slice_get self.now.keys id }
    {
        self.keys.get_index(id as usize)
    }

    /// Makes series ready to be added: their record, and room for them. This is what takes memory of adding them. The room that an
    /// earlier call made stays, whatever the answer.
    pub fn prepare(&mut self, keys: &[SeriesKey]) -> Result<NewSeries, AllocError>
        requires { MayAdd self.old.keys keys.now }
        ensures ok { IfOk result (λ new. new ≡ keys.now) }
        ensures room { OnOk result (length keys.now ≤ self.new.room) }
        ensures grows { self.old.room ≤ self.new.room }
        ensures same { self.new ≡ record self.old { room = self.new.room } }
    {
        let new = NewSeries::new(self.alloc, keys)?;
        self.keys.reserve(keys.len())?;
        Ok(new)
    }

    /// Adds series, durably and all or none, as one record. They have the next ids, in their order. After a refusal none has
    /// an id. After a fault the record may be in the file or not, as `in_doubt` tells; `settle` takes it away, and so does the
    /// next `add` before it adds anything. It takes no memory.
    pub fn add<D: Disk>(&mut self, disk: &mut D, new: NewSeries) -> Result<(), Trouble>
        requires may { MayAdd self.old.keys new }
        requires room { length new ≤ self.old.room }
        requires placed { IsTrue D.tells → IsPlaced (D.files disk.old) self.old.log }

        ensures log { Appends D.Disk (record_bytes new) self.old.log self.new.log disk.old disk.new result }
        ensures ok { OnOk result (self.new.keys ≡ self.old.keys ++ new) }
        ensures refused { OnErr result (self.new.keys ≡ self.old.keys) }
        ensures each { AllByRecursion IsKey new }
    {
        self.log.append(disk, new.frame())?;
        hold_all(&mut self.keys, new.into_keys());
        Ok(())
    }

    /// Ends the doubt about a record, so that its series aren't there whatever crash comes, and closes a missing gate. Else
    /// it does nothing.
    pub fn settle<D: Disk>(&mut self, disk: &mut D) -> Result<(), Trouble>
        requires { IsTrue D.tells → IsPlaced (D.files disk.old) self.old.log }
        ensures log { Settling D.Disk self.old.log self.new.log disk.old disk.new result }
        ensures same { self.new ≡ record self.old { log = self.new.log } }
    {
        self.log.settle(disk)
    }

    /// Whether a record may be in the file or not, as a crash would tell. `settle`, and the next `add`, end that.
    pub fn in_doubt(&self) -> bool
        ensures { IsTrue result ↔ IsInDoubt self.now.log }
    {
        self.log.in_doubt()
    }

    /// The number of the file.
    pub fn file(&self) -> u32
        ensures { result ≡ file_of self.now.log }
    {
        self.log.file()
    }
}
