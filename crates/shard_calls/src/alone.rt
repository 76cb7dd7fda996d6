// One client's store over an engine.
ghost use Rattle.std.specs.Prelude.{ℕ, ◌≡◌, [], length, IsTrue};
ghost use Rattle.shard_calls.specs.Holds.{HasRun, HoldsSeries};
ghost use Rattle.shard_calls.specs.Told.{told_of};
ghost use Rattle.shard_steps.specs.Shards.{IsReady, state_of};

use crate::noting::{NotedAttempt, add_attempt, attempt, deletion_attempt};
use crate::{EngineDisk, Site};
use point_model::{Deletion, Need};
use shard_steps::{Shard, begin_view, end_view};
use std::alloc::Global;
use std::marker::{Model, PhantomData};
use std::snapshot::Snapshot;
use store_trait::{DeleteFault, EntryNote, ListView, Store, ViewFault, WriteFault, add_note};
use tsdb_types::Batch;

/// An engine that one client has for itself. Its entries are the batches and the deletions that it accepted, in their order, and those
/// that a fault or want of memory refused are noted too. A contract sees what it tells, and the health of its disk.
pub struct Alone<D: EngineDisk, B: Site> {
    client: u32,
    notes: Vec<EntryNote>,
    tried: Vec<Snapshot<NotedAttempt>>,
    shard: Shard<D>,
    site: PhantomData<B>,
}

impl<D: EngineDisk, B: Site> Model for Alone<D, B> {
    ghost use Rattle.shard_calls.specs.Holds.{Holds};
    ghost use Rattle.shard_calls.specs.Told.{Seen, told_of};
    ghost use Rattle.point_model.specs.ConditionCode.{condition_code};
    ghost use Rattle.std.specs.Coded.{codes};
    ghost use Rattle.shard_calls.specs.Attempts.{entries_tried};
    ghost use Rattle.store_trait.specs.Notes.{entries_of};

    ghost Value = { Seen };

    ghost coded = { Prim.hlevel (codes, condition_code) };

    ghost view = { λ s. record { told = told_of s.client B.start B.series (entries_of s.client s.notes.items) (entries_tried s.client s.tried.items) s.shard; health = D.Disk.health s.shard.logs.disk } };

    ghost invariant = { λ s. Holds D.Disk B.is_sound B.start B.series B.handed_out (entries_of s.client s.notes.items) (entries_tried s.client s.tried.items) s.shard };
}

impl<D: EngineDisk, B: Site> Alone<D, B> {
    /// A store over an engine that is at its start. Where its disk is sound since a moment, the engine ran since then without an entry.
    pub fn new(alloc: Global, client: u32, shard: Shard<D>) -> Alone<D, B>
        requires ready { IsReady D.Disk shard }
        requires unlent { shard.views ≡ 0 }
        requires start { state_of shard ≡ B.start }
        requires series { shard.logs.series.keys ≡ B.series }
        requires sound { IsTrue D.Disk.tells → (since : ℕ) → B.is_sound since → HasRun D.Disk B.start since [] [] shard }
        requires handed_out { D.Disk.handed_out shard.logs.disk ≡ B.handed_out }
        ensures told { result.told ≡ told_of client B.start B.series [] [] shard }
        ensures health { result.health ≡ D.Disk.health shard.logs.disk }
    {
        Alone {
            client,
            notes: Vec::new(alloc),
            tried: Vec::new(alloc),
            shard,
            site: PhantomData,
        }
    }

    /// Gives the engine back. Where its disk was sound since a moment before the start, it ran since then to the entries that the store tells.
    pub fn into_shard(self) -> Shard<D>
        ensures ready { IsReady D.Disk result }
        ensures ran { IsTrue D.Disk.tells → (since : ℕ) → B.is_sound since → HasRun D.Disk B.start since self.told.history self.told.tried result }
        ensures holds { HoldsSeries B.series self.told.history self.told.tried result.logs.series.keys }
        ensures series { self.told.series ≡ length result.logs.series.keys }
        ensures health { self.health ≡ D.Disk.health result.logs.disk }
        // No reader of the disk is out more than at the start, and it has adopted the same files.
        ensures handed_out { D.Disk.handed_out result.logs.disk ≡ B.handed_out }
    {
        let Alone {
            client: _,
            notes: _notes,
            tried: _tried,
            shard,
            site: _,
        } = self;
        shard
    }
}

impl<D: EngineDisk, B: Site> Store for Alone<D, B> {
    type View = ListView;

    ghost told = { λ s. s.told };

    ghost health = { λ s. s.health };

    fn write(&mut self, batch: &Batch) -> Result<u64, WriteFault> {
        self.notes.reserve(1)?;
        self.tried.reserve(1)?;
        match D::write(&mut self.shard, self.client, batch) {
            Ok(number) => {
                add_note(&mut self.notes, EntryNote::Written(Snapshot::of(batch)));
                Ok(number)
            }
            Err(fault) => {
                let tried = attempt(&fault, EntryNote::Written(Snapshot::of(batch)));
                add_attempt(&mut self.tried, self.shard.number(), tried);
                Err(fault)
            }
        }
    }

    fn delete(&mut self, deletion: &Deletion) -> Result<u64, DeleteFault> {
        self.notes.reserve(1)?;
        self.tried.reserve(1)?;
        match D::delete(&mut self.shard, self.client, deletion) {
            Ok(number) => {
                add_note(&mut self.notes, EntryNote::Deleted(Snapshot::of(deletion)));
                Ok(number)
            }
            Err(refusal) => {
                let tried = deletion_attempt(&refusal, EntryNote::Deleted(Snapshot::of(deletion)));
                add_attempt(&mut self.tried, self.shard.number(), tried);
                Err(refusal)
            }
        }
    }

    fn begin_view(&mut self, need: &Need) -> Result<ListView, ViewFault> {
        begin_view(&mut self.shard, need)
    }

    fn end_view(&mut self, view: ListView) {
        end_view(&mut self.shard, view);
    }

    fn number(&mut self) -> u64 {
        self.shard.number()
    }
}
