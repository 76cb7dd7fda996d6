// A batch becomes an entry.
ghost use Rattle.std.specs.Prelude.{◌≡◌, ◌≤◌, ◌++◌, Some, IfOk, IfErr, OnOk, OnErr, IsErrOf};
ghost use Rattle.shard_disk.specs.Health.{Ages};
ghost use Rattle.point_model.specs.Acceptance.{IsAccepted, IsWritable};
ghost use Rattle.point_model.specs.declared.entry.Entry.TheVariants.{Write};
ghost use Rattle.store_trait.specs.Calls.Write.{IsQuiet};
ghost use Rattle.shard_state.specs.Engine.{IsRecordOf, MayEnter, series_in};
ghost use Rattle.shard_state.specs.Meaning.{AreHeld};
ghost use Rattle.wal_store.specs.Segments.{last_number};
ghost use Rattle.shard_steps.specs.Calls.Write.{Adds, Allows, Commits, GoesOn, HasCause, IsOpen, Keeps, Readies, Steps};
ghost use Rattle.shard_steps.specs.Series.{AreUnheld};
ghost use Rattle.shard_steps.specs.Shards.{IsReady, state_of};

use crate::Shard;
use crate::unheld::unheld;
use indexmap::IndexSet;
use shard_disk::{Disk, Trouble};
use shard_state::Prepared;
use std::alloc::AllocError;
use store_trait::WriteFault;
use tsdb_types::{Batch, Seed, SeriesKey};

/// The greatest number that an entry may have.
pub(crate) const LAST_NUMBER: u64 = 9_223_372_036_854_775_807;

/// Makes one entry of a batch and gives its number. All memory is taken before a log is touched: the records, and the room for the
/// points. Then new series are added, then the entry, and only then the points are set. After a refusal the points and the number
/// are as they were, though new series may be held, and after a fault the entry may be in doubt: a crash may then leave it, until
/// the next entry or `close` ends the doubt.
pub fn write<D: Disk>(shard: &mut Shard<D>, client: u32, batch: &Batch) -> Result<u64, WriteFault>
    requires ready { IsReady D.Disk shard.old }
    requires writable { IsWritable batch.now }

    ensures ok { IfOk result (λ number. Adds client batch.now number shard.old shard.new) }
    ensures err { OnErr result (state_of shard.new ≡ state_of shard.old) }
    ensures kept { Keeps shard.old shard.new }
    ensures refused { IfErr result (HasCause batch.now shard.old (D.health shard.old.logs.disk) (D.health shard.new.logs.disk)) }
    ensures goes_on { GoesOn D.Disk client batch.now shard.old shard.new result }
    ensures ready { IsReady D.Disk shard.new }
    ensures ages { Ages (D.health shard.old.logs.disk) (D.health shard.new.logs.disk) }
    ensures quiet { IsQuiet result (D.health shard.old.logs.disk) (D.health shard.new.logs.disk) }
{
    let new = shard.admit(batch)?;
    let prepared = shard.prepare(client, batch, &new)?;
    shard.commit(client, batch, prepared)
}

impl<D> Shard<D> {
    /// Whether nothing but memory and the disk refuses the batch, and then its series that aren't held.
    fn admit(&self, batch: &Batch) -> Result<IndexSet<SeriesKey, Seed>, WriteFault>
        requires { self.now.logs.number ≤ last_number }
        ensures ok { IfOk result (λ new. Allows batch.now self.now new.keys) }
        ensures refused { (old : _) (new : _) → IfErr result (HasCause batch.now self.now old new) }
        ensures no_fault { IsErrOf result WriteFault.Fault → ⊥ }
    {
        if let Some((field, held)) = self.live.conflict(batch)? {
            return Err(WriteFault::TypeConflict {
                field,
                held,
                number: self.logs.number(),
            });
        }
        if self.logs.number() >= LAST_NUMBER {
            return Err(WriteFault::HistoryFull);
        }
        let new = unheld(self.alloc, self.seed, self.logs.series(), batch)?;
        self.fits(batch, new.as_slice())?;
        Ok(new)
    }

    /// Whether no limit refuses the batch, whose series that aren't held these are.
    fn fits(&self, batch: &Batch, new: &[SeriesKey]) -> Result<(), WriteFault>
        requires open { IsOpen batch.now self.now }
        requires unheld { AreUnheld self.now.logs.series.keys batch.now new.now }
        ensures ok { OnOk result (Allows batch.now self.now new.now) }
        ensures refused { (old : _) (new : _) → IfErr result (HasCause batch.now self.now old new) }
        ensures no_fault { IsErrOf result WriteFault.Fault → ⊥ }
    {
        let held = self.logs.series().len() as u64;
        if new.len() as u64 > self.settings.series.saturating_sub(held)
            || held > self.settings.series
        {
            return Err(WriteFault::SeriesFull { held });
        }
        let held = self.live.cells();
        if batch.points().len() as u64 > self.settings.cache_points.saturating_sub(held) {
            return Err(WriteFault::CacheFull { held });
        }
        Ok(())
    }

    /// Takes all memory that the batch needs once the logs are touched: its records, and room for its points.
    fn prepare(
        &mut self,
        client: u32,
        batch: &Batch,
        new: &IndexSet<SeriesKey, Seed>,
    ) -> Result<Prepared, AllocError>
        requires writable { IsWritable batch.now }
        requires allowed { Allows batch.now self.old new.now.keys }
        ensures ok { IfOk result (λ prepared. Readies client batch.now new.now.keys prepared self.old self.new) }
        ensures same { self.new ≡ record self.old { logs = self.new.logs; live = self.new.live } }
        ensures points { self.new.live.points ≡ self.old.live.points }
        ensures logs { self.new.logs ≡ record self.old.logs { series = record self.old.logs.series { room = self.new.logs.series.room } } }
    {
        let prepared = self.logs.prepare(client, batch, new.as_slice())?;
        self.live.reserve(batch)?;
        Ok(prepared)
    }
}

impl<D: Disk> Shard<D> {
    /// Adds the entry of a batch to the logs, and then its points to those in memory. It takes no memory of its own.
    fn commit(&mut self, client: u32, batch: &Batch, prepared: Prepared) -> Result<u64, WriteFault>
        requires ready { IsReady D.Disk self.old }
        requires may { MayEnter self.old.logs prepared }
        requires record { IsRecordOf (Write client batch.now) prepared }
        requires room { self.old.live.room ≡ Some batch.now }
        requires writable { IsWritable batch.now }
        requires accepted { IsAccepted self.old.live.points batch.now }
        requires held { AreHeld (self.old.logs.series.keys ++ series_in prepared.series) batch.now }
        ensures commits { Commits D.Disk client batch.now prepared self.old self.new result }
        ensures goes_on { Steps D.Disk client batch.now self.old self.new result }
        ensures ready { IsReady D.Disk self.new }
        ensures ages { Ages (D.health self.old.logs.disk) (D.health self.new.logs.disk) }
        ensures quiet { IsQuiet result (D.health self.old.logs.disk) (D.health self.new.logs.disk) }
    {
        let _ = client;
        match self.logs.enter(prepared) {
            Ok(()) => {
                self.live.insert(batch);
                Ok(self.logs.number())
            }
            Err(Trouble::Memory) => Err(WriteFault::Memory),
            Err(Trouble::Fault) => Err(WriteFault::Fault),
        }
    }
}
