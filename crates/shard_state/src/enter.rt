// An entry is added to the logs.
ghost use Rattle.std.specs.Prelude.{◌≡◌, ◌+◌, ◌++◌, ◌≤◌, ◌<◌, length, IsTrue, OnOk, OnErr};
ghost use Rattle.shard_disk.specs.Health.{HasCause};
ghost use Rattle.series_store.specs.Lists.{MayAdd};
ghost use Rattle.wal_store.specs.Segments.{last_number};
ghost use Rattle.shard_state.specs.Calls.{AddsEntry, AddsSeries, Counts, Enters, GoesOn};
ghost use Rattle.shard_state.specs.Engine.{IsReady, MayEnter};

use crate::{Logs, Prepared};
use series_store::NewSeries;
use shard_disk::{Disk, Trouble};
use wal_store::WalRecord;

impl<D: Disk> Logs<D> {
    /// Adds what was prepared, durably: the new series, and then the entry with the next number. It takes no memory of its own.
    /// After a refusal the series may be held, and the entry may be in doubt: `settle` and the next entry end that.
    pub fn enter(&mut self, prepared: Prepared) -> Result<(), Trouble>
        requires ready { IsReady D.Disk self.old }
        requires may { MayEnter self.old prepared }

        ensures enters { Enters D.Disk prepared self.old self.new result }
        ensures goes_on { GoesOn D.Disk prepared self.old self.new result }
        ensures counts { Counts prepared self.old self.new result }
        ensures ready { IsReady D.Disk self.new }
        ensures handed_out { D.handed_out self.new.disk ≡ D.handed_out self.old.disk }
        ensures fault { HasCause result (D.health self.old.disk) (D.health self.new.disk) }
    {
        let Prepared { series, record } = prepared;
        if let Some(series) = series {
            self.add_series(series)?;
        }
        self.add_entry(&record)
    }

    /// Adds series, durably. What is in doubt of the entries stays so.
    fn add_series(&mut self, series: NewSeries) -> Result<(), Trouble>
        requires ready { IsReady D.Disk self.old }
        requires may { MayAdd self.old.series.keys series }
        requires room { length series ≤ self.old.series.room }

        ensures adds { AddsSeries D.Disk series self.old self.new result }
        ensures ok { OnOk result (self.new.series.keys ≡ self.old.series.keys ++ series) }
        ensures refused { OnErr result (self.new.series.keys ≡ self.old.series.keys) }
        ensures ready { IsReady D.Disk self.new }
        ensures same { self.new ≡ record self.old { disk = self.new.disk; series = self.new.series } }
        ensures handed_out { D.handed_out self.new.disk ≡ D.handed_out self.old.disk }
        ensures fault { HasCause result (D.health self.old.disk) (D.health self.new.disk) }
    {
        self.series.add(&mut self.disk, series)
    }

    /// Adds an entry with the next number, durably. After a fault it is in doubt, or isn't there.
    fn add_entry(&mut self, added: &WalRecord) -> Result<(), Trouble>
        requires ready { IsReady D.Disk self.old }
        requires number { added.now.number ≡ self.old.number + 1 }
        requires limit { self.old.number < last_number }

        ensures adds { AddsEntry D.Disk added.now self.old self.new result }
        ensures number { OnOk result (self.new.number ≡ self.old.number + 1) }
        ensures same_number { OnErr result (self.new.number ≡ self.old.number) }
        ensures ready { IsReady D.Disk self.new }
        ensures same { self.new ≡ record self.old { disk = self.new.disk; wal = self.new.wal; number = self.new.number } }
        ensures handed_out { D.handed_out self.new.disk ≡ D.handed_out self.old.disk }
        ensures fault { HasCause result (D.health self.old.disk) (D.health self.new.disk) }
    {
        self.wal.append(&mut self.disk, added)?;
        self.number += 1;
        Ok(())
    }
}
