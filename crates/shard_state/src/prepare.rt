// What an entry needs in memory.
ghost use Rattle.std.specs.Prelude.{◌≡◌, ◌<◌, [], None, IfOk};
ghost use Rattle.point_model.specs.Acceptance.{IsWritable};
ghost use Rattle.point_model.specs.Deletions.{IsLoggable};
ghost use Rattle.point_model.specs.declared.entry.Entry.{Entry};
ghost use Rattle.series_store.specs.Lists.{MayAdd};
ghost use Rattle.wal_store.specs.Segments.{last_number};
ghost use Rattle.shard_state.specs.Engine.{IsRecordOf, MayEnter, series_in};

use crate::Logs;
use point_model::Deletion;
use series_store::NewSeries;
use std::alloc::AllocError;
use tsdb_types::{Batch, SeriesKey};
use wal_store::WalRecord;

/// The records of an entry and of the series that are new with it, framed for the logs.
#[derive(Drop)]
pub struct Prepared {
    pub(crate) series: Option<NewSeries>,
    pub(crate) record: WalRecord,
}

impl<D> Logs<D> {
    /// Makes a batch ready to be entered, whose new series these are: this takes all the memory that entering it needs, and copies
    /// no point.
    pub fn prepare(
        &mut self,
        client: u32,
        batch: &Batch,
        new: &[SeriesKey],
    ) -> Result<Prepared, AllocError>
        requires may { MayAdd self.old.series.keys new.now }
        requires writable { IsWritable batch.now }
        requires limit { self.old.number < last_number }

        ensures ready { IfOk result (MayEnter self.new) }
        ensures series { IfOk result (λ prepared. series_in prepared.series ≡ new.now) }
        ensures none { IfOk result (λ prepared. new.now ≡ [] → prepared.series ≡ None) }
        ensures record { IfOk result (IsRecordOf (Entry.Write client batch.now)) }
        ensures same { self.new ≡ record self.old { series = record self.old.series { room = self.new.series.room } } }
    {
        let series = if new.is_empty() {
            None
        } else {
            Some(self.series.prepare(new)?)
        };
        let record = self.wal.write_record(self.number + 1, client, batch)?;
        Ok(Prepared { series, record })
    }

    /// Makes a deletion ready to be entered, as `prepare` does a batch.
    pub fn prepare_deletion(&self, client: u32, deletion: &Deletion) -> Result<Prepared, AllocError>
        requires loggable { IsLoggable deletion.now }
        requires limit { self.now.number < last_number }

        ensures ready { IfOk result (MayEnter self.now) }
        ensures none { IfOk result (λ prepared. prepared.series ≡ None) }
        ensures record { IfOk result (IsRecordOf (Entry.Delete client deletion.now)) }
    {
        let record = self.wal.delete_record(self.number + 1, client, deletion)?;
        Ok(Prepared {
            series: None,
            record,
        })
    }
}
