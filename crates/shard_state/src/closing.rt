// Settling and closing.
ghost use Rattle.std.specs.Prelude.{◌≡◌};
ghost use Rattle.shard_disk.specs.Health.{HasCause};
ghost use Rattle.shard_state.specs.Calls.{Closes, SettlesDoubt};
ghost use Rattle.shard_state.specs.Engine.{IsReady};

use crate::Logs;
use shard_disk::{Disk, Trouble};

impl<D: Disk> Logs<D> {
    /// Ends the doubt about an entry, so that it isn't there whatever crash comes.
    pub fn settle(&mut self) -> Result<(), Trouble>
        requires ready { IsReady D.Disk self.old }

        ensures settles { SettlesDoubt D.Disk self.old self.new result }
        ensures ready { IsReady D.Disk self.new }
        ensures same { self.new ≡ record self.old { disk = self.new.disk; wal = self.new.wal } }
        ensures handed_out { D.handed_out self.new.disk ≡ D.handed_out self.old.disk }
        ensures fault { HasCause result (D.health self.old.disk) (D.health self.new.disk) }
    {
        self.wal.settle(&mut self.disk)
    }
}

/// Settles, and gives the disk back.
pub fn close<D: Disk>(logs: Logs<D>) -> (D, Result<(), Trouble>)
    requires ready { IsReady D.Disk logs }
    ensures { Closes D.Disk logs result.0 result.1 }
{
    let mut logs = logs;
    let settled = logs.settle();
    let Logs {
        alloc: _,
        disk,
        manifest: _manifest,
        series: _series,
        wal: _wal,
        number: _,
    } = logs;
    (disk, settled)
}
