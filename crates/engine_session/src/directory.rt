ghost use Rattle.session_loop.specs.Sessions.{told};
ghost use Rattle.manifest_log.specs.Calls.{HasNoReader};
ghost use Rattle.engine_session.specs.Ends.{EndsBy};
ghost use Rattle.engine_session.specs.Shells.{EndsShell, Shells};

use crate::{Ended, serve};
use gate_log::LogFault;
use session_io::{Clock, Gate, Report, Sink, Source};
use shard_calls::EngineDisk;
use shard_disk::Trouble;
use shard_opening::open;
use shard_steps::Settings;
use std::alloc::Global;
use std::hash::RandomState;
use tsdb_types::Seed;

/// How a shell ended.
#[derive(Debug, Drop)]
pub enum ShellEnd {
    /// The directory wasn't opened.
    Opening(LogFault),
    /// The client was served until its session ended, and the engine closed: the number of the last entry, and whether nothing is in
    /// doubt any more.
    Done {
        report: Report,
        number: u64,
        closed: Result<(), Trouble>,
    },
}

/// Opens the directory of a disk, serves one client over it until its input or a device ends, and closes it.
pub fn shell<D: EngineDisk, S: Source, K: Sink, C: Clock, G: Gate>(
    alloc: Global,
    seed: Seed,
    hashing: RandomState,
    disk: D,
    settings: Settings,
    source: &mut S,
    sink: &mut K,
    clock: &mut C,
    gate: &G,
) -> (D, ShellEnd)
    requires unread { HasNoReader (D.handed_out disk) }
    ensures shells { Shells D.Disk settings (told S.given S.left S.ended K.written C.moments source.old sink.old clock.old)
        (told S.given S.left S.ended K.written C.moments source.new sink.new clock.new) disk result.0 result.1 }
    ensures ends { EndsShell S.ended S.health K.health source.old source.new sink.old sink.new result.1 }
{
    match open(alloc, seed, hashing, disk, settings) {
        Err((disk, fault)) => (disk, ShellEnd::Opening(fault)),
        Ok(shard) => {
            let Ended {
                disk,
                report,
                number,
                closed,
            } = serve(alloc, shard, source, sink, clock, gate);
            let end = ShellEnd::Done {
                report,
                number,
                closed,
            };
            (disk, end)
        }
    }
}
