//! One client over a store in memory.
ghost use Rattle.std.specs.Prelude.{◌≡◌, true};
ghost use Rattle.session_loop.specs.Sessions.{IsServed, IsQuietEnd, told};
ghost use Rattle.shard_disk.specs.Health.{Ages, Failed};

use crate::gate::OpenGate;
use session_io::{Clock, End, Report, Sink, Source};
use session_loop::session;
use std::alloc::Global;
use store_trait::PlainStore;

/// Serves one client over a store in memory, from no points and the number 0, until its input or a device ends.
pub fn mem<S: Source, K: Sink, C: Clock>(
    alloc: Global,
    source: &mut S,
    sink: &mut K,
    clock: &mut C,
) -> Report
    // What was read, asked and written is a transcript with this report, which one history explains.
    ensures explained { IsServed (told S.given S.left S.ended K.written C.moments source.old sink.old clock.old)
        (told S.given S.left S.ended K.written C.moments source.new sink.new clock.new) result }

    // Each end but want of memory has its cause.
    ensures ended { result.end ≡ End.Read → S.ended source.new ≡ true }
    ensures source_fault { result.end ≡ End.SourceFault → Failed (S.health source.old) (S.health source.new) }
    ensures sink_fault { result.end ≡ End.SinkFault → Failed (K.health sink.old) (K.health sink.new) }

    ensures source_ages { Ages (S.health source.old) (S.health source.new) }
    ensures sink_ages { Ages (K.health sink.old) (K.health sink.new) }
    ensures quiet { IsQuietEnd result.end (S.health source.old) (S.health source.new) (K.health sink.old) (K.health sink.new) }
{
    let mut store = PlainStore::new(alloc, 0);
    session(alloc, &mut store, source, sink, clock, &OpenGate, 0)
}
