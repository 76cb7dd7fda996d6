//! A whole session over a store.
ghost use Rattle.std.specs.Prelude.{◌≡◌, [], None, true, length, IfOk};
ghost use Rattle.store_trait.specs.Told.{state_now};
ghost use Rattle.session_loop.specs.Composed.{SessionsCompose};
ghost use Rattle.session_loop.specs.Pendings.{Pends};
ghost use Rattle.session_loop.specs.Sessions.{IsSession, IsQuietEnd, told};
ghost use Rattle.session_loop.specs.Steps.{stored};
ghost use Rattle.shard_disk.specs.Health.{Ages, Failed};

use crate::client::{Session, run};
use crate::pending::Pending;
use crate::replies::ReplyText;
use session_io::{Clock, End, Gate, Report, Sink, Source};
use std::alloc::{AllocError, Global};
use store_trait::Store;

/// How many bytes are read at once.
const PIECE: usize = 65_536;

/// Serves one client over a store, until its input or a device ends. The client has the number `who` at the gate.
pub fn session<S: Store, R: Source, K: Sink, C: Clock, G: Gate>(
    alloc: Global,
    store: &mut S,
    source: &mut R,
    sink: &mut K,
    clock: &mut C,
    gate: &G,
    who: u32,
) -> Report
    // No view of the store is out.
    requires none_out { (S.told store.old).out ≡ [] }

    // What was read, asked and written is a transcript with this report, whose answers take their places in the store's history.
    ensures served { IsSession (told R.given R.left R.ended K.written C.moments source.old sink.old clock.old)
        (told R.given R.left R.ended K.written C.moments source.new sink.new clock.new)
        (stored S.told S.health store.old) (stored S.told S.health store.new) result }

    // Each end but want of memory has its cause.
    ensures ended { result.end ≡ End.Read → R.ended source.new ≡ true }
    ensures source_fault { result.end ≡ End.SourceFault → Failed (R.health source.old) (R.health source.new) }
    ensures sink_fault { result.end ≡ End.SinkFault → Failed (K.health sink.old) (K.health sink.new) }

    ensures source_ages { Ages (R.health source.old) (R.health source.new) }
    ensures sink_ages { Ages (K.health sink.old) (K.health sink.new) }
    ensures quiet { IsQuietEnd result.end (R.health source.old) (R.health source.new) (K.health sink.old) (K.health sink.new) }
{
    let opening = store.number();
    match make_rooms(alloc) {
        Err(AllocError) => unserved(opening),
        Ok(rooms) => serve(alloc, rooms, opening, store, source, sink, clock, gate, who),
    }
}

/// What sessions over one history come to, each over a store of its own: the history explains what all clients were told.
pub fn sessions_compose()
    ensures { SessionsCompose }
{}

/// What a session keeps while it lasts.
#[derive(Drop)]
struct Rooms {
    pending: Pending,
    text: ReplyText,
    buffer: Vec<u8>,
}

fn make_rooms(alloc: Global) -> Result<Rooms, AllocError>
    ensures pending { IfOk result (λ rooms. Pends rooms.pending None []) }
    ensures buffer { IfOk result (λ rooms. length rooms.buffer.items ≡ 65536) }
{
    Ok(Rooms {
        pending: Pending::new(alloc)?,
        text: ReplyText::new(alloc)?,
        buffer: vec![in alloc; 0; PIECE]?,
    })
}

/// The report where there is no memory to begin.
fn unserved(opening: u64) -> Report
    ensures { result ≡ record { requests = 0; last = opening; end = End.Memory } }
{
    Report {
        requests: 0,
        last: opening,
        end: End::Memory,
    }
}

fn serve<S: Store, R: Source, K: Sink, C: Clock, G: Gate>(
    alloc: Global,
    rooms: Rooms,
    opening: u64,
    store: &mut S,
    source: &mut R,
    sink: &mut K,
    clock: &mut C,
    gate: &G,
    who: u32,
) -> Report
    requires pending { Pends rooms.pending None [] }
    requires buffer { length rooms.buffer.items ≡ 65536 }
    requires none_out { (S.told store.old).out ≡ [] }
    requires opening { opening ≡ (state_now (S.told store.old)).number }
    ensures served { IsSession (told R.given R.left R.ended K.written C.moments source.old sink.old clock.old)
        (told R.given R.left R.ended K.written C.moments source.new sink.new clock.new)
        (stored S.told S.health store.old) (stored S.told S.health store.new) result }
    ensures ended { result.end ≡ End.Read → R.ended source.new ≡ true }
    ensures source_fault { result.end ≡ End.SourceFault → Failed (R.health source.old) (R.health source.new) }
    ensures sink_fault { result.end ≡ End.SinkFault → Failed (K.health sink.old) (K.health sink.new) }
    ensures source_ages { Ages (R.health source.old) (R.health source.new) }
    ensures sink_ages { Ages (K.health sink.old) (K.health sink.new) }
    ensures quiet { IsQuietEnd result.end (R.health source.old) (R.health source.new) (K.health sink.old) (K.health sink.new) }
{
    let Rooms {
        mut pending,
        text,
        mut buffer,
    } = rooms;
    let mut session = Session {
        alloc,
        who,
        text,
        replies: 0,
        last: opening,
    };
    let end = run(
        &mut session,
        &mut pending,
        buffer.as_mut_slice(),
        store,
        source,
        sink,
        clock,
        gate,
    );
    Report {
        requests: session.replies,
        last: session.last,
        end,
    }
}
