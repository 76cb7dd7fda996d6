//! One client: its requests, one after another, and the replies to them.
ghost use Rattle.std.specs.Prelude.{◌≡◌, ◌<◌, ◌++◌, ◌∷◌, [], true, List, ℕ, ℤ, length, IfOk, OnOk, OnErr, IfSome, None, fold, max};
ghost use Rattle.std.specs.Option.{option_to_list};
ghost use Rattle.session_io.specs.Streams.{Grows};
ghost use Rattle.session_model.specs.Lines.{Request};
ghost use Rattle.session_model.specs.Lines.Request.{Line as OneLine, Batch};
ghost use Rattle.session_model.specs.Readable.{Lacks};
ghost use Rattle.session_loop.specs.Asked.{IsWritableStatement};
ghost use Rattle.session_loop.specs.LineAsItComes.{StandsFor};
ghost use Rattle.session_loop.specs.Gathered.{Gathers};
ghost use Rattle.session_loop.specs.Pendings.{Pends, HasEnded};
ghost use Rattle.session_loop.specs.Steps.{Stored, stored, ReadMeans};
ghost use Rattle.session_loop.specs.Sessions.{HasMet, IsQuietEnd};
ghost use Rattle.shard_disk.specs.Health.{Ages, Failed};

use crate::gathering::Gathering;
use crate::pending::{Ended, Pending};
use crate::pieces::{cut, front};
use crate::read::{read_gathered, read_line};
use crate::replies::ReplyText;
use crate::serve::serve_read;
use session_io::{Clock, End, Gate, Place, Sink, Source};
use session_model::Statement;
use shard_disk::{Fault, Trouble};
use std::alloc::{AllocError, Global};
use store_trait::Store;

/// What a session has done so far.
#[derive(Drop)]
pub struct Session {
    pub alloc: Global,
    /// The client's number at the gate.
    pub who: u32,
    /// The text of the reply.
    pub text: ReplyText,
    /// How many replies were written.
    pub replies: u64,
    /// The greatest number that the store told.
    pub last: u64,
}

ghost use Rattle.session_loop.specs.Progress.{Gives, Replied, StopsIn, Takes, Stops, Concludes, HoldsLast, WritesFront, Finishes, FinishesShort, moment, AnswersOne, StopsInOne, Answers, BreaksOff, saying};

/// Reads and serves until the input or a device ends.
pub fn run<S: Store, R: Source, K: Sink, C: Clock, G: Gate>(
    session: &mut Session,
    pending: &mut Pending,
    buffer: &mut [u8],
    store: &mut S,
    source: &mut R,
    sink: &mut K,
    clock: &mut C,
    gate: &G,
) -> End
    requires room { 0 < length buffer.old }
    requires none_out { (S.told store.old).out ≡ [] }
    ensures concludes { Pends pending.old None [] → (read : List ℕ) × Gives (R.given source.old) (R.given source.new) (R.left source.old) (R.left source.new) read
        × Concludes (moment S.told S.health K.written C.moments session.old store.old sink.old clock.old)
        (moment S.told S.health K.written C.moments session.new store.new sink.new clock.new) read (R.ended source.new) result }
    ensures ended { result ≡ End.Read → R.ended source.new ≡ true }
    ensures all_read { result ≡ End.Read → IfSome (R.left source.new) (λ bytes. bytes ≡ []) }
    ensures none_out { (S.told store.new).out ≡ [] }
    ensures source_ages { Ages (R.health source.old) (R.health source.new) }
    ensures source_fault { result ≡ End.SourceFault → Failed (R.health source.old) (R.health source.new) }
    ensures sink_ages { Ages (K.health sink.old) (K.health sink.new) }
    ensures sink_fault { result ≡ End.SinkFault → Failed (K.health sink.old) (K.health sink.new) }
    ensures quiet { IsQuietEnd result (R.health source.old) (R.health source.new) (K.health sink.old) (K.health sink.new) }
{
    'reads: loop {
        match source.read(buffer) {
            Err(Fault) => return End::SourceFault,
            Ok(0) => match finish(session, pending, store, sink, clock, gate) {
                Ok(()) => return End::Read,
                Err(Trouble::Fault) => return End::SinkFault,
                Err(Trouble::Memory) => return End::Memory,
            },
            Ok(count) => {
                let piece = front(buffer, count);
                match feed(session, pending, piece, store, sink, clock, gate) {
                    Ok(()) => {}
                    Err(Trouble::Fault) => return End::SinkFault,
                    Err(Trouble::Memory) => return End::Memory,
                }
            }
        }
    }
}

/// Serves each request that the piece ends, and keeps what is left of it.
fn feed<S: Store, K: Sink, C: Clock, G: Gate>(
    session: &mut Session,
    pending: &mut Pending,
    piece: &[u8],
    store: &mut S,
    sink: &mut K,
    clock: &mut C,
    gate: &G,
) -> Result<(), Trouble>
    requires none_out { (S.told store.old).out ≡ [] }
    ensures ok { OnOk result ((before : List ℕ) → HoldsLast pending.old before → Takes (moment S.told S.health K.written C.moments session.old store.old sink.old clock.old)
        (moment S.told S.health K.written C.moments session.new store.new sink.new clock.new) pending.new before piece.now) }
    ensures err { OnErr result ((before : List ℕ) → HoldsLast pending.old before → Stops (moment S.told S.health K.written C.moments session.old store.old sink.old clock.old)
        (moment S.told S.health K.written C.moments session.new store.new sink.new clock.new) before piece.now) }
    ensures none_out { (S.told store.new).out ≡ [] }
    ensures fault { HasMet result (K.health sink.old) (K.health sink.new) }
{
    let mut rest = piece;
    'lines: while let Some((end, behind)) = cut(rest, b'\n') {
        end_line(session, pending, end, store, sink, clock, gate)?;
        rest = behind;
    }
    pending.extend(rest);
    Ok(())
}

/// Serves the request that these bytes and a newline end, if they end one.
fn end_line<S: Store, K: Sink, C: Clock, G: Gate>(
    session: &mut Session,
    pending: &mut Pending,
    end: &[u8],
    store: &mut S,
    sink: &mut K,
    clock: &mut C,
    gate: &G,
) -> Result<(), Trouble>
    requires line { Lacks 10 end.now }
    requires none_out { (S.told store.old).out ≡ [] }
    ensures ok { OnOk result ((before : List ℕ) → HoldsLast pending.old before → Takes (moment S.told S.health K.written C.moments session.old store.old sink.old clock.old)
        (moment S.told S.health K.written C.moments session.new store.new sink.new clock.new) pending.new before (end.now ++ 10 ∷ [])) }
    ensures err { OnErr result ((before : List ℕ) → HoldsLast pending.old before → Stops (moment S.told S.health K.written C.moments session.old store.old sink.old clock.old)
        (moment S.told S.health K.written C.moments session.new store.new sink.new clock.new) before (end.now ++ 10 ∷ [])) }
    ensures none_out { (S.told store.new).out ≡ [] }
    ensures fault { HasMet result (K.health sink.old) (K.health sink.new) }
{
    pending.extend(end);
    let ended = pending.end_line();
    let outcome = reply(session, pending, ended, store, sink, clock, gate);
    pending.clear();
    outcome
}

/// Serves the request that the input ends.
fn finish<S: Store, K: Sink, C: Clock, G: Gate>(
    session: &mut Session,
    pending: &mut Pending,
    store: &mut S,
    sink: &mut K,
    clock: &mut C,
    gate: &G,
) -> Result<(), Trouble>
    requires none_out { (S.told store.old).out ≡ [] }
    ensures ok { OnOk result ((before : List ℕ) → HoldsLast pending.old before → Finishes (moment S.told S.health K.written C.moments session.old store.old sink.old clock.old)
        (moment S.told S.health K.written C.moments session.new store.new sink.new clock.new) before) }
    ensures err { OnErr result ((before : List ℕ) → HoldsLast pending.old before → FinishesShort (moment S.told S.health K.written C.moments session.old store.old sink.old clock.old)
        (moment S.told S.health K.written C.moments session.new store.new sink.new clock.new) before) }
    ensures none_out { (S.told store.new).out ≡ [] }
    ensures fault { HasMet result (K.health sink.old) (K.health sink.new) }
{
    let ended = pending.end_input();
    reply(session, pending, ended, store, sink, clock, gate)
}

/// Replies to the request that has ended, if one has.
fn reply<S: Store, K: Sink, C: Clock, G: Gate>(
    session: &mut Session,
    pending: &Pending,
    ended: Ended,
    store: &mut S,
    sink: &mut K,
    clock: &mut C,
    gate: &G,
) -> Result<(), Trouble>
    requires none_out { (S.told store.old).out ≡ [] }
    ensures ok { OnOk result ((before after : List Request) → HasEnded ended pending.now before after → Replied (moment S.told S.health K.written C.moments session.old store.old sink.old clock.old)
        (moment S.told S.health K.written C.moments session.new store.new sink.new clock.new) before after) }
    ensures err { OnErr result ((before after : List Request) → HasEnded ended pending.now before after → StopsIn (moment S.told S.health K.written C.moments session.old store.old sink.old clock.old)
        (moment S.told S.health K.written C.moments session.new store.new sink.new clock.new) before after) }
    ensures none_out { (S.told store.new).out ≡ [] }
    ensures fault { HasMet result (K.health sink.old) (K.health sink.new) }
{
    match ended {
        Ended::Nothing => Ok(()),
        Ended::Line => reply_line(session, pending.line.kept(), store, sink, clock, gate),
        Ended::Batch => reply_batch(session, &pending.batch, store, sink, clock, gate),
    }
}

/// Replies to a request of one line.
fn reply_line<S: Store, K: Sink, C: Clock, G: Gate>(
    session: &mut Session,
    line: &[u8],
    store: &mut S,
    sink: &mut K,
    clock: &mut C,
    gate: &G,
) -> Result<(), Trouble>
    requires none_out { (S.told store.old).out ≡ [] }
    ensures ok { OnOk result ((text : List ℕ) → StandsFor 65536 line.now text → AnswersOne (moment S.told S.health K.written C.moments session.old store.old sink.old clock.old)
        (moment S.told S.health K.written C.moments session.new store.new sink.new clock.new) (OneLine text)) }
    ensures err { OnErr result ((text : List ℕ) → StandsFor 65536 line.now text → StopsInOne (moment S.told S.health K.written C.moments session.old store.old sink.old clock.old)
        (moment S.told S.health K.written C.moments session.new store.new sink.new clock.new) (OneLine text)) }
    ensures none_out { (S.told store.new).out ≡ [] }
    ensures fault { HasMet result (K.health sink.old) (K.health sink.new) }
{
    let moment = clock.now();
    let asked = read_line(session.alloc, line, moment);
    answer(session, asked, store, sink, gate)
}

/// Replies to a BATCH.
fn reply_batch<S: Store, K: Sink, C: Clock, G: Gate>(
    session: &mut Session,
    batch: &Gathering,
    store: &mut S,
    sink: &mut K,
    clock: &mut C,
    gate: &G,
) -> Result<(), Trouble>
    requires none_out { (S.told store.old).out ≡ [] }
    ensures ok { OnOk result ((count : ℕ) (lines : List (List ℕ)) (rest : List ℕ) → Gathers batch.now count lines rest → AnswersOne (moment S.told S.health K.written C.moments session.old store.old sink.old clock.old)
        (moment S.told S.health K.written C.moments session.new store.new sink.new clock.new) (Batch count lines rest)) }
    ensures err { OnErr result ((count : ℕ) (lines : List (List ℕ)) (rest : List ℕ) → Gathers batch.now count lines rest → StopsInOne (moment S.told S.health K.written C.moments session.old store.old sink.old clock.old)
        (moment S.told S.health K.written C.moments session.new store.new sink.new clock.new) (Batch count lines rest)) }
    ensures none_out { (S.told store.new).out ≡ [] }
    ensures fault { HasMet result (K.health sink.old) (K.health sink.new) }
{
    let moment = clock.now();
    let asked = read_gathered(session.alloc, batch, moment);
    answer(session, asked, store, sink, gate)
}

/// Writes the reply to what was read of a request.
fn answer<S: Store, K: Sink, G: Gate>(
    session: &mut Session,
    asked: Result<Statement, AllocError>,
    store: &mut S,
    sink: &mut K,
    gate: &G,
) -> Result<(), Trouble>
    requires none_out { (S.told store.old).out ≡ [] }
    requires writable { IfOk asked IsWritableStatement }
    ensures ok { OnOk result ((request : Request) (at : ℤ) → ReadMeans asked request at → Answers (saying S.told S.health K.written session.old store.old sink.old)
        (saying S.told S.health K.written session.new store.new sink.new) request at) }
    ensures err { OnErr result ((request : Request) (at : ℤ) → ReadMeans asked request at → BreaksOff (saying S.told S.health K.written session.old store.old sink.old)
        (saying S.told S.health K.written session.new store.new sink.new) request at) }
    ensures none_out { (S.told store.new).out ≡ [] }
    ensures fault { HasMet result (K.health sink.old) (K.health sink.new) }
{
    let told = serve_read(
        session.alloc,
        store,
        gate,
        session.who,
        asked,
        &mut session.text,
    );
    session.last = greatest(session.last, told);
    write_all(sink, session.text.bytes())?;
    gate.reach(session.who, Place::Reply);
    session.replies = session.replies.saturating_add(1);
    Ok(())
}

/// The greatest number that was told.
fn greatest(last: u64, told: Option<u64>) -> u64
    ensures { result ≡ fold max last (option_to_list told) }
{
    match told {
        None => last,
        Some(number) => last.max(number),
    }
}

fn write_all<K: Sink>(sink: &mut K, bytes: &[u8]) -> Result<(), Trouble>
    ensures ok { OnOk result (Grows (K.written sink.old) (K.written sink.new) bytes.now) }
    ensures err { OnErr result (WritesFront (K.written sink.old) (K.written sink.new) bytes.now) }
    ensures fault { HasMet result (K.health sink.old) (K.health sink.new) }
{
    let mut rest = bytes;
    while !rest.is_empty() {
        let count = sink.write(rest)?;
        let (_, behind) = rest.split_at(count);
        rest = behind;
    }
    Ok(())
}
