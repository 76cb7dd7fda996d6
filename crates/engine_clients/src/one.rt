// The session of one client over a pass.
ghost use Rattle.std.specs.Prelude.{◌≡◌, ◌<◌, ℕ, [], None, Some, IsSome, All, length, slice_index_or, false};
ghost use Rattle.engine_session.specs.Devices.{devices};
ghost use Rattle.engine_clients.specs.Seats.{IsServedBy, IsSeated, ServesOne};

use crate::client::EngineClient;
use history_turn::{Pass, Turn};
use session_io::{Client, Clock, Gate, Report, Sink, Source};
use session_loop::session;
use shard_calls::EngineDisk;
use shard_shared::{Engine, Place, Shared};
use std::alloc::Global;
use std::marker::Brand;
use std::sync::Wait;
use std::thread::Threads;
use std::{mem, thread};

/// Serves the clients, each on a thread of its own where one can be made, and numbers them from 0.
pub(crate) fn serve_each<
    D: EngineDisk,
    S: Source,
    K: Sink,
    C: Clock,
    G: Gate,
    R: Threads + Wait + Sync,
>(rt: &R, alloc: Global, turn: &Turn<Engine<D>>, gate: &G, clients: &mut [EngineClient<S, K, C, D>])
    requires few { length clients.old < 4294967296 }
    requires seated { All (λ client. IsSeated turn.now client.pass) clients.old }
    ensures len { length clients.new ≡ length clients.old }
    ensures each { (k : ℕ) (d : _) → k < length clients.old → ServesOne D.Disk (devices S.given S.left S.ended S.health K.written K.health C.moments)
        k (slice_index_or clients.old k d) (slice_index_or clients.new k d) }
{
    let threads = clients.len().max(1);
    thread::for_each_mut(
        rt,
        clients,
        threads,
        &|who, client: &mut EngineClient<S, K, C, D>|
            requires { (who < 4294967296) × IsSeated turn.now client.old.pass }
            ensures { ServesOne D.Disk (devices S.given S.left S.ended S.health K.written K.health C.moments) who client.old client.new }
        { serve_one(rt, alloc, turn, gate, who as u32, client) },
    );
}

fn serve_one<D: EngineDisk, S: Source, K: Sink, C: Clock, G: Gate, R: Wait>(
    rt: &R,
    alloc: Global,
    turn: &Turn<Engine<D>>,
    gate: &G,
    who: u32,
    client: &mut EngineClient<S, K, C, D>,
)
    requires { IsSeated turn.now client.old.pass }
    ensures { ServesOne D.Disk (devices S.given S.left S.ended S.health K.written K.health C.moments) who client.old client.new }
{
    let pass = take_pass(&mut client.pass);
    let (pass, report) = serve_at::<D, S, K, C, G, R, Brand>(
        rt,
        alloc,
        turn,
        gate,
        who,
        &mut client.client,
        pass,
    );
    put_pass(&mut client.pass, pass);
    client.report = Some(report);
}

fn serve_at<D: EngineDisk, S: Source, K: Sink, C: Clock, G: Gate, R: Wait, P: Place>(
    rt: &R,
    alloc: Global,
    turn: &Turn<Engine<D>>,
    gate: &G,
    who: u32,
    client: &mut Client<S, K, C>,
    pass: Pass<Engine<D>>,
) -> (Pass<Engine<D>>, Report)
    requires turn { turn.now ≡ P.turn }
    requires pass { (pass.turn ≡ P.turn) × (pass.view.has_turn ≡ false) × (pass.view.parts ≡ P.parts) }
    requires no_loan { pass.view.loans ≡ [] }
    ensures pass { (result.0.turn ≡ P.turn) × (result.0.view.has_turn ≡ false) × (result.0.view.parts ≡ P.parts) }
    ensures served { IsServedBy D.Disk (devices S.given S.left S.ended S.health K.written K.health C.moments)
        who pass.view result.0.view client.old client.new result.1 }
{
    let mut store = Shared::<D, R, P>::new(rt, turn, pass, who);
    let report = session(
        alloc,
        &mut store,
        &mut client.source,
        &mut client.sink,
        &mut client.clock,
        gate,
        who,
    );
    (store.into_pass(), report)
}

/// Takes the pass out that is there.
pub(crate) fn take_pass<D: EngineDisk>(place: &mut Option<Pass<Engine<D>>>) -> Pass<Engine<D>>
    requires { IsSome place.old }
    ensures pass { place.old ≡ Some result }
    ensures left { place.new ≡ None }
{
    match mem::replace(place, None) {
        Some(pass) => pass,
        None => unreachable!(),
    }
}

/// Puts a pass where none is.
pub(crate) fn put_pass<D: EngineDisk>(place: &mut Option<Pass<Engine<D>>>, pass: Pass<Engine<D>>)
    requires { place.old ≡ None }
    ensures { place.new ≡ Some pass }
{
    match mem::replace(place, Some(pass)) {
        None => {}
        Some(_) => unreachable!(),
    }
}
