// Several clients over one engine behind a turn.
ghost use Rattle.std.specs.Prelude.{◌≡◌, ◌<◌, None, All, length, IfOk, IfErr};
ghost use Rattle.engine_session.specs.Devices.{devices};
ghost use Rattle.shard_steps.specs.Shards.{IsReady};
ghost use Rattle.engine_clients.specs.Served.{ServesTogether};

use crate::client::EngineClient;
use crate::one::serve_each;
use crate::seats::{join_all, seat_all};
use history_turn::Turn;
use session_io::{Clock, Gate, Sink, Source};
use shard_calls::EngineDisk;
use shard_shared::Engine;
use shard_steps::Shard;
use std::alloc::{AllocError, Global};
use std::sync::Wait;
use std::thread::Threads;

/// Serves the clients over this engine until each session has ended, and hands the engine back. Where there is no memory for the turn
/// nothing is served.
pub(crate) fn serve_together<
    D: EngineDisk,
    S: Source,
    K: Sink,
    C: Clock,
    G: Gate,
    R: Threads + Wait + Sync,
>(
    rt: &R,
    alloc: Global,
    shard: Shard<D>,
    gate: &G,
    clients: &mut [EngineClient<S, K, C, D>],
) -> Result<Shard<D>, Shard<D>>
    requires ready { IsReady D.Disk shard }
    requires unlent { shard.views ≡ 0 }
    requires few { length clients.old < 4294967296 }
    requires unseated { All (λ client. client.pass ≡ None) clients.old }
    ensures ok { IfOk result (λ left. ServesTogether D.Disk (devices S.given S.left S.ended S.health K.written K.health C.moments) shard left clients.old clients.new) }
    ensures err { IfErr result (λ left. (left ≡ shard) × (clients.new ≡ clients.old)) }
{
    match Turn::new(alloc, Engine::new(alloc, shard)) {
        Ok((turn, mut first)) => {
            seat_all(&turn, &mut first, clients);
            serve_each(rt, alloc, &turn, gate, clients);
            join_all(&turn, &mut first, clients);
            Ok(turn.close(first).into_shard())
        }
        Err((engine, AllocError)) => Err(engine.into_shard()),
    }
}
