// Several clients over an engine, which is closed behind them.
ghost use Rattle.std.specs.Prelude.{◌≡◌, ◌≤◌, None, All, length, IfOk, IfErr};
ghost use Rattle.shard_state.specs.Calls.{Closes};
ghost use Rattle.shard_steps.specs.Shards.{IsReady, state_of};
ghost use Rattle.engine_session.specs.Devices.{devices};
ghost use Rattle.engine_clients.specs.Served.{ServesEngine, ServesTogether};

use crate::client::EngineClient;
use crate::whole::serve_together;
use session_io::{Clock, Gate, Sink, Source};
use shard_calls::EngineDisk;
use shard_disk::Trouble;
use shard_state::close;
use shard_steps::Shard;
use std::alloc::Global;
use std::sync::Wait;
use std::thread::Threads;

/// What serving clients came to.
pub struct Ended<D> {
    pub disk: D,
    /// Whether the clients were served. They weren't where there was no memory to begin.
    pub served: bool,
    /// The number of the last entry.
    pub number: u64,
    /// Whether the engine was closed, so that nothing is in doubt.
    pub closed: Result<(), Trouble>,
}

/// Serves clients over an engine, each on a thread of its own where one can be made, until the input or a device of each ends, and
/// closes the engine. The client at place k has the number k at the gate.
pub fn serve<D: EngineDisk, S: Source, K: Sink, C: Clock, G: Gate, R: Threads + Wait + Sync>(
    rt: &R,
    alloc: Global,
    shard: Shard<D>,
    gate: &G,
    clients: &mut Vec<EngineClient<S, K, C, D>>,
) -> Ended<D>
    requires ready { IsReady D.Disk shard }
    requires unlent { shard.views ≡ 0 }
    requires few { length clients.old.items ≤ 8 }
    requires unseated { All (λ client. client.pass ≡ None) clients.old.items }

    // One history explains what all clients were told, and it is what the disk was left with.
    ensures serves { ServesEngine D.Disk (devices S.given S.left S.ended S.health K.written K.health C.moments) shard clients.old.items clients.new.items result }

    ensures unseated { All (λ client. client.pass ≡ None) clients.new.items }
    ensures len { length clients.new.items ≡ length clients.old.items }

    // No reader or writer is left out.
    ensures same { D.handed_out result.disk ≡ D.handed_out shard.logs.disk }
{
    match serve_vec(rt, alloc, shard, gate, clients) {
        Ok(left) => finish(left, true),
        Err(left) => finish(left, false),
    }
}

fn serve_vec<D: EngineDisk, S: Source, K: Sink, C: Clock, G: Gate, R: Threads + Wait + Sync>(
    rt: &R,
    alloc: Global,
    shard: Shard<D>,
    gate: &G,
    clients: &mut Vec<EngineClient<S, K, C, D>>,
) -> Result<Shard<D>, Shard<D>>
    requires ready { IsReady D.Disk shard }
    requires unlent { shard.views ≡ 0 }
    requires few { length clients.old.items ≤ 8 }
    requires unseated { All (λ client. client.pass ≡ None) clients.old.items }
    ensures ok { IfOk result (λ left. ServesTogether D.Disk (devices S.given S.left S.ended S.health K.written K.health C.moments) shard left clients.old.items clients.new.items) }
    ensures err { IfErr result (λ left. (left ≡ shard) × (clients.new.items ≡ clients.old.items)) }
{
    serve_together(rt, alloc, shard, gate, clients.as_mut_slice())
}

/// Closes an engine.
fn finish<D: EngineDisk>(shard: Shard<D>, served: bool) -> Ended<D>
    requires ready { IsReady D.Disk shard }
    ensures closes { Closes D.Disk shard.logs result.disk result.closed }
    ensures number { result.number ≡ (state_of shard).number }
    ensures served { result.served ≡ served }
{
    let number = shard.number();
    let (disk, closed) = close(shard.into_logs());
    Ended {
        disk,
        served,
        number,
        closed,
    }
}
