// Two clients that are served over a disk in memory.
ghost use Rattle.std.specs.Prelude.{◌≡◌, IfSome, None};
ghost use Rattle.manifest_log.specs.Calls.{HasNoReader};

use crate::gates::{Hold, Meeting};
use engine_clients::{Ended, EngineClient, serve};
use session_io::{Client, MemClock, MemSink, MemSource};
use shard_calls::EngineDisk;
use shard_disk::Disk;
use shard_opening::open;
use shard_steps::Settings;
use std::alloc::{AllocError, Global};
use std::hash::RandomState;
use std::random::RandomSource;
use std::sync::Wait;
use std::test::Fail;
use std::thread::Threads;
use tsdb_types::Seed;

/// A client in memory over an engine on such a disk.
type MemClient<D> = EngineClient<MemSource, MemSink, MemClock, D>;

/// What a run of two clients left.
#[derive(Drop)]
pub(crate) struct Left<D> {
    pub disk: D,
    pub first: Option<MemSink>,
    pub second: Option<MemSink>,
    /// The number of the last entry, where the run was whole.
    pub number: Option<u64>,
    /// Whether no client was held for too long.
    pub in_time: bool,
}

/// Serves two clients with these requests over the disk.
pub(crate) fn both<D: EngineDisk + Drop, R: Threads + Wait + Sync + RandomSource>(
    rt: &R,
    alloc: Global,
    disk: D,
    holds: &[Hold],
    first: &str,
    second: &str,
) -> Result<Left<D>, Fail>
    requires unread { HasNoReader (D.handed_out disk) }
{
    let gate = Meeting::new(holds);
    let hashing = RandomState::new(rt)?;
    let first = client(alloc, first)?;
    let second = client(alloc, second)?;
    let mut clients = Vec::with_capacity(alloc, 2)?;
    clients.push_reserved(EngineClient::new(first));
    clients.push_reserved(EngineClient::new(second));
    let (disk, number) = match open(alloc, Seed::new(7), hashing, disk, Settings::usual()) {
        Err((disk, _)) => (disk, None),
        Ok(shard) => whole(serve(rt, alloc, shard, &gate, &mut clients)),
    };
    let second = sink(clients.pop());
    let first = sink(clients.pop());
    clients.destroy_empty();
    Ok(Left {
        disk,
        first,
        second,
        number,
        in_time: gate.in_time(),
    })
}

fn client(
    alloc: Global,
    requests: &str,
) -> Result<Client<MemSource, MemSink, MemClock>, AllocError> {
    let source = MemSource::new(requests.as_bytes().to_vec(alloc)?, Vec::new(alloc));
    Ok(Client {
        source,
        sink: MemSink::new(alloc, Vec::new(alloc)),
        clock: MemClock::new(Vec::new(alloc)),
    })
}

// Where the replies to a client went.
fn sink<D: EngineDisk>(client: Option<MemClient<D>>) -> Option<MemSink>
    requires { IfSome client (λ client. client.pass ≡ None) }
{
    match client {
        Some(client) => {
            let (client, _) = client.into_parts();
            Some(client.sink)
        }
        None => None,
    }
}

// Whether these are the replies.
pub(crate) fn told(sink: &Option<MemSink>, replies: &[u8]) -> bool {
    match sink {
        Some(sink) => sink.bytes() == replies,
        None => false,
    }
}

// The disk, and the number of the last entry where the clients were served and the engine was closed without a doubt.
fn whole<D>(ended: Ended<D>) -> (D, Option<u64>) {
    let Ended {
        disk,
        served,
        number,
        closed,
    } = ended;
    if served && closed.is_ok() {
        return (disk, Some(number));
    }
    (disk, None)
}
