//! The engine of a directory, and one client over it on the standard streams.
ghost use Rattle.std.specs.Prelude.{◌≡◌, ◌+◌, ◌<◌, ◌∷◌, [], IfErr, IfOk, if◌then◌else◌, is_ok};
ghost use Rattle.manifest_log.specs.Calls.{HasNoReader};
ghost use Rattle.shard_steps.specs.Shards.{IsReady};
ghost use Rattle.engine_session.specs.Devices.{devices};
ghost use Rattle.tsm_server.specs.Directories.{ClientsCause, OpensDir, PathCause, PathRefused, RefusesDisk, ServesAll, ServesNobody, seen, status_by_closing, status_by_opening, status_of};
ghost use Rattle.tsm_server.specs.Engines.{IsOpened};
ghost use Rattle.tsm_server.specs.Words.{standard};

use crate::status::{Status, status_of};
use engine_session::{Ended, close_unserved, serve};
use gate_log::LogFault as OpenFault;
use session_io::{Client, Desk, Gate};
use shard_calls::EngineDisk;
use shard_disk::Trouble;
use shard_opening::open;
use shard_steps::{Settings, Shard};
use std::alloc::Global;
use std::hash::RandomState;
use std::io;
use std::random::RandomSource;
use tsdb_types::Seed;

/// The name of the standard input and of the standard output.
const STANDARD: &str = "-";

/// Serves one client on the standard streams over the directory of this path.
pub(crate) fn serve_shell<R: RandomSource, K: Desk, G: Gate>(
    rt: &R,
    alloc: Global,
    desk: &mut K,
    path: &str,
    gate: &G,
) -> Status
where
    K::Disk: EngineDisk,
    ensures cause { PathCause K.Disk.Disk (devices K.Source.given K.Source.left K.Source.ended K.Source.health
        K.Sink.written K.Sink.health K.Clock.moments) path.now (standard ∷ [])
        (seen K.health K.dirs K.held K.closed desk.old) (seen K.health K.dirs K.held K.closed desk.new) result }
    ensures out { K.out desk.new ≡ K.out desk.old }
    ensures dirs_out { K.dirs_out desk.new ≡ K.dirs_out desk.old }
{
    match open_engine(rt, alloc, desk, path) {
        Err(status) => status,
        Ok(shard) => serve_standard(alloc, desk, shard, gate),
    }
}

/// Opens the directory of this path, and its engine. Where one can't be opened nothing is left open, and the status says why.
pub(crate) fn open_engine<R: RandomSource, K: Desk>(
    rt: &R,
    alloc: Global,
    desk: &mut K,
    path: &str,
) -> Result<Shard<K::Disk>, Status>
where
    K::Disk: EngineDisk,
    ensures opened { IfOk result (λ shard. (disk : _) × OpensDir path.now disk (seen K.health K.dirs K.held K.closed desk.old) (seen K.health K.dirs K.held K.closed desk.new)
        × IsOpened K.Disk.Disk disk shard) }
    ensures ready { IfOk result (IsReady K.Disk.Disk) }
    ensures unlent { IfOk result (λ shard. shard.views ≡ 0) }
    ensures refused { IfErr result (PathRefused K.Disk.Disk path.now
        (seen K.health K.dirs K.held K.closed desk.old) (seen K.health K.dirs K.held K.closed desk.new)) }
    ensures out { K.out desk.new ≡ K.out desk.old }
    ensures dirs_out { K.dirs_out desk.new ≡ (if is_ok result then K.dirs_out desk.old + 1 else K.dirs_out desk.old) }
{
    let Ok((seed, hashing)) = secrets(rt) else {
        return Err(Status::NoMemory);
    };
    match desk.open_dir(path) {
        Err(trouble) => Err(status_of_trouble(trouble)),
        Ok(disk) => open_disk(alloc, seed, hashing, desk, disk),
    }
}

/// What clients can't know, from which hashes begin.
fn secrets<R: RandomSource>(rt: &R) -> io::Result<(Seed, RandomState)> {
    let mut bytes = [0; 8];
    rt.fill_bytes(&mut bytes)?;
    let seed = Seed::new(u64::from_le_bytes(bytes));
    Ok((seed, RandomState::new(rt)?))
}

/// Opens the engine of a disk. A disk that is refused is closed.
fn open_disk<K: Desk>(
    alloc: Global,
    seed: Seed,
    hashing: RandomState,
    desk: &mut K,
    disk: K::Disk,
) -> Result<Shard<K::Disk>, Status>
where
    K::Disk: EngineDisk,
    requires is_out { 0 < K.dirs_out desk.old }
    requires unread { HasNoReader (K.Disk.Disk.handed_out disk) }
    ensures opened { IfOk result (λ shard. (desk.new ≡ desk.old) × IsOpened K.Disk.Disk disk shard) }
    ensures ready { IfOk result (IsReady K.Disk.Disk) }
    ensures unlent { IfOk result (λ shard. shard.views ≡ 0) }
    ensures refused { IfErr result (RefusesDisk K.Disk.Disk disk
        (seen K.health K.dirs K.held K.closed desk.old) (seen K.health K.dirs K.held K.closed desk.new)) }
    ensures out { K.out desk.new ≡ K.out desk.old }
    ensures dirs_out { (if is_ok result then K.dirs_out desk.new else K.dirs_out desk.new + 1) ≡ K.dirs_out desk.old }
{
    match open(alloc, seed, hashing, disk, Settings::usual()) {
        Ok(shard) => Ok(shard),
        Err((disk, fault)) => {
            desk.close_dir(disk);
            Err(status_of_opening(fault))
        }
    }
}

fn serve_standard<K: Desk, G: Gate>(
    alloc: Global,
    desk: &mut K,
    shard: Shard<K::Disk>,
    gate: &G,
) -> Status
where
    K::Disk: EngineDisk,
    requires dir_out { 0 < K.dirs_out desk.old }
    requires ready { IsReady K.Disk.Disk shard }
    requires unlent { shard.views ≡ 0 }
    ensures cause { (disk : _) → IsOpened K.Disk.Disk disk shard → ClientsCause K.Disk.Disk (devices K.Source.given K.Source.left K.Source.ended K.Source.health
        K.Sink.written K.Sink.health K.Clock.moments) disk (standard ∷ [])
        (seen K.health K.dirs K.held K.closed desk.old) (seen K.health K.dirs K.held K.closed desk.new) result }
    ensures out { K.out desk.new ≡ K.out desk.old }
    ensures dirs_out { K.dirs_out desk.new + 1 ≡ K.dirs_out desk.old }
{
    match desk.open_client(STANDARD, STANDARD) {
        Err(trouble) => serve_nobody(desk, shard, trouble),
        Ok(client) => serve_alone(alloc, desk, shard, client, gate),
    }
}

/// Closes an engine that serves nobody, since a client couldn't be opened, and its directory.
pub(crate) fn serve_nobody<K: Desk>(desk: &mut K, shard: Shard<K::Disk>, why: Trouble) -> Status
where
    K::Disk: EngineDisk,
    requires dir_out { 0 < K.dirs_out desk.old }
    requires ready { IsReady K.Disk.Disk shard }
    ensures nobody { (disk : _) → IsOpened K.Disk.Disk disk shard → ServesNobody K.Disk.Disk (devices K.Source.given K.Source.left K.Source.ended K.Source.health
        K.Sink.written K.Sink.health K.Clock.moments) disk why
        (seen K.health K.dirs K.held K.closed desk.old) (seen K.health K.dirs K.held K.closed desk.new) result }
    ensures out { K.out desk.new ≡ K.out desk.old }
    ensures dirs_out { K.dirs_out desk.new + 1 ≡ K.dirs_out desk.old }
{
    let (disk, _, closed) = close_unserved(shard);
    desk.close_dir(disk);
    status_of_trouble(why).graver(status_of_closing(&closed))
}

fn serve_alone<K: Desk, G: Gate>(
    alloc: Global,
    desk: &mut K,
    shard: Shard<K::Disk>,
    client: Client<K::Source, K::Sink, K::Clock>,
    gate: &G,
) -> Status
where
    K::Disk: EngineDisk,
    requires dir_out { 0 < K.dirs_out desk.old }
    requires is_out { 0 < K.out desk.old }
    requires ready { IsReady K.Disk.Disk shard }
    requires unlent { shard.views ≡ 0 }
    ensures serves { (disk : _) → IsOpened K.Disk.Disk disk shard → ServesAll K.Disk.Disk (devices K.Source.given K.Source.left K.Source.ended K.Source.health
        K.Sink.written K.Sink.health K.Clock.moments) disk (client ∷ [])
        (seen K.health K.dirs K.held K.closed desk.old) (seen K.health K.dirs K.held K.closed desk.new) result }
    ensures out { K.out desk.new + 1 ≡ K.out desk.old }
    ensures dirs_out { K.dirs_out desk.new + 1 ≡ K.dirs_out desk.old }
{
    let Client {
        mut source,
        mut sink,
        mut clock,
    } = client;
    let Ended {
        disk,
        report,
        number: _,
        closed,
    } = serve(alloc, shard, &mut source, &mut sink, &mut clock, gate);
    let client = Client {
        source,
        sink,
        clock,
    };
    desk.close_client(client, Some(&report));
    desk.close_dir(disk);
    status_of_closing(&closed).graver(status_of(report.end))
}

pub(crate) fn status_of_closing(closed: &Result<(), Trouble>) -> Status
    ensures { result ≡ status_by_closing closed.now }
{
    match closed {
        Ok(()) => Status::Served,
        Err(trouble) => status_of_trouble(*trouble),
    }
}

fn status_of_opening(fault: OpenFault) -> Status
    ensures { result ≡ status_by_opening fault }
{
    match fault {
        OpenFault::Damaged(damage) => Status::Damaged(damage),
        OpenFault::Fault => Status::Fault,
        OpenFault::Memory => Status::NoMemory,
    }
}

fn status_of_trouble(trouble: Trouble) -> Status
    ensures { result ≡ status_of trouble }
{
    match trouble {
        Trouble::Fault => Status::Fault,
        Trouble::Memory => Status::NoMemory,
    }
}
