//! Several clients over a directory, each on a thread of its own.
ghost use Rattle.std.specs.Prelude.{◌≡◌, ◌+◌, ◌<◌, ◌≤◌, ◌++◌, ◌∷◌, [], true, false, All, IfErr, OnOk, length, map, None};
ghost use Rattle.std.specs.Vec.{vec_capacity, vec_len};
ghost use Rattle.shard_steps.specs.Shards.{IsReady};
ghost use Rattle.engine_session.specs.Devices.{devices};
ghost use Rattle.engine_clients.specs.Served.{client_of};
ghost use Rattle.tsm_server.specs.Directories.{ClientsCause, Closes, OpensClients, OpensSome, PathCause, ServesOrLeaves, graver, gravest, seen, status_by_closing};
ghost use Rattle.tsm_server.specs.Engines.{IsOpened};
ghost use Rattle.tsm_server.specs.Seats.{IsNew, end_in, ends_of, left_by};
ghost use Rattle.tsm_server.specs.Words.{names_in};
ghost use Rattle.tsm_server.specs.declared.status.Status.TheVariants as status;

use crate::directory::{open_engine, serve_nobody, status_of_closing};
use crate::status::{Status, status_of};
use crate::words::first_names;
use engine_clients::{Ended, EngineClient, serve};
use session_io::{Client, Desk, Gate, Report, Word};
use shard_calls::EngineDisk;
use shard_disk::Trouble;
use shard_steps::Shard;
use std::alloc::Global;
use std::random::RandomSource;
use std::sync::Wait;
use std::thread::Threads;

/// A client of a desk over an engine.
type DeskClient<K> = EngineClient<
    <K as Desk>::Source,
    <K as Desk>::Sink,
    <K as Desk>::Clock,
    <K as Desk>::Disk,
>;

/// Serves the clients of these names, each on a thread of its own, over the directory of this path.
pub(crate) fn serve_run<R: RandomSource + Threads + Wait + Sync, K: Desk, G: Gate>(
    rt: &R,
    alloc: Global,
    desk: &mut K,
    path: &str,
    names: &[Word],
    gate: &G,
) -> Status
where
    K::Disk: EngineDisk,
    requires few { length (names_in names.now) ≤ 8 }
    ensures cause { PathCause K.Disk.Disk (devices K.Source.given K.Source.left K.Source.ended K.Source.health
        K.Sink.written K.Sink.health K.Clock.moments) path.now (names_in names.now)
        (seen K.health K.dirs K.held K.closed desk.old) (seen K.health K.dirs K.held K.closed desk.new) result }
    ensures out { K.out desk.new ≡ K.out desk.old }
    ensures dirs_out { K.dirs_out desk.new ≡ K.dirs_out desk.old }
{
    match open_engine(rt, alloc, desk, path) {
        Err(status) => status,
        Ok(shard) => serve_names(rt, alloc, desk, shard, names, gate),
    }
}

fn serve_names<R: Threads + Wait + Sync, K: Desk, G: Gate>(
    rt: &R,
    alloc: Global,
    desk: &mut K,
    shard: Shard<K::Disk>,
    names: &[Word],
    gate: &G,
) -> Status
where
    K::Disk: EngineDisk,
    requires few { length (names_in names.now) ≤ 8 }
    requires dir_out { 0 < K.dirs_out desk.old }
    requires ready { IsReady K.Disk.Disk shard }
    requires unlent { shard.views ≡ 0 }
    ensures cause { (disk : _) → IsOpened K.Disk.Disk disk shard → ClientsCause K.Disk.Disk (devices K.Source.given K.Source.left K.Source.ended K.Source.health
        K.Sink.written K.Sink.health K.Clock.moments) disk (names_in names.now)
        (seen K.health K.dirs K.held K.closed desk.old) (seen K.health K.dirs K.held K.closed desk.new) result }
    ensures out { K.out desk.new ≡ K.out desk.old }
    ensures dirs_out { K.dirs_out desk.new + 1 ≡ K.dirs_out desk.old }
{
    let mut clients = Vec::new(alloc);
    match open_clients(desk, names, &mut clients) {
        Ok(()) => serve_clients(rt, alloc, desk, shard, clients, gate),
        Err(trouble) => {
            close_clients(desk, clients);
            serve_nobody(desk, shard, trouble)
        }
    }
}

/// Opens the clients of these names, in their order, until one can't be opened.
fn open_clients<K: Desk>(
    desk: &mut K,
    names: &[Word],
    clients: &mut Vec<DeskClient<K>>,
) -> Result<(), Trouble>
where
    K::Disk: EngineDisk,
    requires none { clients.old.items ≡ [] }
    ensures ok { OnOk result (OpensClients (devices K.Source.given K.Source.left K.Source.ended K.Source.health
        K.Sink.written K.Sink.health K.Clock.moments) (names_in names.now) (map client_of clients.new.items)
        (seen K.health K.dirs K.held K.closed desk.old) (seen K.health K.dirs K.held K.closed desk.new)) }
    ensures err { IfErr result (λ why. OpensSome (devices K.Source.given K.Source.left K.Source.ended K.Source.health
        K.Sink.written K.Sink.health K.Clock.moments) (names_in names.now) (map client_of clients.new.items) why
        (seen K.health K.dirs K.held K.closed desk.old) (seen K.health K.dirs K.held K.closed desk.new)) }
    ensures new { All IsNew clients.new.items }
    ensures out { K.out desk.new ≡ K.out desk.old + length clients.new.items }
    ensures dirs_out { K.dirs_out desk.new ≡ K.dirs_out desk.old }
{
    let Ok(()) = clients.reserve(names.len()) else {
        return Err(Trouble::Memory);
    };
    let mut rest = names;
    while let Some((input, output, behind)) = first_names(rest) {
        let client = desk.open_client(input, output)?;
        seat(clients, client);
        rest = behind;
    }
    Ok(())
}

/// Puts a client that is to be served behind the others, for whom there is room.
fn seat<S, K, C, D: EngineDisk>(
    clients: &mut Vec<EngineClient<S, K, C, D>>,
    client: Client<S, K, C>,
)
    requires room { vec_len clients.old < vec_capacity clients.old }
    ensures items { clients.new.items ≡ clients.old.items ++ record { client = client; report = None; pass = None } ∷ [] }
    ensures len { vec_len clients.new ≡ vec_len clients.old + 1 }
    ensures room { vec_capacity clients.old ≤ vec_capacity clients.new }
{
    match clients.push(EngineClient::new(client)) {
        Ok(()) => {}
        Err(_) => unreachable!(),
    }
}

fn serve_clients<R: Threads + Wait + Sync, K: Desk, G: Gate>(
    rt: &R,
    alloc: Global,
    desk: &mut K,
    shard: Shard<K::Disk>,
    clients: Vec<DeskClient<K>>,
    gate: &G,
) -> Status
where
    K::Disk: EngineDisk,
    requires dir_out { 0 < K.dirs_out desk.old }
    requires are_out { length clients.items ≤ K.out desk.old }
    requires ready { IsReady K.Disk.Disk shard }
    requires unlent { shard.views ≡ 0 }
    requires few { length clients.items ≤ 8 }
    requires new { All IsNew clients.items }
    ensures serves { (disk : _) → IsOpened K.Disk.Disk disk shard → ServesOrLeaves K.Disk.Disk (devices K.Source.given K.Source.left K.Source.ended K.Source.health
        K.Sink.written K.Sink.health K.Clock.moments) disk (map client_of clients.items)
        (seen K.health K.dirs K.held K.closed desk.old) (seen K.health K.dirs K.held K.closed desk.new) result }
    ensures out { K.out desk.new + length clients.items ≡ K.out desk.old }
    ensures dirs_out { K.dirs_out desk.new + 1 ≡ K.dirs_out desk.old }
{
    let mut clients = clients;
    let Ended {
        disk,
        served,
        number: _,
        closed,
    } = serve(rt, alloc, shard, gate, &mut clients);
    let status = status_of_all(served, &clients, status_of_closing(&closed));
    close_clients(desk, clients);
    desk.close_dir(disk);
    status
}

/// The gravest status of closing and of the clients' sessions, or of closing and of there being no memory to begin.
fn status_of_all<S, K, C, D: EngineDisk>(
    served: bool,
    clients: &[EngineClient<S, K, C, D>],
    closing: Status,
) -> Status
    ensures served { served ≡ true → result ≡ gravest closing (ends_of clients.now) }
    ensures unserved { served ≡ false → result ≡ graver status.NoMemory closing }
{
    if served {
        return gravest_of(clients, closing);
    }
    Status::NoMemory.graver(closing)
}

fn gravest_of<S, K, C, D: EngineDisk>(
    clients: &[EngineClient<S, K, C, D>],
    closing: Status,
) -> Status
    ensures { result ≡ gravest closing (ends_of clients.now) }
{
    let mut status = closing;
    for client in clients {
        status = graver_by(status, &client.report);
    }
    status
}

fn graver_by(status: Status, report: &Option<Report>) -> Status
    ensures { result ≡ gravest status (end_in report.now) }
{
    match report {
        Some(report) => status.graver(status_of(report.end)),
        None => status,
    }
}

/// Closes the clients, in their order.
fn close_clients<K: Desk>(desk: &mut K, clients: Vec<DeskClient<K>>)
where
    K::Disk: EngineDisk,
    requires empty { All (λ seated. seated.pass ≡ None) clients.items }
    requires are_out { length clients.items ≤ K.out desk.old }
    ensures closes { Closes (map (left_by (devices K.Source.given K.Source.left K.Source.ended K.Source.health
        K.Sink.written K.Sink.health K.Clock.moments)) clients.items)
        (seen K.health K.dirs K.held K.closed desk.old) (seen K.health K.dirs K.held K.closed desk.new) }
    ensures out { K.out desk.new + length clients.items ≡ K.out desk.old }
    ensures dirs_out { K.dirs_out desk.new ≡ K.dirs_out desk.old }
{
    let mut clients = clients;
    clients.reverse();
    while let Some(client) = clients.pop() {
        close_one(desk, client);
    }
    clients.destroy_empty();
}

fn close_one<K: Desk>(desk: &mut K, client: DeskClient<K>)
where
    K::Disk: EngineDisk,
    requires empty { client.pass ≡ None }
    requires is_out { 0 < K.out desk.old }
    ensures closes { Closes (left_by (devices K.Source.given K.Source.left K.Source.ended K.Source.health
        K.Sink.written K.Sink.health K.Clock.moments) client ∷ [])
        (seen K.health K.dirs K.held K.closed desk.old) (seen K.health K.dirs K.held K.closed desk.new) }
    ensures out { K.out desk.new + 1 ≡ K.out desk.old }
    ensures dirs_out { K.dirs_out desk.new ≡ K.dirs_out desk.old }
{
    let (client, report) = client.into_parts();
    desk.close_client(client, report.as_ref());
}
