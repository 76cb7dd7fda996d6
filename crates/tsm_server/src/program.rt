//! The top call: does what the words ask for, and says how it ended.
ghost use Rattle.std.specs.Prelude.{◌≡◌, ◌≢◌, ◌⊎◌, ◌+◌, ◌<◌, ◌≤◌, ◌↔◌, IsTrue, List, length, drop};
ghost use Rattle.session_io.specs.Clients.{IsFresh, IsHeld, is_steady};
ghost use Rattle.session_io.specs.declared.client.Word.{Word};
ghost use Rattle.session_io.specs.declared.report.End.{End};
ghost use Rattle.tsm_server.specs.Words.{IsCommand, AsksMem};
ghost use Rattle.tsm_server.specs.Printing.{Takes, said, code_of, line_of};
ghost use Rattle.engine_session.specs.Devices.{devices};
ghost use Rattle.tsm_server.specs.Outcomes.{ClosesOne, HasCause, WillServe, status_by};
ghost use Rattle.tsm_server.specs.Directories.{DirectoryCause, seen};
ghost use Rattle.tsm_server.specs.declared.status.Status.{Status as Ending};

use crate::clients::serve_run;
use crate::damage_line::damage_line;
use crate::directory::serve_shell;
use crate::memory::mem;
use crate::status::{Status, status_of};
use crate::words::{mem_names, run_names, shell_path};
use session_io::{Client, Desk, Gate, Sink, Word};
use shard_calls::EngineDisk;
use shard_disk::Trouble;
use std::alloc::Global;
use std::random::RandomSource;
use std::sync::Wait;
use std::thread::Threads;

/// Does what the words ask for. `mem IN OUT` serves one client over a store in memory, from the input IN to the output OUT.
/// `shell DIR` serves one client on the standard streams over the directory DIR, which is made where it isn't there. `run DIR IN OUT ..`
/// serves one client to eight over DIR, each on a thread of its own, from its input IN to its output OUT: no client is opened before
/// the directory, none is served before all are open, and the directory is closed behind the last one. Prints the line of the status
/// that it answers, whole unless `out` refuses it; a refusal of `out` changes no status. `rt` makes threads, and gives what clients
/// can't know, from which hashes begin (no clause asks for it); where it gives none the program ends as for want of memory. `gate`
/// stands for places where tests may hold a session. Of the commands only `run` waits for other threads.
pub fn tsmd<R: RandomSource + Threads + Wait + Sync, K: Desk, G: Gate>(
    rt: &R,
    alloc: Global,
    words: &[Word],
    desk: &mut K,
    out: &mut K::Sink,
    gate: &G,
) -> u8
where
    K::Disk: EngineDisk,
    // The status has its cause: what `mem`, `shell` or `run` made of the desk's clients and directory, or words that are no command.
    ensures cause { (status : Ending) × (result ≡ code_of status) × Takes (line_of status)
        (said K.Sink.written K.Sink.health K.Sink.wants out.old) (said K.Sink.written K.Sink.health K.Sink.wants out.new)
        × (HasCause (devices K.Source.given K.Source.left K.Source.ended K.Source.health
        K.Sink.written K.Sink.health K.Clock.moments) words.now (K.health desk.old) (K.health desk.new) (K.held desk.old) (K.held desk.new)
        (K.closed desk.old) (K.closed desk.new) status
        ⊎ DirectoryCause K.Disk.Disk (devices K.Source.given K.Source.left K.Source.ended K.Source.health
        K.Sink.written K.Sink.health K.Clock.moments) words.now
        (seen K.health K.dirs K.held K.closed desk.old) (seen K.health K.dirs K.held K.closed desk.new) status) }
    ensures no_command { (result ≡ 1) ↔ (¬ (IsCommand words.now)) }
    ensures refused { result ≡ 1 → K.closed desk.new ≡ K.closed desk.old }
    ensures steady { WillServe words.now (K.health desk.old) (K.held desk.old) → result ≢ 3 }
    ensures kept { (K.out desk.new ≡ K.out desk.old) × (K.dirs_out desk.new ≡ K.dirs_out desk.old) }
{
    let status = perform(rt, alloc, words, desk, gate);
    end(out, status)
}

/// Prints the line of the status, and answers its number.
pub fn end<K: Sink>(out: &mut K, status: Status) -> u8
    ensures printed { Takes (line_of status) (said K.written K.health K.wants out.old) (said K.written K.health K.wants out.new) }
    ensures code { result ≡ code_of status }
{
    match status {
        Status::Damaged(damage) => print(out, damage_line(&damage).as_slice()),
        Status::Served => {}
        Status::NoCommand => print(
            out,
            b"usage: tsmd mem IN OUT | shell DIR | run DIR IN OUT [IN OUT ..]\n",
        ),
        Status::Fault => print(out, b"fault\n"),
        Status::NoMemory => print(out, b"memory\n"),
    }
    status.code()
}

fn perform<R: RandomSource + Threads + Wait + Sync, K: Desk, G: Gate>(
    rt: &R,
    alloc: Global,
    words: &[Word],
    desk: &mut K,
    gate: &G,
) -> Status
where
    K::Disk: EngineDisk,
    ensures cause { HasCause (devices K.Source.given K.Source.left K.Source.ended K.Source.health
        K.Sink.written K.Sink.health K.Clock.moments) words.now (K.health desk.old) (K.health desk.new) (K.held desk.old) (K.held desk.new)
        (K.closed desk.old) (K.closed desk.new) result
        ⊎ DirectoryCause K.Disk.Disk (devices K.Source.given K.Source.left K.Source.ended K.Source.health
        K.Sink.written K.Sink.health K.Clock.moments) words.now
        (seen K.health K.dirs K.held K.closed desk.old) (seen K.health K.dirs K.held K.closed desk.new) result }
    ensures steady { WillServe words.now (K.health desk.old) (K.held desk.old) → result ≢ Status.Fault }
    ensures out { K.out desk.new ≡ K.out desk.old }
    ensures dirs_out { K.dirs_out desk.new ≡ K.dirs_out desk.old }
{
    if let Some((input, output)) = mem_names(words) {
        return serve_one(alloc, desk, input, output);
    }
    if let Some(path) = shell_path(words) {
        return serve_shell(rt, alloc, desk, path, gate);
    }
    if let Some((path, names)) = run_names(words) {
        return serve_run(rt, alloc, desk, path, names, gate);
    }
    Status::NoCommand
}

fn serve_one<K: Desk>(alloc: Global, desk: &mut K, input: &str, output: &str) -> Status
    ensures cause { (words : List Word) → AsksMem words input.now output.now → HasCause (devices K.Source.given K.Source.left K.Source.ended K.Source.health
        K.Sink.written K.Sink.health K.Clock.moments) words (K.health desk.old) (K.health desk.new)
        (K.held desk.old) (K.held desk.new) (K.closed desk.old) (K.closed desk.new) result }
    ensures steady { IsTrue (K.health desk.old).is_steady → IsHeld input.now output.now (K.held desk.old) → result ≢ Status.Fault }
    ensures out { K.out desk.new ≡ K.out desk.old }
    ensures dirs { (K.dirs_out desk.new ≡ K.dirs_out desk.old) × (K.dirs desk.new ≡ K.dirs desk.old) }
{
    match desk.open_client(input, output) {
        Err(Trouble::Fault) => Status::Fault,
        Err(Trouble::Memory) => Status::NoMemory,
        Ok(client) => serve_client(alloc, desk, client),
    }
}

fn serve_client<K: Desk>(
    alloc: Global,
    desk: &mut K,
    client: Client<K::Source, K::Sink, K::Clock>,
) -> Status
    requires fresh { IsFresh K.Source.given K.Source.ended K.Source.health K.Sink.written K.Sink.health K.Clock.moments client }
    requires is_out { 0 < K.out desk.old }
    ensures closes { (end : End) × (result ≡ status_by end) × ClosesOne (devices K.Source.given K.Source.left K.Source.ended K.Source.health
        K.Sink.written K.Sink.health K.Clock.moments) client (K.closed desk.old) (K.closed desk.new) end }
    ensures steady { IsTrue (is_steady K.Source.health K.Sink.health client) → result ≢ Status.Fault }
    ensures held { K.held desk.new ≡ K.held desk.old }
    ensures health { K.health desk.new ≡ K.health desk.old }
    ensures out { K.out desk.new + 1 ≡ K.out desk.old }
    ensures dirs { (K.dirs_out desk.new ≡ K.dirs_out desk.old) × (K.dirs desk.new ≡ K.dirs desk.old) }
{
    let Client {
        mut source,
        mut sink,
        mut clock,
    } = client;
    let report = mem(alloc, &mut source, &mut sink, &mut clock);
    let client = Client {
        source,
        sink,
        clock,
    };
    desk.close_client(client, Some(&report));
    status_of(report.end)
}

/// Writes the line, or what the sink takes of it until it refuses.
fn print<K: Sink>(out: &mut K, line: &[u8])
    ensures { Takes line.now (said K.written K.health K.wants out.old) (said K.written K.health K.wants out.new) }
{
    let mut rest = line;
    while !rest.is_empty() {
        match out.write(rest) {
            Ok(count) => rest = behind(rest, count),
            Err(_) => return,
        }
    }
}

fn behind(bytes: &[u8], count: usize) -> &[u8]
    requires { count ≤ length bytes.now }
    ensures { result.now ≡ drop count bytes.now }
{
    let (_, behind) = bytes.split_at(count);
    behind
}
