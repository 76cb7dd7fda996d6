//! The folders, the clients' streams and the clock of the system.
ghost use Rattle.std.specs.Prelude.{◌≡◌, ◌+◌, ◌<◌, ◌≤◌, ◌++◌, [], ◌∷◌, length, map, None, false, option_copied};
ghost use Rattle.std.specs.Vec.{vec_capacity};
ghost use Rattle.session_io.specs.Clients.{closed_client};
ghost use Rattle.session_io.specs.Directories.{left_by};

use crate::folder_disk::FolderDisk;
use crate::streams::{Input, Output, Streams};
use session_io::{Client, Closed, Desk, HostClock, HostSink, HostSource, Report, Sink, Source};
use shard_disk::Trouble;
use std::alloc::Global;
use std::io::ErrorKind;

type HostClient = Client<HostSource<Input>, HostSink<Output>, HostClock<HostRuntime>>;

type HostClosed = Closed<FolderDisk, HostSource<Input>, HostSink<Output>, HostClock<HostRuntime>>;

/// Opens folders by their paths, which are made where they aren't there, and files by their names: the input is read, and the
/// output is made anew, at the client's first read, so that nothing is emptied before all clients of a run are open. `-` stands for a
/// standard stream. An output that is one regular file with an input or an output of any client is a fault, which leaves all as they
/// were. What is closed ends with the desk.
#[derive(Drop)]
pub struct HostDesk {
    rt: HostRuntime,
    streams: Streams,
    closed: Vec<HostClosed>,
    dirs_out: usize,
    out: usize,
    faults: u64,
    ghost room: { length closed.items + (out + dirs_out) ≤ vec_capacity closed },
}

impl HostDesk {
    /// A desk that has opened nothing.
    pub fn new(rt: HostRuntime) -> Self
        ensures dirs { ⟦<HostDesk as Desk>⟧.dirs result ≡ None }
        ensures held { ⟦<HostDesk as Desk>⟧.held result ≡ None }
        ensures out { (⟦<HostDesk as Desk>⟧.dirs_out result ≡ 0) × (⟦<HostDesk as Desk>⟧.out result ≡ 0) }
        ensures closed { ⟦<HostDesk as Desk>⟧.closed result ≡ [] }
        ensures health { ⟦<HostDesk as Desk>⟧.health result ≡ record { faults = 0; is_steady = false } }
    {
        HostDesk {
            rt,
            streams: Streams::new(rt),
            closed: Vec::new(rt.alloc()),
            dirs_out: 0,
            out: 0,
            faults: 0,
        }
    }
}

impl Desk for HostDesk {
    type Disk = FolderDisk;

    type Source = HostSource<Input>;

    type Sink = HostSink<Output>;

    type Clock = HostClock<HostRuntime>;

    ghost dirs = { λ d. None };

    ghost held = { λ d. None };

    ghost dirs_out = { λ d. d.dirs_out };

    ghost out = { λ d. d.out };

    ghost closed = { λ d. map (left_by (closed_client ⟦<HostSource<Input> as Source>⟧.given ⟦<HostSource<Input> as Source>⟧.ended
        ⟦<HostSource<Input> as Source>⟧.health ⟦<HostSink<Output> as Sink>⟧.written ⟦<HostSink<Output> as Sink>⟧.health
        ⟦<HostClock<HostRuntime> as session_io::Clock>⟧.moments)) d.closed.items };

    // What the system will do isn't known.
    ghost health = { λ d. record { faults = d.faults; is_steady = false } };

    fn open_dir(&mut self, path: &str) -> Result<FolderDisk, Trouble> {
        let out = self.dirs_out.checked_add(1).ok_or(Trouble::Memory)?;
        let all = out.checked_add(self.out).ok_or(Trouble::Memory)?;
        self.closed.reserve(all)?;
        match FolderDisk::open(self.rt, path) {
            Ok(disk) => {
                self.dirs_out = out;
                Ok(disk)
            }
            Err(Trouble::Memory) => Err(Trouble::Memory),
            Err(Trouble::Fault) => {
                self.faults = self.faults.saturating_add(1);
                Err(Trouble::Fault)
            }
        }
    }

    fn close_dir(&mut self, disk: FolderDisk)
        requires { 0 < self.old.dirs_out }
        ensures dirs_out { self.new.dirs_out + 1 ≡ self.old.dirs_out }
        ensures out { self.new.out ≡ self.old.out }
        ensures closed { self.new.closed.items ≡ self.old.closed.items ++ Closed.Dir disk ∷ [] }
        ensures health { self.new.faults ≡ self.old.faults }
    {
        self.dirs_out -= 1;
        self.closed.push(Closed::Dir(disk)).unwrap();
    }

    fn open_client(&mut self, input: &str, output: &str) -> Result<HostClient, Trouble> {
        let out = self.out.checked_add(1).ok_or(Trouble::Memory)?;
        let all = out.checked_add(self.dirs_out).ok_or(Trouble::Memory)?;
        self.closed.reserve(all)?;
        match self.streams.open(self.rt, input, output) {
            Ok((input, output)) => {
                self.out = out;
                Ok(Client {
                    source: HostSource::new(input),
                    sink: HostSink::new(output),
                    clock: HostClock::new(self.rt),
                })
            }
            Err(error) if error.kind() == ErrorKind::OutOfMemory => Err(Trouble::Memory),
            Err(_) => {
                self.faults = self.faults.saturating_add(1);
                Err(Trouble::Fault)
            }
        }
    }

    fn close_client(&mut self, client: HostClient, report: Option<&Report>)
        requires { 0 < self.old.out }
        ensures out { self.new.out + 1 ≡ self.old.out }
        ensures dirs_out { self.new.dirs_out ≡ self.old.dirs_out }
        ensures closed { self.new.closed.items ≡ self.old.closed.items ++ Closed.Client client (option_copied report.entry) ∷ [] }
        ensures health { self.new.faults ≡ self.old.faults }
    {
        self.out -= 1;
        self.closed
            .push(Closed::Client(client, report.copied()))
            .unwrap();
    }
}
