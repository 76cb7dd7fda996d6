ghost use Rattle.std.specs.Prelude.{◌≡◌, ◌+◌, ◌<◌, ◌≤◌, ◌++◌, [], ◌∷◌, length, All, MatchBool, MatchOption, map, Some, option_copied};
ghost use Rattle.std.specs.Vec.{vec_capacity};
ghost use Rattle.std.proofs.Props.{props};
ghost use Rattle.session_io.specs.Clients.{closed_client};
ghost use Rattle.session_io.specs.Directories.{OfClient, OfDir};
ghost use Rattle.session_io.specs.Failing.{none_to_come};
ghost use Rattle.session_io.specs.MemDesks.{HasNames, HasPath, IsFirst, IsFreeDir, IsFreshEntry, IsNone, held_dir, held_of, left_of, health_with, given, ended, source_health, written, sink_health, moments};

use crate::failures::Failures;
use crate::{Client, Closed, Desk, MemClock, MemSink, MemSource, Report};
use shard_disk::{Disk, Trouble};
use std::alloc::Global;

type MemClient = Client<MemSource, MemSink, MemClock>;

/// A desk that holds its directories in memory, each under its path, and its clients, each under the names of its input and its
/// output. It tells all.
#[derive(Drop)]
pub struct MemDesk<D: Disk> {
    dirs: Vec<(String, D)>,
    held: Vec<(String, String, MemClient)>,
    closed: Vec<Closed<D>>,
    dirs_out: usize,
    out: usize,
    failures: Failures,
    ghost free: { All (IsFreeDir D.handed_out) dirs.items } by { Prim.hlevel props },
    ghost fresh: { All IsFreshEntry held.items } by { Prim.hlevel props },
    ghost room: { length closed.items + (out + dirs_out) ≤ vec_capacity closed },
}

impl<D: Disk> MemDesk<D> {
    /// A desk that hands out these disks and clients, each once. The openings at the places of `failing` fail, counted from 0,
    /// and so does that of any other path or name.
    pub fn new(
        alloc: Global,
        disks: Vec<(String, D)>,
        clients: Vec<(String, String, MemClient)>,
        failing: Vec<u64>,
    ) -> Self
        requires free { All (IsFreeDir D.handed_out) disks.items }
        requires fresh { All IsFreshEntry clients.items }
        ensures dirs { ⟦<MemDesk<D> as Desk>⟧.dirs result ≡ Some (map held_dir disks.items) }
        ensures held { ⟦<MemDesk<D> as Desk>⟧.held result ≡ Some (map held_of clients.items) }
        ensures out { (⟦<MemDesk<D> as Desk>⟧.dirs_out result ≡ 0) × (⟦<MemDesk<D> as Desk>⟧.out result ≡ 0) }
        ensures closed { ⟦<MemDesk<D> as Desk>⟧.closed result ≡ [] }
        ensures health { ⟦<MemDesk<D> as Desk>⟧.health result
            ≡ health_with D.health (record { faults = 0; is_steady = none_to_come failing.items 0 }) clients.items disks.items }
    {
        MemDesk {
            dirs: disks,
            held: clients,
            closed: Vec::new(alloc),
            dirs_out: 0,
            out: 0,
            failures: Failures::new(failing),
        }
    }
}

impl<D: Disk + Drop> MemDesk<D> {
    /// What was closed, in order.
    pub fn into_closed(self) -> Vec<Closed<D>>
        ensures { map left_of result.items ≡ ⟦<MemDesk<D> as Desk>⟧.closed self }
    {
        self.closed
    }
}

impl<D: Disk> Desk for MemDesk<D> {
    type Disk = D;

    type Source = MemSource;

    type Sink = MemSink;

    type Clock = MemClock;

    ghost dirs = { λ d. Some (map held_dir d.dirs.items) };

    ghost held = { λ d. Some (map held_of d.held.items) };

    ghost dirs_out = { λ d. d.dirs_out };

    ghost out = { λ d. d.out };

    ghost closed = { λ d. map left_of d.closed.items };

    ghost health = { λ d. health_with D.health d.failures d.held.items d.dirs.items };

    fn open_dir(&mut self, path: &str) -> Result<D, Trouble> {
        if self.failures.next_fails() {
            return Err(Trouble::Fault);
        }
        let Some(place) = first_at(&self.dirs, path) else {
            self.failures.note_fault();
            return Err(Trouble::Fault);
        };
        let out = self.dirs_out.checked_add(1).ok_or(Trouble::Memory)?;
        let all = out.checked_add(self.out).ok_or(Trouble::Memory)?;
        self.closed.reserve(all)?;
        self.dirs_out = out;
        let (_, disk) = self.dirs.remove(place);
        Ok(disk)
    }

    fn close_dir(&mut self, disk: D)
        requires { 0 < self.old.dirs_out }
        ensures out { self.new.dirs_out + 1 ≡ self.old.dirs_out }
        ensures closed { map left_of self.new.closed.items ≡ map left_of self.old.closed.items ++ OfDir disk ∷ [] }
        ensures dirs { Some (map held_dir self.new.dirs.items) ≡ Some (map held_dir self.old.dirs.items) }
        ensures clients { (Some (map held_of self.new.held.items) ≡ Some (map held_of self.old.held.items)) × (self.new.out ≡ self.old.out) }
        ensures health { health_with D.health self.new.failures self.new.held.items self.new.dirs.items
            ≡ health_with D.health self.old.failures self.old.held.items self.old.dirs.items }
    {
        self.dirs_out -= 1;
        self.closed.push(Closed::Dir(disk)).unwrap();
    }

    fn open_client(&mut self, input: &str, output: &str) -> Result<MemClient, Trouble> {
        if self.failures.next_fails() {
            return Err(Trouble::Fault);
        }
        let Some(place) = first_named(&self.held, input, output) else {
            self.failures.note_fault();
            return Err(Trouble::Fault);
        };
        let out = self.out.checked_add(1).ok_or(Trouble::Memory)?;
        let all = out.checked_add(self.dirs_out).ok_or(Trouble::Memory)?;
        self.closed.reserve(all)?;
        self.out = out;
        let (_, _, client) = self.held.remove(place);
        Ok(client)
    }

    fn close_client(&mut self, client: MemClient, report: Option<&Report>)
        requires { 0 < self.old.out }
        ensures out { self.new.out + 1 ≡ self.old.out }
        ensures closed { map left_of self.new.closed.items ≡ map left_of self.old.closed.items
            ++ OfClient (closed_client given ended source_health written sink_health moments client (option_copied report.entry)) ∷ [] }
        ensures held { Some (map held_of self.new.held.items) ≡ Some (map held_of self.old.held.items) }
        ensures dirs { (Some (map held_dir self.new.dirs.items) ≡ Some (map held_dir self.old.dirs.items)) × (self.new.dirs_out ≡ self.old.dirs_out) }
        ensures health { health_with D.health self.new.failures self.new.held.items self.new.dirs.items
            ≡ health_with D.health self.old.failures self.old.held.items self.old.dirs.items }
    {
        self.out -= 1;
        self.closed
            .push(Closed::Client(client, report.copied()))
            .unwrap();
    }
}

// The place of the first directory of this path.
fn first_at<D>(dirs: &[(String, D)], path: &str) -> Option<usize>
    ensures { MatchOption result (IsNone (HasPath path.now) dirs.now) (IsFirst (HasPath path.now) dirs.now) }
{
    for (place, dir) in dirs.iter().enumerate() {
        if is_at(dir, path) {
            return Some(place);
        }
    }
    None
}

fn is_at<D>(dir: &(String, D), path: &str) -> bool
    ensures { MatchBool result (HasPath path.now dir.now) (¬ (HasPath path.now dir.now)) }
{
    dir.0.as_str() == path
}

// The place of the first client of these names.
fn first_named(held: &[(String, String, MemClient)], input: &str, output: &str) -> Option<usize>
    ensures { MatchOption result (IsNone (HasNames input.now output.now) held.now) (IsFirst (HasNames input.now output.now) held.now) }
{
    for (place, entry) in held.iter().enumerate() {
        if is_named(entry, input, output) {
            return Some(place);
        }
    }
    None
}

fn is_named(entry: &(String, String, MemClient), input: &str, output: &str) -> bool
    ensures { MatchBool result (HasNames input.now output.now entry.now) (¬ (HasNames input.now output.now entry.now)) }
{
    entry.0.as_str() == input && entry.1.as_str() == output
}
