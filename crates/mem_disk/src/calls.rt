ghost use Rattle.std.specs.Prelude.{◌≡◌, ◌==◌, ◌&&◌, ◌+◌, min, IsTrue, IfOk, None, is_none, false, true};
ghost use Rattle.std.specs.List.{list_any, filter_map};
ghost use Rattle.mem_disk.specs.Calls.{is_at, is_quiet, read_of, write_of};
ghost use Rattle.mem_disk.specs.Called.{is_failing_at};
ghost use Rattle.shard_disk.specs.Health.{Ages, Failed, IsFresh, TakesOver, last_count};

use crate::Fail;
use std::alloc::{AllocError, Global};

/// The calls of a disk: which of them fail, how many were made, and how many failed.
#[derive(Debug, Drop)]
pub(crate) struct DiskCalls {
    pub(crate) failing: Vec<Fail>,
    /// The place from which on each call fails.
    pub(crate) stop: Option<u64>,
    pub(crate) next: u64,
    pub(crate) faults: u64,
}

/// The same of a reader or writer.
#[derive(Debug, Drop)]
pub(crate) struct DeviceCalls {
    pub(crate) failing: Vec<u64>,
    pub(crate) next: u64,
    pub(crate) faults: u64,
}

impl DiskCalls {
    ghost use Rattle.mem_disk.specs.Called.{is_next_failing};
    ghost use Rattle.mem_disk.specs.HealthOf.{disk_health, device_health};

    pub(crate) fn new(failing: Vec<Fail>) -> DiskCalls
        ensures failing { result.failing ≡ failing }
        ensures stop { result.stop ≡ None }
        ensures next { result.next ≡ 0 }
        ensures faults { result.faults ≡ 0 }
    {
        DiskCalls {
            failing,
            stop: None,
            next: 0,
            faults: 0,
        }
    }

    /// Whether the next call is to fail.
    pub(crate) fn will_fail(&self) -> bool
        ensures { result ≡ is_next_failing self.now }
    {
        is_to_fail(&self.failing, self.stop, self.next)
    }

    /// The next call is made and fails.
    pub(crate) fn fail(&mut self)
        requires { is_next_failing self.old ≡ true }
        ensures failed { Failed (disk_health self.old) (disk_health self.new) }
        ensures ages { Ages (disk_health self.old) (disk_health self.new) }
        ensures next { self.new.next ≡ min (self.old.next + 1) last_count }
        ensures failing { self.new.failing ≡ self.old.failing }
        ensures stop { self.new.stop ≡ self.old.stop }
    {
        self.next = self.next.saturating_add(1);
        self.faults = self.faults.saturating_add(1);
    }

    /// The next call is made and doesn't fail.
    pub(crate) fn pass(&mut self)
        requires { is_next_failing self.old ≡ false }
        ensures health { disk_health self.new ≡ disk_health self.old }
        ensures next { self.new.next ≡ min (self.old.next + 1) last_count }
        ensures failing { self.new.failing ≡ self.old.failing }
        ensures stop { self.new.stop ≡ self.old.stop }
    {
        self.next = self.next.saturating_add(1);
    }

    /// Whether the next call is to fail. It is made, and counted where it fails.
    pub(crate) fn fails(&mut self) -> bool
        ensures failed { IsTrue result → Failed (disk_health self.old) (disk_health self.new) }
        ensures ages { Ages (disk_health self.old) (disk_health self.new) }
        ensures passed { result ≡ false → disk_health self.new ≡ disk_health self.old }
        ensures answer { result ≡ is_next_failing self.old }
        ensures next { self.new.next ≡ min (self.old.next + 1) last_count }
        ensures failing { self.new.failing ≡ self.old.failing }
        ensures stop { self.new.stop ≡ self.old.stop }
    {
        if self.will_fail() {
            self.fail();
            return true;
        }
        self.pass();
        false
    }

    /// Takes over the faults of a reader or writer.
    pub(crate) fn take_over(&mut self, device: &DeviceCalls)
        ensures health { TakesOver (device_health device.now) (disk_health self.old) (disk_health self.new) }
        ensures failing { self.new.failing ≡ self.old.failing }
        ensures next { self.new.next ≡ self.old.next }
        ensures stop { self.new.stop ≡ self.old.stop }
    {
        self.faults = self.faults.saturating_add(device.faults);
    }

    /// The calls of a reader that the call before handed out.
    pub(crate) fn of_reader(&self, alloc: Global, maker: u64) -> Result<DeviceCalls, AllocError>
        ensures fresh { IfOk result (λ calls. IsFresh (disk_health self.now) (device_health calls)) }
        ensures failing { IfOk result (λ calls. calls.failing.items ≡ filter_map (read_of maker) self.now.failing.items) }
        ensures next { IfOk result (λ calls. calls.next ≡ 0) }
    {
        Ok(DeviceCalls {
            failing: reads_of(alloc, &self.failing, maker)?,
            next: 0,
            faults: 0,
        })
    }

    /// The calls of a writer that the call before handed out.
    pub(crate) fn of_writer(&self, alloc: Global, maker: u64) -> Result<DeviceCalls, AllocError>
        ensures fresh { IfOk result (λ calls. IsFresh (disk_health self.now) (device_health calls)) }
        ensures failing { IfOk result (λ calls. calls.failing.items ≡ filter_map (write_of maker) self.now.failing.items) }
        ensures next { IfOk result (λ calls. calls.next ≡ 0) }
    {
        Ok(DeviceCalls {
            failing: writes_of(alloc, &self.failing, maker)?,
            next: 0,
            faults: 0,
        })
    }
}

impl DeviceCalls {
    ghost use Rattle.mem_disk.specs.Called.{IsDeviceCalled};
    ghost use Rattle.mem_disk.specs.HealthOf.{device_health};

    /// Whether the next call is to fail. It is made, and counted where it fails.
    pub(crate) fn fails(&mut self) -> bool
        ensures failed { IsTrue result → Failed (device_health self.old) (device_health self.new) }
        ensures ages { Ages (device_health self.old) (device_health self.new) }
        ensures passed { result ≡ false → device_health self.new ≡ device_health self.old }
        ensures call { IsDeviceCalled result self.old self.new }
    {
        let next = self.next;
        let fails = names_place(&self.failing, next);
        self.next = next.saturating_add(1);
        if fails {
            self.faults = self.faults.saturating_add(1);
        }
        fails
    }
}

/// Whether the call at this place fails.
fn is_to_fail(failing: &[Fail], stop: Option<u64>, place: u64) -> bool
    ensures fails { IsTrue result → (is_none stop && is_quiet failing.now place) ≡ false }
    ensures passes { result ≡ false → list_any (is_at place) failing.now ≡ false }
    ensures exact { result ≡ is_failing_at failing.now stop place }
{
    if names_call(failing, place) {
        return true;
    }
    match stop {
        Some(stop) => place >= stop,
        None => false,
    }
}

fn names_call(failing: &[Fail], place: u64) -> bool
    ensures { result ≡ list_any (is_at place) failing.now }
{
    failing.iter().any(|fail| fail.is_at(place))
}

fn names_place(failing: &[u64], place: u64) -> bool
    ensures { result ≡ list_any (λ at. at == place) failing.now }
{
    failing.iter().any(|at| *at == place)
}

fn reads_of(alloc: Global, failing: &[Fail], maker: u64) -> Result<Vec<u64>, AllocError>
    ensures { IfOk result (λ places. places.items ≡ filter_map (read_of maker) failing.now) }
{
    failing
        .iter()
        .filter_map(|fail| fail.read_of(maker))
        .collect(alloc)
}

fn writes_of(alloc: Global, failing: &[Fail], maker: u64) -> Result<Vec<u64>, AllocError>
    ensures { IfOk result (λ places. places.items ≡ filter_map (write_of maker) failing.now) }
{
    failing
        .iter()
        .filter_map(|fail| fail.write_of(maker))
        .collect(alloc)
}
