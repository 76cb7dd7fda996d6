ghost use Rattle.std.specs.Prelude.{◌≡◌, reverse, true, unwrap_or};
ghost use Rattle.std.specs.BTreeMap as tree;
ghost use Rattle.std.specs.Ordering.{nat_cmp};
ghost use Rattle.mem_disk.specs.HealthOf.{disk_health};
ghost use Rattle.mem_disk.specs.History.{adopted_after, as_it_reads, reads, crashes_of, keeps_all, now_counts, now_alone};

use crate::{MemDisk, MemReader, MemWriter};
use shard_disk::{Disk, Fault, Trouble};

/// A disk in memory that stops: it passes so many calls and fails each later one.
#[derive(Drop)]
pub struct Fuse {
    pub(crate) disk: MemDisk,
}

impl Fuse {
    ghost use Rattle.std.specs.Prelude.{◌≡◌, ◌+◌, min, Some, None};
    ghost use Rattle.shard_disk.specs.Health.{last_count};
    ghost use Rattle.mem_disk.specs.Closed.{changes_of, faults_of, handed_out_of, place_of, stop_of};
    ghost use Rattle.mem_disk.specs.Fused.{disk_of};

    /// Passes `k` calls of the disk itself, but for those that it names, and fails each later one. Its readers and
    /// writers don't fail by it.
    pub fn new(mut disk: MemDisk, k: u64) -> Fuse
        ensures recorded { changes_of (disk_of result) ≡ changes_of disk }
        ensures handed_out { handed_out_of (disk_of result) ≡ handed_out_of disk }
        ensures faults { faults_of (disk_of result) ≡ faults_of disk }
        ensures place { place_of (disk_of result) ≡ place_of disk }
        ensures stop { stop_of (disk_of result) ≡ Some (min (place_of disk + k) last_count) }
    {
        disk.calls.stop = Some(disk.calls.next.saturating_add(k));
        Fuse { disk }
    }

    /// The disk, which goes on.
    pub fn into_disk(self) -> MemDisk
        ensures recorded { changes_of result ≡ changes_of (disk_of self) }
        ensures handed_out { handed_out_of result ≡ handed_out_of (disk_of self) }
        ensures faults { faults_of result ≡ faults_of (disk_of self) }
        ensures place { place_of result ≡ place_of (disk_of self) }
        ensures stop { stop_of result ≡ None }
    {
        let Fuse { mut disk } = self;
        disk.calls.stop = None;
        disk
    }
}

impl Disk for Fuse {
    ghost use Rattle.std.specs.Prelude.{◌≡◌, ◌+◌, ◌<◌, ◌≤◌, [], ℕ, List, All, IsTrue, IfErr, IfOk, IsErrOf, OnErr, OnOk, is_err, length, reverse, true, unwrap_or};
    ghost use Rattle.std.specs.BTreeMap as tree;
    ghost use Rattle.std.specs.FinMap.{keys};
    ghost use Rattle.std.specs.Ordering.{nat_cmp};
    ghost use Rattle.shard_disk.specs.Calls.Adopt.{Adopts, AdoptsNone, NeverBegan};
    ghost use Rattle.shard_disk.specs.Calls.Open.{Opens};
    ghost use Rattle.shard_disk.specs.Calls.WriteAt.{WritesNone};
    ghost use Rattle.shard_disk.specs.Crash.{Follows, IsDurable, Same};
    ghost use Rattle.shard_disk.specs.Directory.{ChangesAt, HasFile, HasRange, IfThere, IsPresent, MadeOrNot, Overwritten, Torn, Vanishes, bytes_at};
    ghost use Rattle.shard_disk.specs.HandedOut.{GivesUp, OneMoreReader};
    ghost use Rattle.shard_disk.specs.Health.{FaultHasCause, HasCause, IsFresh, RefusalHasCause, TakesOver};
    ghost use Rattle.shard_disk.specs.Stage.{Finished, Open};
    ghost use Rattle.mem_disk.specs.Called.{IsCalled, IsCalledOrPutOff, IsUncounted, is_fault, is_memory, is_refused_by_fault, is_refused_for_memory};
    ghost use Rattle.mem_disk.specs.Closed.{closed_lowest_of, files_of, handed_out_of, health_of, left_of};
    ghost use Rattle.mem_disk.specs.Fused.{disk_of};
    ghost use Rattle.mem_disk.specs.HandsOut.{HandsReader, HandsWriter};
    ghost use Rattle.mem_disk.specs.HealthOf.{device_health, disk_health};
    ghost use Rattle.mem_disk.specs.History.{adopted_after, as_it_reads, crashes_of, keeps_all, now_alone, now_counts, reads};
    ghost use Rattle.mem_disk.specs.Progress.{stage_of};
    ghost use Rattle.mem_disk.specs.Reads.{lowest_of};
    ghost use Rattle.mem_disk.specs.Shown.{HasAsRead, LeavesBut, LeavesExactly, Offers, Shows};

    type Reader = MemReader;

    type Writer = MemWriter;

    ghost tells = { true };

    ghost files = { λ f. reads (reverse f.disk.contents.changes.items) };

    ghost crashes = { λ f. crashes_of f.disk.contents.changes.items };

    ghost handed_out = { λ f. record { next_number = f.disk.contents.next; readers = λ n. unwrap_or (tree.get nat_cmp f.disk.readers n) 0; adopted = adopted_after (reverse f.disk.contents.changes.items) } };

    ghost health = { λ f. disk_health f.disk.calls };

    ghost reader_tells = { λ told. told };

    ghost writer_tells = { λ told. told };

    ghost as_read = { λ f told. as_it_reads f.disk.contents.changes.items };

    ghost keeps_adopted = { λ f told. keeps_all f.disk.contents.changes.items _ _ };

    ghost numbered = { λ f n told there. f.disk.contents.below n there };

    ghost counts_now = { λ f t c le now. now_counts f.disk.contents.changes.items t c le now };

    ghost only_now = { λ f c since. now_alone f.disk.contents.changes.items c since };

    fn begin(&mut self) -> Result<MemWriter, Trouble>
        ensures ok { IfOk result (λ writer. HandsWriter (disk_of self.old) writer) }
        ensures files { files_of (disk_of self.new) ≡ files_of (disk_of self.old) }
        ensures crash { LeavesExactly Same (left_of (disk_of self.old)) (left_of (disk_of self.new)) }
        ensures handed_out { handed_out_of (disk_of self.new) ≡ handed_out_of (disk_of self.old) }
        ensures fault { HasCause result (health_of (disk_of self.old)) (health_of (disk_of self.new)) }
        ensures call { IsCalled (is_fault result) (disk_of self.old) (disk_of self.new) }
    {
        self.disk.begin()
    }

    fn adopt(&mut self, writer: MemWriter) -> Result<u32, (MemWriter, Trouble)>
        requires { stage_of writer.progress ≡ Finished }
        ensures ok { IfOk result (λ no. Adopts (IsTrue true) no writer.bytes.items
            (files_of (disk_of self.old)) (files_of (disk_of self.new)) (left_of (disk_of self.old)) (left_of (disk_of self.new)) (handed_out_of (disk_of self.old)) (handed_out_of (disk_of self.new))) }
        ensures refused { OnErr result (AdoptsNone writer.bytes.items
            (files_of (disk_of self.old)) (files_of (disk_of self.new)) (left_of (disk_of self.old)) (left_of (disk_of self.new)) (handed_out_of (disk_of self.old)) (handed_out_of (disk_of self.new))) }
        ensures returned { IfErr result (λ refused. refused.0 ≡ writer) }
        ensures memory { IfErr result (λ refused. refused.1 ≡ Trouble.Memory
            → NeverBegan (left_of (disk_of self.old)) (left_of (disk_of self.new)) (handed_out_of (disk_of self.old)) (handed_out_of (disk_of self.new))) }
        ensures fault { RefusalHasCause result (health_of (disk_of self.old)) (health_of (disk_of self.new)) }
        ensures shows { Offers (is_refused_for_memory result) (is_refused_by_fault result) (handed_out_of (disk_of self.old)).next_number writer.bytes.items (left_of (disk_of self.old)) (left_of (disk_of self.new)) }
        ensures call { IsCalledOrPutOff (is_refused_for_memory result) (is_refused_by_fault result) (disk_of self.old) (disk_of self.new) }
    {
        self.disk.adopt(writer)
    }

    fn drop_writer(&mut self, writer: MemWriter)
        ensures files { files_of (disk_of self.new) ≡ files_of (disk_of self.old) }
        ensures crash { LeavesExactly Same (left_of (disk_of self.old)) (left_of (disk_of self.new)) }
        ensures handed_out { handed_out_of (disk_of self.new) ≡ handed_out_of (disk_of self.old) }
        ensures health { TakesOver (device_health writer.calls) (health_of (disk_of self.old)) (health_of (disk_of self.new)) }
        ensures uncounted { IsUncounted (disk_of self.old) (disk_of self.new) }
    {
        self.disk.drop_writer(writer);
    }

    fn open(&mut self, no: u32) -> Result<MemReader, Trouble>
        requires { IsPresent (files_of (disk_of self.old)) no }
        ensures ok { IfOk result (λ reader. HandsReader no (disk_of self.old) reader) }
        ensures out { OnOk result (OneMoreReader no (handed_out_of (disk_of self.old)) (handed_out_of (disk_of self.new))) }
        ensures refused { OnErr result (handed_out_of (disk_of self.new) ≡ handed_out_of (disk_of self.old)) }
        ensures files { files_of (disk_of self.new) ≡ files_of (disk_of self.old) }
        ensures crash { LeavesExactly Same (left_of (disk_of self.old)) (left_of (disk_of self.new)) }
        ensures fault { HasCause result (health_of (disk_of self.old)) (health_of (disk_of self.new)) }
        ensures call { IsCalled (is_fault result) (disk_of self.old) (disk_of self.new) }
    {
        self.disk.open(no)
    }

    fn close(&mut self, reader: MemReader)
        requires { 0 < (handed_out_of (disk_of self.old)).readers reader.no }
        ensures out { OneMoreReader reader.no (handed_out_of (disk_of self.new)) (handed_out_of (disk_of self.old)) }
        ensures files { files_of (disk_of self.new) ≡ files_of (disk_of self.old) }
        ensures crash { LeavesExactly Same (left_of (disk_of self.old)) (left_of (disk_of self.new)) }
        ensures health { TakesOver (device_health reader.calls) (health_of (disk_of self.old)) (health_of (disk_of self.new)) }
        ensures lowest { closed_lowest_of (disk_of self.new) ≡ lowest_of reader }
        ensures uncounted { IsUncounted (disk_of self.old) (disk_of self.new) }
    {
        self.disk.close(reader);
    }

    fn write_at(&mut self, no: u32, at: u64, bytes: &[u8]) -> Result<(), Trouble>
        requires { HasRange (files_of (disk_of self.old)) no at 0 }
        ensures written { OnOk result (ChangesAt no (IfThere (Overwritten at bytes.now)) (files_of (disk_of self.old)) (files_of (disk_of self.new))) }
        ensures torn { ChangesAt no (IfThere (Torn at (length bytes.now))) (files_of (disk_of self.old)) (files_of (disk_of self.new)) }
        ensures crash { LeavesBut (is_memory result) (ChangesAt no (IfThere (Torn at (length bytes.now)))) (left_of (disk_of self.old)) (left_of (disk_of self.new)) }
        ensures memory { IsErrOf result Trouble.Memory → WritesNone (files_of (disk_of self.old)) (files_of (disk_of self.new)) (left_of (disk_of self.old)) (left_of (disk_of self.new)) }
        ensures handed_out { handed_out_of (disk_of self.new) ≡ handed_out_of (disk_of self.old) }
        ensures fault { HasCause result (health_of (disk_of self.old)) (health_of (disk_of self.new)) }
        ensures call { IsCalledOrPutOff (is_memory result) (is_fault result) (disk_of self.old) (disk_of self.new) }
    {
        self.disk.write_at(no, at, bytes)
    }

    fn sync(&mut self, no: u32) -> Result<(), Fault>
        requires { IsPresent (files_of (disk_of self.old)) no }
        ensures durable { OnOk result (IsDurable (files_of (disk_of self.old)) (left_of (disk_of self.new)) no) }
        ensures files { files_of (disk_of self.new) ≡ files_of (disk_of self.old) }
        ensures crash { Follows Same (left_of (disk_of self.old)) (left_of (disk_of self.new)) }
        ensures shows { Shows (HasAsRead no (files_of (disk_of self.old))) (left_of (disk_of self.old)) (left_of (disk_of self.new)) }
        ensures handed_out { handed_out_of (disk_of self.new) ≡ handed_out_of (disk_of self.old) }
        ensures fault { FaultHasCause result (health_of (disk_of self.old)) (health_of (disk_of self.new)) }
        ensures call { IsCalled (is_err result) (disk_of self.old) (disk_of self.new) }
    {
        self.disk.sync(no)
    }

    fn read_at(&mut self, no: u32, at: u64, out: &mut [u8]) -> Result<(), Fault>
        requires { HasRange (files_of (disk_of self.old)) no at (length out.old) }
        ensures read { OnOk result (HasFile (files_of (disk_of self.old)) no (λ file. out.new ≡ bytes_at file at (length out.old))) }
        ensures files { files_of (disk_of self.new) ≡ files_of (disk_of self.old) }
        ensures crash { LeavesExactly Same (left_of (disk_of self.old)) (left_of (disk_of self.new)) }
        ensures handed_out { handed_out_of (disk_of self.new) ≡ handed_out_of (disk_of self.old) }
        ensures fault { FaultHasCause result (health_of (disk_of self.old)) (health_of (disk_of self.new)) }
        ensures call { IsCalled (is_err result) (disk_of self.old) (disk_of self.new) }
    {
        self.disk.read_at(no, at, out)
    }

    fn len(&mut self, no: u32) -> Result<u64, Fault>
        requires { IsPresent (files_of (disk_of self.old)) no }
        ensures length { IfOk result (λ len. HasFile (files_of (disk_of self.old)) no (λ file. len ≡ length file)) }
        ensures known { OnOk result (no < (handed_out_of (disk_of self.old)).next_number) }
        ensures files { files_of (disk_of self.new) ≡ files_of (disk_of self.old) }
        ensures crash { LeavesExactly Same (left_of (disk_of self.old)) (left_of (disk_of self.new)) }
        ensures handed_out { handed_out_of (disk_of self.new) ≡ handed_out_of (disk_of self.old) }
        ensures fault { FaultHasCause result (health_of (disk_of self.old)) (health_of (disk_of self.new)) }
        ensures call { IsCalled (is_err result) (disk_of self.old) (disk_of self.new) }
    {
        self.disk.len(no)
    }

    fn next_number(&self) -> u32
        ensures { result ≡ (handed_out_of (disk_of self.now)).next_number }
    {
        self.disk.next_number()
    }

    fn remove(&mut self, no: u32) -> Result<(), Fault>
        requires { (handed_out_of (disk_of self.old)).readers no ≡ 0 }
        ensures removed { OnOk result (ChangesAt no Vanishes (files_of (disk_of self.old)) (files_of (disk_of self.new))) }
        ensures refused { OnErr result (files_of (disk_of self.new) ≡ files_of (disk_of self.old)) }
        ensures crash { LeavesExactly (ChangesAt no (MadeOrNot Vanishes)) (left_of (disk_of self.old)) (left_of (disk_of self.new)) }
        ensures gone { GivesUp no (handed_out_of (disk_of self.old)) (handed_out_of (disk_of self.new)) }
        ensures fault { FaultHasCause result (health_of (disk_of self.old)) (health_of (disk_of self.new)) }
        ensures call { IsCalled (is_err result) (disk_of self.old) (disk_of self.new) }
    {
        self.disk.remove(no)
    }

    fn list(&mut self) -> Result<Vec<u32>, Trouble>
        ensures numbers { IfOk result (λ numbers. numbers.items ≡ keys (files_of (disk_of self.old))) }
        ensures known { IfOk result (λ numbers. All (λ no. no < (handed_out_of (disk_of self.old)).next_number) numbers.items) }
        ensures files { files_of (disk_of self.new) ≡ files_of (disk_of self.old) }
        ensures crash { LeavesExactly Same (left_of (disk_of self.old)) (left_of (disk_of self.new)) }
        ensures handed_out { handed_out_of (disk_of self.new) ≡ handed_out_of (disk_of self.old) }
        ensures fault { HasCause result (health_of (disk_of self.old)) (health_of (disk_of self.new)) }
        ensures call { IsCalled (is_fault result) (disk_of self.old) (disk_of self.new) }
    {
        self.disk.list()
    }
}
