ghost use Rattle.std.specs.Prelude.{◌≡◌, ◌+◌, ℕ, List, reverse, true, unwrap_or, OnOk, OnErr, ◌≤◌, ◌<◌, length, IfOk, IsTrue};
ghost use Rattle.std.specs.BTreeMap as tree;
ghost use Rattle.std.specs.FinMap as map;
ghost use Rattle.std.specs.Option.{option_map};
ghost use Rattle.std.specs.Ordering.{nat_cmp};
ghost use Rattle.mem_disk.specs.Calls.{is_quiet};
ghost use Rattle.mem_disk.specs.HealthOf.{disk_health};
ghost use Rattle.mem_disk.specs.History.{adopted_after, as_it_reads, reads, crashes_of, keeps_all, now_counts, now_alone};

use crate::calls::DiskCalls;
use crate::contents::Contents;
use crate::image::contents_of;
use crate::picks::Picks;
use crate::replay::Replay;
use crate::{Fail, MemReader, MemWriter, Progress};
use shard_disk::{Disk, Fault, Trouble};
use std::alloc::{AllocError, Global};
use std::collections::BTreeMap;

/// A directory in memory. It tells all.
#[derive(Drop)]
pub struct MemDisk {
    pub(crate) calls: DiskCalls,
    pub(crate) contents: Contents,
    /// How many readers of each file are out.
    pub(crate) readers: BTreeMap<u32, u64>,
    pub(crate) closed_lowest: Option<u64>,
}

impl MemDisk {
    ghost use Rattle.mem_disk.specs.Closed.{closed_lowest_of};
    ghost use Rattle.mem_disk.specs.Opened.{IsJustOpened};

    /// An empty directory, in every image that a crash may leave, on which these calls fail.
    pub fn new(alloc: Global, failing: Vec<Fail>) -> MemDisk
        ensures empty { ⟦<MemDisk as Disk>⟧.files result ≡ map.empty }
        ensures durable { (image : map.FinMap nat_cmp (List ℕ)) → (⟦<MemDisk as Disk>⟧.crashes result).now image → image ≡ map.empty }
        ensures first { (⟦<MemDisk as Disk>⟧.handed_out result).next_number ≡ 0 }
        ensures no_reader { (n : ℕ) → (⟦<MemDisk as Disk>⟧.handed_out result).readers n ≡ 0 }
        ensures no_fault { (⟦<MemDisk as Disk>⟧.health result).faults ≡ 0 }
        ensures steady { (⟦<MemDisk as Disk>⟧.health result).is_steady ≡ is_quiet failing.items 0 }
    {
        MemDisk {
            calls: DiskCalls::new(failing),
            contents: Contents::new(alloc),
            readers: BTreeMap::new(alloc),
            closed_lowest: None,
        }
    }

    /// One directory that a crash now may leave, as a disk that was just opened and on which no call fails. Want of
    /// memory is the one error.
    ///
    /// What is undetermined is picked by the bytes of `choice`, taken in turn and after the last from the first again;
    /// no bytes count as zeros. A file that may be there or not takes one, and is there where that is odd. A write that
    /// may be torn takes one, and loses half as many of its bytes past the old end; then it takes one for each byte that
    /// is left of its range, which is that byte. So 0 alone and 1 alone leave each such write in its whole length.
    pub fn image(&self, choice: &[u8]) -> Result<MemDisk, AllocError>
        ensures image { IfOk result (λ image. (⟦<MemDisk as Disk>⟧.crashes self.now).now (⟦<MemDisk as Disk>⟧.files image)) }
        ensures durable { IfOk result (λ image. (left : map.FinMap nat_cmp (List ℕ)) → (⟦<MemDisk as Disk>⟧.crashes image).now left
            → left ≡ ⟦<MemDisk as Disk>⟧.files image) }
        ensures opened { IfOk result (λ image. IsJustOpened (⟦<MemDisk as Disk>⟧.files image) (⟦<MemDisk as Disk>⟧.handed_out image)) }
        ensures no_fault { IfOk result (λ image. (⟦<MemDisk as Disk>⟧.health image).faults ≡ 0) }
        ensures steady { IfOk result (λ image. IsTrue (⟦<MemDisk as Disk>⟧.health image).is_steady) }
    {
        let alloc = self.contents.alloc;
        let mut picks = Picks::new(choice);
        let mut replay = Replay::new(alloc);
        replay.apply_all(&self.contents.changes, &mut picks)?;
        let contents = contents_of(alloc, replay.into_left())?;
        Ok(MemDisk {
            calls: DiskCalls::new(Vec::new(alloc)),
            contents,
            readers: BTreeMap::new(alloc),
            closed_lowest: None,
        })
    }

    /// The bytes of a file, if it is there.
    pub fn bytes(&self, no: u32) -> Option<&[u8]>
        ensures { option_map (λ bytes. bytes.now) result ≡ map.get (⟦<MemDisk as Disk>⟧.files self.now) no }
    {
        match self.contents.files.get(&no) {
            Some(bytes) => Some(bytes.as_slice()),
            None => None,
        }
    }

    /// The least offset that the reader was read from that was closed last. There is none before a reader is closed,
    /// and where that one read nothing.
    pub fn closed_lowest(&self) -> Option<u64>
        ensures { result ≡ closed_lowest_of self.now }
    {
        self.closed_lowest
    }
}

impl Disk for MemDisk {
    ghost use Rattle.std.specs.Prelude.{◌≡◌, ◌+◌, ◌<◌, ◌≤◌, [], ℕ, List, All, IsTrue, IfErr, IfOk, IsErrOf, OnErr, OnOk, is_err, length, reverse, true, unwrap_or};
    ghost use Rattle.std.specs.BTreeMap as tree;
    ghost use Rattle.std.specs.FinMap.{keys};
    ghost use Rattle.std.specs.Ordering.{nat_cmp};
    ghost use Rattle.shard_disk.specs.Calls.Adopt.{Adopts, AdoptsNone, NeverBegan};
    ghost use Rattle.shard_disk.specs.Calls.Open.{Opens};
    ghost use Rattle.shard_disk.specs.Calls.WriteAt.{WritesNone};
    ghost use Rattle.shard_disk.specs.Crash.{Follows, IsDurable, Same};
    ghost use Rattle.shard_disk.specs.Directory.{ChangesAt, HasFile, HasRange, IfThere, IsPresent, MadeOrNot, Overwritten, Torn, Vanishes, bytes_at};
    ghost use Rattle.shard_disk.specs.HandedOut.{GivesUp, OneMoreReader};
    ghost use Rattle.shard_disk.specs.Health.{FaultHasCause, HasCause, IsFresh, RefusalHasCause, TakesOver};
    ghost use Rattle.shard_disk.specs.Stage.{Finished, Open};
    ghost use Rattle.mem_disk.specs.Called.{IsCalled, IsCalledOrPutOff, IsUncounted, is_fault, is_memory, is_refused_by_fault, is_refused_for_memory};
    ghost use Rattle.mem_disk.specs.Closed.{closed_lowest_of, files_of, handed_out_of, health_of, left_of};
    ghost use Rattle.mem_disk.specs.HandsOut.{HandsReader, HandsWriter};
    ghost use Rattle.mem_disk.specs.HealthOf.{device_health, disk_health};
    ghost use Rattle.mem_disk.specs.History.{adopted_after, as_it_reads, crashes_of, keeps_all, now_alone, now_counts, reads};
    ghost use Rattle.mem_disk.specs.Progress.{stage_of};
    ghost use Rattle.mem_disk.specs.Reads.{lowest_of};
    ghost use Rattle.mem_disk.specs.Shown.{HasAsRead, LeavesBut, LeavesExactly, Offers, Shows};

    type Reader = MemReader;

    type Writer = MemWriter;

    ghost tells = { true };

    ghost files = { λ m. reads (reverse m.contents.changes.items) };

    ghost crashes = { λ m. crashes_of m.contents.changes.items };

    ghost handed_out = { λ m. record { next_number = m.contents.next; readers = λ n. unwrap_or (tree.get nat_cmp m.readers n) 0; adopted = adopted_after (reverse m.contents.changes.items) } };

    ghost health = { λ m. disk_health m.calls };

    ghost reader_tells = { λ told. told };

    ghost writer_tells = { λ told. told };

    ghost as_read = { λ m told. as_it_reads m.contents.changes.items };

    ghost keeps_adopted = { λ m told. keeps_all m.contents.changes.items _ _ };

    ghost numbered = { λ m n told there. m.contents.below n there };

    ghost counts_now = { λ m t c le now. now_counts m.contents.changes.items t c le now };

    ghost only_now = { λ m c since. now_alone m.contents.changes.items c since };

    fn begin(&mut self) -> Result<MemWriter, Trouble>
        ensures ok { IfOk result (λ writer. HandsWriter self.old writer) }
        ensures files { files_of self.new ≡ files_of self.old }
        ensures crash { LeavesExactly Same (left_of self.old) (left_of self.new) }
        ensures handed_out { handed_out_of self.new ≡ handed_out_of self.old }
        ensures fault { HasCause result (health_of self.old) (health_of self.new) }
        ensures call { IsCalled (is_fault result) self.old self.new }
    {
        let maker = self.calls.next;
        if self.calls.fails() {
            return Err(Trouble::Fault);
        }
        let calls = self.calls.of_writer(self.contents.alloc, maker)?;
        Ok(MemWriter {
            bytes: Vec::new(self.contents.alloc),
            progress: Progress::Open,
            calls,
        })
    }

    fn adopt(&mut self, writer: MemWriter) -> Result<u32, (MemWriter, Trouble)>
        requires { stage_of writer.progress ≡ Finished }
        ensures ok { IfOk result (λ no. Adopts (IsTrue true) no writer.bytes.items
            (files_of self.old) (files_of self.new) (left_of self.old) (left_of self.new) (handed_out_of self.old) (handed_out_of self.new)) }
        ensures refused { OnErr result (AdoptsNone writer.bytes.items
            (files_of self.old) (files_of self.new) (left_of self.old) (left_of self.new) (handed_out_of self.old) (handed_out_of self.new)) }
        ensures returned { IfErr result (λ refused. refused.0 ≡ writer) }
        ensures memory { IfErr result (λ refused. refused.1 ≡ Trouble.Memory
            → NeverBegan (left_of self.old) (left_of self.new) (handed_out_of self.old) (handed_out_of self.new)) }
        ensures fault { RefusalHasCause result (health_of self.old) (health_of self.new) }
        ensures shows { Offers (is_refused_for_memory result) (is_refused_by_fault result) (handed_out_of self.old).next_number writer.bytes.items (left_of self.old) (left_of self.new) }
        ensures call { IsCalledOrPutOff (is_refused_for_memory result) (is_refused_by_fault result) self.old self.new }
    {
        if self.calls.will_fail() {
            // What can't be noted isn't begun.
            if let Err(AllocError) = self.contents.refuse(&writer.bytes) {
                return Err((writer, Trouble::Memory));
            }
            self.calls.fail();
            return Err((writer, Trouble::Fault));
        }
        self.calls.pass();
        let no = self.contents.next;
        if no == u32::MAX {
            return Err((writer, Trouble::Memory));
        }
        match self.contents.place(no, &writer.bytes) {
            Ok(()) => Ok(no),
            Err(AllocError) => Err((writer, Trouble::Memory)),
        }
    }

    fn drop_writer(&mut self, writer: MemWriter)
        ensures files { files_of self.new ≡ files_of self.old }
        ensures crash { LeavesExactly Same (left_of self.old) (left_of self.new) }
        ensures handed_out { handed_out_of self.new ≡ handed_out_of self.old }
        ensures health { TakesOver (device_health writer.calls) (health_of self.old) (health_of self.new) }
        ensures uncounted { IsUncounted self.old self.new }
    {
        self.calls.take_over(&writer.calls);
    }

    fn open(&mut self, no: u32) -> Result<MemReader, Trouble>
        requires { IsPresent (files_of self.old) no }
        ensures ok { IfOk result (λ reader. HandsReader no self.old reader) }
        ensures out { OnOk result (OneMoreReader no (handed_out_of self.old) (handed_out_of self.new)) }
        ensures refused { OnErr result (handed_out_of self.new ≡ handed_out_of self.old) }
        ensures files { files_of self.new ≡ files_of self.old }
        ensures crash { LeavesExactly Same (left_of self.old) (left_of self.new) }
        ensures fault { HasCause result (health_of self.old) (health_of self.new) }
        ensures call { IsCalled (is_fault result) self.old self.new }
    {
        let maker = self.calls.next;
        if self.calls.fails() {
            return Err(Trouble::Fault);
        }
        let bytes = self
            .contents
            .files
            .get(&no)
            .unwrap()
            .to_vec(self.contents.alloc)?;
        let calls = self.calls.of_reader(self.contents.alloc, maker)?;
        let out = self.readers.get(&no).copied().unwrap_or(0);
        let more = out.checked_add(1).ok_or(Trouble::Memory)?;
        self.readers.insert(no, more)?;
        Ok(MemReader {
            no,
            bytes,
            calls,
            lowest: None,
            latest: None,
        })
    }

    fn close(&mut self, reader: MemReader)
        requires { 0 < (handed_out_of self.old).readers reader.no }
        ensures out { OneMoreReader reader.no (handed_out_of self.new) (handed_out_of self.old) }
        ensures files { files_of self.new ≡ files_of self.old }
        ensures crash { LeavesExactly Same (left_of self.old) (left_of self.new) }
        ensures health { TakesOver (device_health reader.calls) (health_of self.old) (health_of self.new) }
        ensures lowest { closed_lowest_of self.new ≡ lowest_of reader }
        ensures uncounted { IsUncounted self.old self.new }
    {
        self.calls.take_over(&reader.calls);
        self.closed_lowest = reader.lowest;
        if let Some(out) = self.readers.get_mut(&reader.no) {
            *out -= 1;
        }
    }

    fn write_at(&mut self, no: u32, at: u64, bytes: &[u8]) -> Result<(), Trouble>
        requires { HasRange (files_of self.old) no at 0 }
        ensures written { OnOk result (ChangesAt no (IfThere (Overwritten at bytes.now)) (files_of self.old) (files_of self.new)) }
        ensures torn { ChangesAt no (IfThere (Torn at (length bytes.now))) (files_of self.old) (files_of self.new) }
        ensures crash { LeavesBut (is_memory result) (ChangesAt no (IfThere (Torn at (length bytes.now)))) (left_of self.old) (left_of self.new) }
        ensures memory { IsErrOf result Trouble.Memory → WritesNone (files_of self.old) (files_of self.new) (left_of self.old) (left_of self.new) }
        ensures handed_out { handed_out_of self.new ≡ handed_out_of self.old }
        ensures fault { HasCause result (health_of self.old) (health_of self.new) }
        ensures call { IsCalledOrPutOff (is_memory result) (is_fault result) self.old self.new }
    {
        if self.calls.will_fail() {
            // What can't be noted isn't begun.
            if let Err(AllocError) = self.contents.tear(no, at, bytes.len() as u64) {
                return Err(Trouble::Memory);
            }
            self.calls.fail();
            return Err(Trouble::Fault);
        }
        self.calls.pass();
        match self.contents.write(no, at, bytes) {
            Ok(()) => Ok(()),
            Err(AllocError) => Err(Trouble::Memory),
        }
    }

    fn sync(&mut self, no: u32) -> Result<(), Fault>
        requires { IsPresent (files_of self.old) no }
        ensures durable { OnOk result (IsDurable (files_of self.old) (left_of self.new) no) }
        ensures files { files_of self.new ≡ files_of self.old }
        ensures crash { Follows Same (left_of self.old) (left_of self.new) }
        ensures shows { Shows (HasAsRead no (files_of self.old)) (left_of self.old) (left_of self.new) }
        ensures handed_out { handed_out_of self.new ≡ handed_out_of self.old }
        ensures fault { FaultHasCause result (health_of self.old) (health_of self.new) }
        ensures call { IsCalled (is_err result) self.old self.new }
    {
        if self.calls.fails() {
            return Err(Fault);
        }
        self.contents.sync(no);
        Ok(())
    }

    fn read_at(&mut self, no: u32, at: u64, out: &mut [u8]) -> Result<(), Fault>
        requires { HasRange (files_of self.old) no at (length out.old) }
        ensures read { OnOk result (HasFile (files_of self.old) no (λ file. out.new ≡ bytes_at file at (length out.old))) }
        ensures files { files_of self.new ≡ files_of self.old }
        ensures crash { LeavesExactly Same (left_of self.old) (left_of self.new) }
        ensures handed_out { handed_out_of self.new ≡ handed_out_of self.old }
        ensures fault { FaultHasCause result (health_of self.old) (health_of self.new) }
        ensures call { IsCalled (is_err result) self.old self.new }
    {
        if self.calls.fails() {
            return Err(Fault);
        }
        let at = at as usize;
        let file = self.contents.files.get(&no).unwrap();
        out.copy_from_slice(&file[at..at + out.len()]);
        Ok(())
    }

    fn len(&mut self, no: u32) -> Result<u64, Fault>
        requires { IsPresent (files_of self.old) no }
        ensures length { IfOk result (λ len. HasFile (files_of self.old) no (λ file. len ≡ length file)) }
        ensures known { OnOk result (no < (handed_out_of self.old).next_number) }
        ensures files { files_of self.new ≡ files_of self.old }
        ensures crash { LeavesExactly Same (left_of self.old) (left_of self.new) }
        ensures handed_out { handed_out_of self.new ≡ handed_out_of self.old }
        ensures fault { FaultHasCause result (health_of self.old) (health_of self.new) }
        ensures call { IsCalled (is_err result) self.old self.new }
    {
        if self.calls.fails() {
            return Err(Fault);
        }
        Ok(self.contents.files.get(&no).unwrap().len() as u64)
    }

    fn next_number(&self) -> u32
        ensures { result ≡ (handed_out_of self.now).next_number }
    {
        self.contents.next
    }

    fn remove(&mut self, no: u32) -> Result<(), Fault>
        requires { (handed_out_of self.old).readers no ≡ 0 }
        ensures removed { OnOk result (ChangesAt no Vanishes (files_of self.old) (files_of self.new)) }
        ensures refused { OnErr result (files_of self.new ≡ files_of self.old) }
        ensures crash { LeavesExactly (ChangesAt no (MadeOrNot Vanishes)) (left_of self.old) (left_of self.new) }
        ensures gone { GivesUp no (handed_out_of self.old) (handed_out_of self.new) }
        ensures fault { FaultHasCause result (health_of self.old) (health_of self.new) }
        ensures call { IsCalled (is_err result) self.old self.new }
    {
        if self.calls.fails() {
            self.contents.condemn(no);
            return Err(Fault);
        }
        self.contents.remove(no);
        Ok(())
    }

    fn list(&mut self) -> Result<Vec<u32>, Trouble>
        ensures numbers { IfOk result (λ numbers. numbers.items ≡ keys (files_of self.old)) }
        ensures known { IfOk result (λ numbers. All (λ no. no < (handed_out_of self.old).next_number) numbers.items) }
        ensures files { files_of self.new ≡ files_of self.old }
        ensures crash { LeavesExactly Same (left_of self.old) (left_of self.new) }
        ensures handed_out { handed_out_of self.new ≡ handed_out_of self.old }
        ensures fault { HasCause result (health_of self.old) (health_of self.new) }
        ensures call { IsCalled (is_fault result) self.old self.new }
    {
        if self.calls.fails() {
            return Err(Trouble::Fault);
        }
        Ok(
            self.contents
                .files
                .keys()
                .copied()
                .collect(self.contents.alloc)?,
        )
    }
}
