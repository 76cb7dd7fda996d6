ghost use Rattle.std.specs.Prelude.{◌≡◌, ◌<◌, ◌≤◌, [], ℕ, All, IfOk, IfErr, IsErr, IsTrue, OnErr, OnOk, false};
ghost use Rattle.std.specs.FinMap as map;
ghost use Rattle.shard_disk.specs.Calls.Adopt.{Adopts, AdoptsNone, NeverBegan};
ghost use Rattle.shard_disk.specs.Crash.{Follows, IsDurable, Same};
ghost use Rattle.shard_disk.specs.Directory.{ChangesAt, MadeOrNot, Vanishes};
ghost use Rattle.shard_disk.specs.HandedOut.{GivesUp};
ghost use Rattle.shard_disk.specs.Health.{FaultHasCause, RefusalHasCause};
ghost use Rattle.host_disk.specs.Doubt.{SpendsNumber};
ghost use Rattle.host_disk.specs.Numbers.{IsBelow, IsNumbered};
ghost use Rattle.host_disk.specs.Untold.{handed_out_of, health_of, never, untold, untold_now, untold_since};

use crate::logs::Logs;
use crate::writer::Progress;
use crate::{Folder, FolderFile, HostFolder, HostReader, HostWriter, Name};
use shard_disk::{Disk, Fault, Trouble};
use std::alloc::{AllocError, Global};
use std::collections::BTreeMap;
use std::io::{self, ErrorKind};
use std::os::unix::fs::FileExt;

/// The files of a folder. It tells nothing of them, and counts each failure of the system as a fault. Calls that answer
/// `Fault` alone take no memory.
#[derive(Drop)]
pub struct HostDisk<F: Folder = HostFolder> {
    alloc: Global,
    folder: F,
    /// The number that the next file has, above all that were there at the opening.
    next: u32,
    /// The number in the name of the next writer's file.
    next_writer: u32,
    /// How many readers of each file are out.
    readers: BTreeMap<u32, u64>,
    logs: Logs<F::File>,
    faults: u64,
    /// A sync, an adoption or a removal failed, so what the system shows may not be what the device has, though a later
    /// sync succeeds. From then on no call promises durability, and no file is removed.
    is_doubtful: bool,
}

impl HostDisk<HostFolder> {
    /// The disk of the folder of this path, which is made where it isn't there. It is locked while the disk lives. Files
    /// that weren't adopted are removed. `Fault` comes where the system refuses a step, and where another disk has
    /// the folder.
    pub fn open(rt: HostRuntime, path: &str) -> Result<HostDisk, Trouble>
        ensures no_reader { IfOk result (λ disk. (n : ℕ) → (⟦<HostDisk<HostFolder> as Disk>⟧.handed_out disk).readers n ≡ 0) }
        ensures no_fault { IfOk result (λ disk. (⟦<HostDisk<HostFolder> as Disk>⟧.health disk).faults ≡ 0) }
    {
        let folder = HostFolder::new(rt, path).map_err(trouble_of)?;
        HostDisk::over(rt.alloc(), folder)
    }
}

impl<F: Folder + Send + Drop> HostDisk<F>
where
    F::File: Send,
{
    /// The disk of a folder. Files that weren't adopted are removed.
    pub fn over(alloc: Global, mut folder: F) -> Result<HostDisk<F>, Trouble>
        ensures no_reader { IfOk result (λ disk. (n : ℕ) → (⟦<HostDisk<F> as Disk>⟧.handed_out disk).readers n ≡ 0) }
        ensures no_fault { IfOk result (λ disk. (⟦<HostDisk<F> as Disk>⟧.health disk).faults ≡ 0) }
    {
        let names = folder.list().map_err(trouble_of)?;
        remove_unfinished(&mut folder, &names).map_err(trouble_of)?;
        Ok(HostDisk {
            alloc,
            folder,
            next: next_after(&names),
            next_writer: 0,
            readers: BTreeMap::new(alloc),
            logs: Logs::new(alloc),
            faults: 0,
            is_doubtful: false,
        })
    }
}

/// What an error of the system is for a caller.
fn trouble_of(error: io::Error) -> Trouble {
    match error.kind() {
        ErrorKind::OutOfMemory => Trouble::Memory,
        _ => Trouble::Fault,
    }
}

/// Removes what an earlier opening didn't adopt, and settles what a crash left half done in the folder.
fn remove_unfinished<F: Folder>(folder: &mut F, names: &[Name]) -> io::Result<()> {
    for name in names {
        if matches!(name, Name::Unfinished(_)) {
            folder.remove(*name)?;
        }
    }
    folder.sync()
}

/// The least number above those of all these files.
fn next_after(names: &[Name]) -> u32
    requires { All IsNumbered names.now }
    ensures { All (IsBelow result) names.now }
{
    let mut next = 0;
    for name in names {
        next = raised(next, *name);
    }
    next
}

/// The number itself, or that above the file of this name.
fn raised(next: u32, name: Name) -> u32
    requires { IsNumbered name }
    ensures above { IsBelow result name }
    ensures no_lower { next ≤ result }
{
    match name {
        Name::File(no) => next.max(no + 1),
        Name::Unfinished(_) => next,
    }
}

#[tactic(auto, unfolding(crate::specs::Untold::untold))]
impl<F: Folder + Send> Disk for HostDisk<F>
where
    F::File: Send,
{
    type Reader = HostReader<F::File>;

    type Writer = HostWriter<F::File>;

    ghost tells = { false };

    ghost files = { λ _. map.empty };

    ghost crashes = { λ _. untold };

    ghost handed_out = { λ d. handed_out_of d.next d.readers };

    ghost health = { λ d. health_of d.faults };

    ghost reader_tells = { λ told. told };

    ghost writer_tells = { λ told. told };

    ghost as_read = { λ d told. absurd (never told) };

    ghost keeps_adopted = { λ d told. absurd (never told) };

    ghost numbered = { λ d n told there. absurd (never told) };

    ghost counts_now = { λ d t c le now. untold_now c t now };

    ghost only_now = { λ d c since. untold_since c since };

    fn begin(&mut self) -> Result<HostWriter<F::File>, Trouble> {
        let no = u64::from(self.next_writer);
        self.next_writer = self.next_writer.wrapping_add(1);
        let Ok(file) = self.folder.create_new(Name::Unfinished(no)) else {
            self.faults = self.faults.saturating_add(1);
            return Err(Trouble::Fault);
        };
        Ok(HostWriter {
            file,
            no,
            len: 0,
            progress: Progress::Open,
            faults: 0,
        })
    }

    fn adopt(&mut self, writer: HostWriter<F::File>) -> Result<u32, (HostWriter<F::File>, Trouble)>
        // A disk in doubt refuses; a refusal leaves it in doubt, and past the number that it tried.
        ensures doubt { IsTrue self.old.is_doubtful → IsErr result }
        ensures spent { IsErr result → SpendsNumber self.old.is_doubtful self.new.is_doubtful self.old.next self.new.next }

        ensures ok { IfOk result (λ no. Adopts (IsTrue false) no [] map.empty map.empty untold untold
            (handed_out_of self.old.next self.old.readers) (handed_out_of self.new.next self.new.readers)) }
        ensures refused { OnErr result (AdoptsNone [] map.empty map.empty untold untold
            (handed_out_of self.old.next self.old.readers) (handed_out_of self.new.next self.new.readers)) }
        ensures returned { IfErr result (λ refused. refused.0 ≡ writer) }
        ensures memory { IfErr result (λ refused. refused.1 ≡ Trouble.Memory → NeverBegan untold untold
            (handed_out_of self.old.next self.old.readers) (handed_out_of self.new.next self.new.readers)) }
        ensures fault { RefusalHasCause result (health_of self.old.faults) (health_of self.new.faults) }
    {
        let no = self.next;
        if no == u32::MAX || self.is_doubtful {
            self.faults = self.faults.saturating_add(1);
            return Err((writer, Trouble::Fault));
        }
        // Where a step fails the file may be there all the same, so its number is passed over.
        self.next = no + 1;
        if adopt_as(&mut self.folder, writer.no, no).is_err() {
            self.is_doubtful = true;
            self.faults = self.faults.saturating_add(1);
            return Err((writer, Trouble::Fault));
        }
        Ok(no)
    }

    fn drop_writer(&mut self, writer: HostWriter<F::File>) {
        // One that stays is removed at the next opening.
        let _ = self.folder.remove(Name::Unfinished(writer.no));
        self.faults = self.faults.saturating_add(writer.faults);
    }

    fn open(&mut self, no: u32) -> Result<HostReader<F::File>, Trouble> {
        let out = self.readers.get(&no).copied().unwrap_or(0);
        let more = out.checked_add(1).ok_or(Trouble::Memory)?;
        if no >= self.next {
            self.faults = self.faults.saturating_add(1);
            return Err(Trouble::Fault);
        }
        let Ok((file, len)) = open_sized(&mut self.folder, no) else {
            self.faults = self.faults.saturating_add(1);
            return Err(Trouble::Fault);
        };
        self.readers.insert(no, more)?;
        Ok(HostReader {
            file,
            no,
            len,
            faults: 0,
        })
    }

    fn close(&mut self, reader: HostReader<F::File>) {
        self.faults = self.faults.saturating_add(reader.faults);
        if let Some(out) = self.readers.get_mut(&reader.no) {
            *out -= 1;
        }
    }

    fn write_at(&mut self, no: u32, at: u64, bytes: &[u8]) -> Result<(), Trouble> {
        match self.logs.write(&mut self.folder, no, at, bytes) {
            Err(Trouble::Fault) => {
                self.faults = self.faults.saturating_add(1);
                Err(Trouble::Fault)
            }
            other => other,
        }
    }

    fn sync(&mut self, no: u32) -> Result<(), Fault>
        // A disk in doubt refuses, and each refusal leaves it in doubt.
        ensures doubt { IsTrue self.old.is_doubtful → IsErr result }
        ensures doubtful { IsErr result → IsTrue self.new.is_doubtful }

        ensures durable { OnOk result (IsDurable map.empty untold no) }
        ensures crash { Follows Same untold untold }
        ensures handed_out { handed_out_of self.new.next self.new.readers ≡ handed_out_of self.old.next self.old.readers }
        ensures fault { FaultHasCause result (health_of self.old.faults) (health_of self.new.faults) }
    {
        if self.is_doubtful || self.logs.sync(&mut self.folder, no).is_err() {
            self.is_doubtful = true;
            self.faults = self.faults.saturating_add(1);
            return Err(Fault);
        }
        Ok(())
    }

    fn read_at(&mut self, no: u32, at: u64, out: &mut [u8]) -> Result<(), Fault> {
        let Ok(file) = self.folder.open(Name::File(no)) else {
            self.faults = self.faults.saturating_add(1);
            return Err(Fault);
        };
        if file.read_exact_at(out, at).is_err() {
            self.faults = self.faults.saturating_add(1);
            return Err(Fault);
        }
        Ok(())
    }

    fn len(&mut self, no: u32) -> Result<u64, Fault> {
        if no >= self.next {
            self.faults = self.faults.saturating_add(1);
            return Err(Fault);
        }
        let Ok((_, len)) = open_sized(&mut self.folder, no) else {
            self.faults = self.faults.saturating_add(1);
            return Err(Fault);
        };
        Ok(len)
    }

    fn next_number(&self) -> u32 {
        self.next
    }

    fn remove(&mut self, no: u32) -> Result<(), Fault>
        // A disk in doubt refuses, and each refusal leaves it in doubt.
        ensures doubt { IsTrue self.old.is_doubtful → IsErr result }
        ensures doubtful { IsErr result → IsTrue self.new.is_doubtful }

        ensures crash { Follows (ChangesAt no (MadeOrNot Vanishes)) untold untold }
        ensures gone { GivesUp no (handed_out_of self.old.next self.old.readers) (handed_out_of self.new.next self.new.readers) }
        ensures fault { FaultHasCause result (health_of self.old.faults) (health_of self.new.faults) }
    {
        self.logs.forget(no);
        if self.is_doubtful || remove_durably(&mut self.folder, no).is_err() {
            self.is_doubtful = true;
            self.faults = self.faults.saturating_add(1);
            return Err(Fault);
        }
        Ok(())
    }

    fn list(&mut self) -> Result<Vec<u32>, Trouble> {
        let names = match self.folder.list().map_err(trouble_of) {
            Ok(names) => names,
            Err(Trouble::Memory) => return Err(Trouble::Memory),
            Err(Trouble::Fault) => {
                self.faults = self.faults.saturating_add(1);
                return Err(Trouble::Fault);
            }
        };
        let numbers = numbers_of(self.alloc, &names)?;
        // A number that wasn't given out is another's file.
        if !are_below(&numbers, self.next) {
            self.faults = self.faults.saturating_add(1);
            return Err(Trouble::Fault);
        }
        Ok(numbers)
    }
}

/// Gives a file its number. Its bytes are durable, so a crash leaves it whole or absent; after the folder is synced it is
/// there for good.
fn adopt_as<F: Folder>(folder: &mut F, from: u64, no: u32) -> io::Result<()> {
    folder.rename(Name::Unfinished(from), Name::File(no))?;
    folder.sync()
}

/// Removes a file. One that isn't there is removed.
fn remove_durably<F: Folder>(folder: &mut F, no: u32) -> io::Result<()> {
    match folder.remove(Name::File(no)) {
        Ok(()) => folder.sync(),
        Err(error) if error.kind() == ErrorKind::NotFound => folder.sync(),
        Err(error) => Err(error),
    }
}

/// A file to be read, with its length.
fn open_sized<F: Folder>(folder: &mut F, no: u32) -> io::Result<(F::File, u64)> {
    let file = folder.open(Name::File(no))?;
    let len = file.size()?;
    Ok((file, len))
}

/// The numbers of the files of these names, ascending.
fn numbers_of(alloc: Global, names: &[Name]) -> Result<Vec<u32>, AllocError> {
    let mut numbers = Vec::new(alloc);
    for name in names {
        if let Name::File(no) = name {
            numbers.push(*no)?;
        }
    }
    numbers.sort_unstable();
    Ok(numbers)
}

fn are_below(numbers: &[u32], next: u32) -> bool
    ensures { IsTrue result → All (λ no. no < next) numbers.now }
{
    numbers.iter().all(|no| *no < next)
}
