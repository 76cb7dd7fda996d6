ghost use Rattle.std.specs.Prelude.{◌≡◌, ◌≢◌, ◌↔◌, ◌+◌, ◌^◌, ◌<◌, ◌≤◌, ◌++◌, [], ◌∷◌, ℕ, List, length, Option, Some, None, IsTrue, IsOk, IfOk, IsErrOf, OnOk, OnErr};
ghost use Rattle.shard_disk.specs.Crash.{Everywhere, Leaves};
ghost use Rattle.shard_disk.specs.Directory.{Anything, Appears, ChangesAt, Ends, MadeOrNot};
ghost use Rattle.shard_disk.specs.Health.{HasCause};
ghost use Rattle.shard_disk.specs.Stage.{Finished, Refused};
ghost use Rattle.gate_log.specs.Records.{framed, IsGated, IsReady, Spells, WithAtMost, spelled};

use crate::Frame;
use shard_disk::{Disk, Trouble, Writer, write_durably};

/// How the gate behind the last record stands.
#[derive(Clone, Copy, Debug, PartialEq, Eq)]
pub(crate) enum Gate {
    /// It isn't open.
    Shut,
    /// The file ends behind the last record.
    Missing,
    /// It was to be opened, and whether it is isn't known.
    InDoubt,
}

/// A log of records that stands in one file of a disk. It holds no bytes of it, only where its records end.
#[derive(Debug, Drop)]
pub struct Log {
    pub(crate) file: u32,
    /// Where the records end, which is the place of the gate behind them.
    pub(crate) end: u64,
    pub(crate) gate: Gate,
}

impl Log {
    ghost use Rattle.gate_log.specs.Calls.Append.{Adds, AddsNone, Appends, Opens};
    ghost use Rattle.gate_log.specs.Calls.Make.{Makes, MakesNone};
    ghost use Rattle.gate_log.specs.Calls.Settle.{KeepsFile, Remains, Settles, Settling};
    ghost use Rattle.gate_log.specs.Log.{HasGate, IsInDoubt, IsPlaced, IsShutLog, Reaches, Stands, doubtful, file_of};

    /// The number of its file.
    pub fn file(&self) -> u32
        ensures { result ≡ file_of self.now }
    {
        self.file
    }

    /// Whether a record may be there or not, as a crash would tell. `settle` ends that.
    pub fn in_doubt(&self) -> bool
        ensures { IsTrue result ↔ IsInDoubt self.now }
    {
        self.gate == Gate::InDoubt
    }

    /// A new log without a record, in a file of its own. After want of memory nothing came of the call; after a fault a crash may
    /// leave the file.
    pub fn make<D: Disk>(disk: &mut D) -> Result<Log, Trouble>
        ensures ok { IfOk result (λ log. Makes (IsTrue D.tells) log
            (D.files disk.old) (D.files disk.new) (D.crashes disk.new) (D.handed_out disk.old) (D.handed_out disk.new)) }
        ensures refused { OnErr result (MakesNone (IsErrOf result Trouble.Memory)
            (D.files disk.old) (D.files disk.new) (D.crashes disk.old) (D.crashes disk.new) (D.handed_out disk.old) (D.handed_out disk.new)) }

        // A crash at any moment of the call leaves the new file whole, or doesn't leave it.
        ensures crash { IsTrue D.tells → Leaves (ChangesAt (D.handed_out disk.old).next_number (MadeOrNot (Appears (0 ∷ []))))
            (D.crashes disk.old) (D.crashes disk.new) }

        ensures fault { HasCause result (D.health disk.old) (D.health disk.new) }
    {
        let mut writer = disk.begin()?;
        if let Err(trouble) = fill(&mut writer) {
            disk.drop_writer(writer);
            return Err(trouble);
        }
        match disk.adopt(writer) {
            Ok(file) => Ok(Log {
                file,
                end: 0,
                gate: Gate::Shut,
            }),
            Err((writer, trouble)) => {
                disk.drop_writer(writer);
                Err(trouble)
            }
        }
    }

    /// Closes the gate behind the last record, where it is in doubt or missing, and does nothing else. After it the
    /// record that was in doubt isn't there, whatever crash comes.
    pub fn settle<D: Disk>(&mut self, disk: &mut D) -> Result<(), Trouble>
        requires { IsTrue D.tells → IsPlaced (D.files disk.old) self.old }
        ensures { Settling D.Disk self.old self.new disk.old disk.new result }
    {
        self.close_gate(disk)
    }

    fn close_gate<D: Disk>(&mut self, disk: &mut D) -> Result<(), Trouble>
        requires { IsTrue D.tells → IsPlaced (D.files disk.old) self.old }
        ensures ok { OnOk result (Settles (IsTrue D.tells) self.old self.new
            (D.files disk.old) (D.files disk.new) (D.crashes disk.old) (D.crashes disk.new)) }
        ensures refused { OnErr result (Remains (IsTrue D.tells) self.old self.new
            (D.files disk.old) (D.files disk.new) (D.crashes disk.old) (D.crashes disk.new)) }
        ensures crash { IsTrue D.tells → HasGate self.old → (records : List (List ℕ)) (doubt : Option (List ℕ))
            → Stands (D.files disk.old) (D.crashes disk.old) self.old records doubt
            → Leaves (ChangesAt self.old.file (Ends (WithAtMost records (doubtful doubt)))) (D.crashes disk.old) (D.crashes disk.new) }
        ensures elsewhere { Leaves (ChangesAt self.old.file Anything) (D.crashes disk.old) (D.crashes disk.new) }
        ensures idle { IsShutLog self.old → (IsOk result) × (self.new ≡ self.old) × (disk.new ≡ disk.old) }
        ensures placed { IsTrue D.tells → IsPlaced (D.files disk.new) self.new }
        ensures kept { KeepsFile (IsTrue D.tells) self.old self.new (D.files disk.old) (D.files disk.new) }
        ensures handed_out { D.handed_out disk.new ≡ D.handed_out disk.old }
        ensures fault { HasCause result (D.health disk.old) (D.health disk.new) }
    {
        if self.gate == Gate::Shut {
            return Ok(());
        }
        write_durably(disk, self.file, self.end, &[0])?;
        self.gate = Gate::Shut;
        Ok(())
    }

    /// Adds a record, durably. What was in doubt before is settled first. After a fault the record is there or not, as
    /// `in_doubt` tells: where it answers false the record isn't there. It takes no memory.
    pub fn append<D: Disk>(&mut self, disk: &mut D, frame: &Frame) -> Result<(), Trouble>
        requires { IsTrue D.tells → IsPlaced (D.files disk.old) self.old }
        ensures { Appends D.Disk frame.now self.old self.new disk.old disk.new result }
    {
        self.add(disk, frame)
    }

    fn add<D: Disk>(&mut self, disk: &mut D, frame: &Frame) -> Result<(), Trouble>
        requires { IsTrue D.tells → IsPlaced (D.files disk.old) self.old }
        ensures ok { OnOk result (Adds (IsTrue D.tells) frame.now self.old self.new
            (D.files disk.old) (D.files disk.new) (D.crashes disk.old) (D.crashes disk.new)) }
        ensures refused { OnErr result (AddsNone (IsTrue D.tells) (IsErrOf result Trouble.Fault) frame.now self.old self.new
            (D.files disk.old) (D.files disk.new) (D.crashes disk.old) (D.crashes disk.new)) }
        ensures crash { IsTrue D.tells → HasGate self.old → (records : List (List ℕ)) (doubt : Option (List ℕ))
            → Stands (D.files disk.old) (D.crashes disk.old) self.old records doubt
            → Leaves (ChangesAt self.old.file (Ends (WithAtMost records (frame.now ∷ doubtful doubt)))) (D.crashes disk.old) (D.crashes disk.new) }
        ensures elsewhere { Leaves (ChangesAt self.old.file Anything) (D.crashes disk.old) (D.crashes disk.new) }
        ensures placed { IsTrue D.tells → IsPlaced (D.files disk.new) self.new }
        ensures kept { KeepsFile (IsTrue D.tells) self.old self.new (D.files disk.old) (D.files disk.new) }
        ensures handed_out { D.handed_out disk.new ≡ D.handed_out disk.old }
        ensures fault { HasCause result (D.health disk.old) (D.health disk.new) }
    {
        let frame = frame.bytes();
        let size = frame.len() as u64;
        // No file is that long.
        if size > u64::MAX - self.end {
            return Err(Trouble::Memory);
        }
        self.settle(disk)?;
        // A crash up to here leaves the gate closed, and so the records alone.
        self.stage(disk, frame)?;
        // From here on the record is whole behind its gate, so a crash leaves it there or not.
        self.open_gate(disk, size)
    }

    /// Writes a record and a closed gate behind the gate, which stays closed.
    fn stage<D: Disk>(&self, disk: &mut D, frame: &[u8]) -> Result<(), Trouble>
        requires shut { self.now.gate ≡ Gate.Shut }
        requires room { self.now.end + 1 < 2 ^ 64 }
        requires placed { IsTrue D.tells → IsPlaced (D.files disk.old) self.now }

        ensures staged { OnOk result (IsTrue D.tells → (records : List (List ℕ)) (body : List ℕ) → frame.now ≡ framed body ++ 0 ∷ []
            → Stands (D.files disk.old) (D.crashes disk.old) self.now records None
            → Everywhere (D.files disk.new) (D.crashes disk.new) self.now.file (Spells records (IsReady body))) }
        ensures stands { IsTrue D.tells → (records : List (List ℕ))
            → Stands (D.files disk.old) (D.crashes disk.old) self.now records None
            → Stands (D.files disk.new) (D.crashes disk.new) self.now records None }
        ensures crash { (records : List (List ℕ))
            → Stands (D.files disk.old) (D.crashes disk.old) self.now records None
            → Leaves (ChangesAt self.now.file (Ends (IsGated records))) (D.crashes disk.old) (D.crashes disk.new) }
        ensures elsewhere { Leaves (ChangesAt self.now.file Anything) (D.crashes disk.old) (D.crashes disk.new) }

        ensures reaches { OnOk result (IsTrue D.tells → Reaches (D.files disk.new) self.now (1 + length frame.now)) }
        ensures placed { IsTrue D.tells → IsPlaced (D.files disk.new) self.now }
        ensures kept { KeepsFile (IsTrue D.tells) self.now self.now (D.files disk.old) (D.files disk.new) }
        ensures handed_out { D.handed_out disk.new ≡ D.handed_out disk.old }
        ensures fault { HasCause result (D.health disk.old) (D.health disk.new) }
    {
        write_durably(disk, self.file, self.end + 1, frame)
    }

    /// Opens the gate of the record behind it, which takes this many bytes with its gate.
    fn open_gate<D: Disk>(&mut self, disk: &mut D, size: u64) -> Result<(), Trouble>
        requires shut { self.old.gate ≡ Gate.Shut }
        requires room { self.old.end + size < 2 ^ 64 }
        requires placed { IsTrue D.tells → Reaches (D.files disk.old) self.old (1 + size) }

        ensures ok { OnOk result (Opens (IsTrue D.tells) size self.old self.new
            (D.files disk.old) (D.files disk.new) (D.crashes disk.old) (D.crashes disk.new)) }
        ensures in_doubt { IsErrOf result Trouble.Fault → IsTrue D.tells → (records : List (List ℕ)) (body : List ℕ)
            → self.old.end ≡ length (spelled records)
            → Everywhere (D.files disk.old) (D.crashes disk.old) self.old.file (Spells records (IsReady body))
            → Stands (D.files disk.new) (D.crashes disk.new) self.new records (Some body) }
        ensures memory { IsErrOf result Trouble.Memory → Remains (IsTrue D.tells) self.old self.new
            (D.files disk.old) (D.files disk.new) (D.crashes disk.old) (D.crashes disk.new) }
        ensures crash { (records : List (List ℕ)) (body : List ℕ) → self.old.end ≡ length (spelled records)
            → Everywhere (D.files disk.old) (D.crashes disk.old) self.old.file (Spells records (IsReady body))
            → Leaves (ChangesAt self.old.file (Ends (WithAtMost records (body ∷ [])))) (D.crashes disk.old) (D.crashes disk.new) }
        ensures elsewhere { Leaves (ChangesAt self.old.file Anything) (D.crashes disk.old) (D.crashes disk.new) }

        ensures placed { IsTrue D.tells → IsPlaced (D.files disk.new) self.new }
        ensures kept { KeepsFile (IsTrue D.tells) self.old self.new (D.files disk.old) (D.files disk.new) }
        ensures handed_out { D.handed_out disk.new ≡ D.handed_out disk.old }
        ensures fault { HasCause result (D.health disk.old) (D.health disk.new) }
    {
        self.gate = Gate::InDoubt;
        match write_durably(disk, self.file, self.end, &[1]) {
            Ok(()) => {
                self.end += size;
                self.gate = Gate::Shut;
                Ok(())
            }
            Err(Trouble::Memory) => {
                self.gate = Gate::Shut;
                Err(Trouble::Memory)
            }
            Err(Trouble::Fault) => Err(Trouble::Fault),
        }
    }
}

/// Gives a new file its one byte, the closed gate.
fn fill<W: Writer>(writer: &mut W) -> Result<(), Trouble>
    requires { W.stage writer.old ≢ Refused }
    ensures content { OnOk result (IsTrue W.tells → W.content writer.new ≡ W.content writer.old ++ 0 ∷ []) }
    ensures finished { OnOk result (W.stage writer.new ≡ Finished) }
    ensures fault { HasCause result (W.health writer.old) (W.health writer.new) }
{
    writer.append(&[0])?;
    writer.finish()?;
    Ok(())
}
