ghost use Rattle.std.specs.Prelude.{◌≡◌, ◌∷◌, [], ◌↔◌, Err, IsTrue, IfOk, IfSome, IfNone, IsErrOf, OnErr};
ghost use Rattle.shard_disk.specs.Crash.{Leaves, Same};
ghost use Rattle.shard_disk.specs.Directory.{Appears, ChangesAt, MadeOrNot};
ghost use Rattle.shard_disk.specs.declared.damage.Damage.{Damage};

use crate::look::{Found, look};
use crate::opening::{go_on, make, read_file};
use crate::put::edit_of;
use crate::read::damage;
use crate::{Directory, Edit};
use gate_log::{Frame, Log, LogFault};
use shard_disk::{Disk, Trouble, Why};
use std::alloc::{AllocError, Global};

/// The log of edits of a directory, which is file 0.
#[derive(Debug, Drop)]
pub struct Manifest {
    pub(crate) log: Log,
}

impl Manifest {
    ghost use Rattle.gate_log.specs.Calls.Append.{Appends};
    ghost use Rattle.gate_log.specs.Calls.Make.{MakesNone};
    ghost use Rattle.gate_log.specs.Calls.Settle.{Settling};
    ghost use Rattle.gate_log.specs.Faults.{LogHasCause};
    ghost use Rattle.gate_log.specs.Log.{IsInDoubt, IsPlaced};
    ghost use Rattle.manifest_log.specs.Calls.{Begins, Finds, MayFollow};
    ghost use Rattle.manifest_log.specs.Format.{IsWritable, edit_bytes};
    ghost use Rattle.manifest_log.specs.Reading.{IsFresh, Reads, manifest};

    /// The manifest of a disk and the directory that its edits leave; `None` exactly where there is no file, or no edit.
    pub fn read<D: Disk>(
        alloc: Global,
        disk: &mut D,
    ) -> Result<Option<(Manifest, Directory)>, LogFault>
        ensures found { IfOk result (λ read. IfSome read (λ found. Finds (IsTrue D.tells) found.0 found.1
            (D.files disk.old) (D.crashes disk.old) (D.crashes disk.new))) }
        ensures none { IfOk result (λ read. IfNone read (IsTrue D.tells → IsFresh (D.files disk.old))) }
        ensures damaged { (damage : Damage) → result ≡ Err (LogFault.Damaged damage) → IsTrue D.tells → Reads (D.files disk.old) (Err damage) }
        ensures fault { LogHasCause result (D.health disk.old) (D.health disk.new) }

        ensures files { D.files disk.new ≡ D.files disk.old }
        ensures crash { Leaves Same (D.crashes disk.old) (D.crashes disk.new) }
        ensures handed_out { D.handed_out disk.new ≡ D.handed_out disk.old }
    {
        match look(disk)? {
            Found::Nothing => Ok(None),
            Found::Others => Err(damage(0, Why::NoManifest)),
            Found::Manifest => read_file(alloc, disk),
        }
    }

    /// A manifest without an edit, where `read` answers `None`: file 0 as it is, or made where there is none. A fault in making file 0
    /// may pass its number over: then only another opening of the disk can make it, and each further call of this one does nothing and
    /// answers want of memory.
    pub fn begin<D: Disk>(alloc: Global, disk: &mut D) -> Result<Manifest, LogFault>
        requires { IsTrue D.tells → IsFresh (D.files disk.old) }
        ensures ok { IfOk result (λ begun. Begins (IsTrue D.tells) begun (D.files disk.old) (D.files disk.new)
            (D.crashes disk.old) (D.crashes disk.new) (D.handed_out disk.old) (D.handed_out disk.new)) }
        ensures refused { OnErr result (MakesNone (IsErrOf result LogFault.Memory) (D.files disk.old) (D.files disk.new)
            (D.crashes disk.old) (D.crashes disk.new) (D.handed_out disk.old) (D.handed_out disk.new)) }
        ensures damaged { (damage : Damage) → result ≡ Err (LogFault.Damaged damage) → IsTrue D.tells → ⊥ }
        ensures fault { LogHasCause result (D.health disk.old) (D.health disk.new) }

        // A crash at any moment of the call leaves file 0 as it was or new and whole, and nothing else changed.
        ensures crash { IsTrue D.tells → Leaves (ChangesAt manifest (MadeOrNot (Appears (0 ∷ [])))) (D.crashes disk.old) (D.crashes disk.new) }
    {
        match look(disk)? {
            Found::Manifest => go_on(alloc, disk),
            Found::Nothing => make(disk),
            Found::Others => Err(damage(0, Why::NoManifest)),
        }
    }

    /// The record of an edit, for `edit`. This is what takes memory of making it.
    pub fn frame(alloc: Global, edit: &Edit) -> Result<Frame, AllocError>
        requires { IsWritable edit.now.changes }
        ensures { IfOk result (λ frame. frame ≡ edit_bytes edit.now.changes) }
    {
        let body = edit_of(alloc, edit.changes.as_slice())?;
        Frame::new(alloc, &body)
    }

    /// Makes the changes of an edit, durably and together. After a fault it is made or not, as `in_doubt` tells: where it
    /// answers false the edit isn't made. It takes no memory.
    pub fn edit<D: Disk>(&mut self, disk: &mut D, frame: &Frame) -> Result<(), Trouble>
        requires may { MayFollow (IsTrue D.tells) frame.now self.old (D.files disk.old) }
        requires placed { IsTrue D.tells → IsPlaced (D.files disk.old) self.old.log }
        ensures { Appends D.Disk frame.now self.old.log self.new.log disk.old disk.new result }
    {
        self.log.append(disk, frame)
    }

    /// Ends the doubt about an edit, so that it isn't made whatever crash comes, and closes a missing gate. Else it does
    /// nothing.
    pub fn settle<D: Disk>(&mut self, disk: &mut D) -> Result<(), Trouble>
        requires { IsTrue D.tells → IsPlaced (D.files disk.old) self.old.log }
        ensures { Settling D.Disk self.old.log self.new.log disk.old disk.new result }
    {
        self.log.settle(disk)
    }

    /// Whether an edit may be made or not, as a crash would tell. `settle`, and the next edit, end that.
    pub fn in_doubt(&self) -> bool
        ensures { IsTrue result ↔ IsInDoubt self.now.log }
    {
        self.log.in_doubt()
    }
}
