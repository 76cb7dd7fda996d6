ghost use Rattle.std.specs.Prelude.{◌≡◌, ◌∷◌, [], Err, IsTrue, IfOk, IfSome, IfNone, IsErrOf, OnErr};
ghost use Rattle.std.specs.FinMap.{keys};
ghost use Rattle.shard_disk.specs.Crash.{Leaves, Same};
ghost use Rattle.shard_disk.specs.Directory.{Appears, ChangesAt, HasFile, IsPresent, MadeOrNot};
ghost use Rattle.shard_disk.specs.declared.damage.Damage.{Damage};
ghost use Rattle.gate_log.specs.Calls.Make.{MakesNone};
ghost use Rattle.gate_log.specs.Damage.{IsLog};
ghost use Rattle.gate_log.specs.Faults.{LogHasCause};
ghost use Rattle.manifest_log.specs.Calls.{Finds, GoesOn, IsNew};
ghost use Rattle.manifest_log.specs.Reading.{IsWrong};

use crate::read::{damage, directory_of};
use crate::{Directory, Manifest};
use gate_log::{Log, LogFault};
use shard_disk::{Disk, Why};
use std::alloc::Global;

/// Reads the manifest's file.
pub fn read_file<D: Disk>(
    alloc: Global,
    disk: &mut D,
) -> Result<Option<(Manifest, Directory)>, LogFault>
    requires { IsTrue D.tells → IsPresent (D.files disk.old) 0 }
    ensures found { IfOk result (λ read. IfSome read (λ found. Finds (IsTrue D.tells) found.0 found.1
        (D.files disk.old) (D.crashes disk.old) (D.crashes disk.new))) }
    ensures none { IfOk result (λ read. IfNone read (IsTrue D.tells → HasFile (D.files disk.old) 0 (IsLog []))) }
    ensures damaged { (damage : Damage) → result ≡ Err (LogFault.Damaged damage) → IsTrue D.tells → HasFile (D.files disk.old) 0 (IsWrong damage) }
    ensures fault { LogHasCause result (D.health disk.old) (D.health disk.new) }
    ensures files { D.files disk.new ≡ D.files disk.old }
    ensures crash { Leaves Same (D.crashes disk.old) (D.crashes disk.new) }
    ensures handed_out { D.handed_out disk.new ≡ D.handed_out disk.old }
{
    let (log, records) = Log::read(alloc, disk, 0)?;
    if records.is_empty() {
        return Ok(None);
    }
    let directory = directory_of(alloc, &records)?;
    if directory.segments.as_slice().is_empty() {
        return Err(damage(0, Why::Body));
    }
    Ok(Some((Manifest { log }, directory)))
}

/// The manifest of a file that has no record. The disk was read so before: another answer is damage.
pub fn go_on<D: Disk>(alloc: Global, disk: &mut D) -> Result<Manifest, LogFault>
    requires { IsTrue D.tells → HasFile (D.files disk.old) 0 (IsLog []) }
    ensures ok { IfOk result (λ begun. GoesOn (IsTrue D.tells) begun (D.files disk.old) (D.files disk.new) (D.crashes disk.old) (D.crashes disk.new) (D.handed_out disk.old) (D.handed_out disk.new)) }
    ensures undamaged { (damage : Damage) → result ≡ Err (LogFault.Damaged damage) → IsTrue D.tells → ⊥ }
    ensures fault { LogHasCause result (D.health disk.old) (D.health disk.new) }
    ensures files { D.files disk.new ≡ D.files disk.old }
    ensures crash { Leaves Same (D.crashes disk.old) (D.crashes disk.new) }
    ensures handed_out { D.handed_out disk.new ≡ D.handed_out disk.old }
{
    let (log, records) = Log::read(alloc, disk, 0)?;
    if !records.is_empty() {
        return Err(damage(0, Why::Body));
    }
    Ok(Manifest { log })
}

/// Makes the manifest's file, where there is none. Where its number was passed over nothing is made.
pub fn make<D: Disk>(disk: &mut D) -> Result<Manifest, LogFault>
    requires none { IsTrue D.tells → keys (D.files disk.old) ≡ [] }
    ensures ok { IfOk result (λ begun. IsNew (IsTrue D.tells) begun (D.files disk.old) (D.files disk.new) (D.crashes disk.new) (D.handed_out disk.old) (D.handed_out disk.new)) }
    ensures refused { OnErr result (MakesNone (IsErrOf result LogFault.Memory)
        (D.files disk.old) (D.files disk.new) (D.crashes disk.old) (D.crashes disk.new) (D.handed_out disk.old) (D.handed_out disk.new)) }
    ensures undamaged { (damage : Damage) → result ≡ Err (LogFault.Damaged damage) → ⊥ }
    ensures fault { LogHasCause result (D.health disk.old) (D.health disk.new) }
    ensures crash { IsTrue D.tells → Leaves (ChangesAt 0 (MadeOrNot (Appears (0 ∷ [])))) (D.crashes disk.old) (D.crashes disk.new) }
{
    if disk.next_number() != 0 {
        return Err(LogFault::Memory);
    }
    let log = Log::make(disk)?;
    Ok(Manifest { log })
}
