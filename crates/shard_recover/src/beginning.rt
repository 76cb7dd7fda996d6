// The manifest of a directory, and the series file that it names.
ghost use Rattle.std.specs.Prelude.{◌≡◌, [], Err, Some, IsTrue, IfOk, IfSome, IfNone};
ghost use Rattle.shard_disk.specs.Crash.{Leaves, Same};
ghost use Rattle.shard_disk.specs.Directory.{HasFile};
ghost use Rattle.shard_disk.specs.declared.damage.Damage.{Damage};
ghost use Rattle.gate_log.specs.Faults.{LogHasCause};
ghost use Rattle.manifest_log.specs.Reading.{IsFresh};
ghost use Rattle.shard_recover.specs.Damage.{HasNoForm, IsFirstDamage, IsMissing};
ghost use Rattle.shard_recover.specs.Opening.{IsBegun};

use crate::parts::Begun;
use crate::present::{is_there, list, missing};
use gate_log::LogFault;
use manifest_log::{Directory, Manifest};
use series_store::Series;
use shard_disk::{Damage, Disk, Why};
use std::alloc::Global;
use tsdb_types::Seed;

/// The manifest of a directory and its series file; `None` where nothing is named yet. The files are made durable before it answers.
///
/// # Errors
///
/// `Damaged` names the first damage, where it is the manifest's or the series file's.
pub fn begin<D: Disk>(alloc: Global, seed: Seed, disk: &mut D) -> Result<Option<Begun>, LogFault>
    ensures found { IfOk result (λ found. IfSome found (λ begun. IsBegun (IsTrue D.tells) begun (D.files disk.old) (D.crashes disk.old) (D.crashes disk.new))) }
    ensures none { IfOk result (λ found. IfNone found (IsTrue D.tells → IsFresh (D.files disk.old))) }
    ensures damaged { (damage : Damage) → result ≡ Err (LogFault.Damaged damage) → IsTrue D.tells → IsFirstDamage damage (D.files disk.old) }
    ensures fault { LogHasCause result (D.health disk.old) (D.health disk.new) }
    ensures files { D.files disk.new ≡ D.files disk.old }
    ensures crash { Leaves Same (D.crashes disk.old) (D.crashes disk.new) }
    ensures handed_out { D.handed_out disk.new ≡ D.handed_out disk.old }
{
    let Some((manifest, named)) = Manifest::read(alloc, disk)? else {
        return Ok(None);
    };
    let file = series_of(&named)?;
    let numbers = list(disk)?;
    if !is_there(&numbers, file) {
        return Err(missing(file));
    }
    let series = Series::read(alloc, seed, disk, file)?;
    Ok(Some(Begun {
        manifest,
        named,
        series,
        numbers,
    }))
}

/// The series file that a manifest names. One that names none, or a TSM file, is damaged: no engine of this form makes one.
fn series_of(named: &Directory) -> Result<u32, LogFault>
    ensures is { IfOk result (λ file. (named.now.series ≡ Some file) × (named.now.files ≡ [])) }
    ensures no_form { (fault : LogFault) → result ≡ Err fault → (damage : Damage) × (fault ≡ LogFault.Damaged damage) × HasNoForm damage named.now }
{
    if !named.files.as_slice().is_empty() {
        return Err(unformed());
    }
    match named.series {
        Some(file) => Ok(file),
        None => Err(unformed()),
    }
}

/// The manifest names what no engine of this form does.
fn unformed() -> LogFault
    ensures { result ≡ LogFault.Damaged (record { file = 0; offset = 0; why = Why.Body }) }
{
    LogFault::Damaged(Damage {
        file: 0,
        offset: 0,
        why: Why::Body,
    })
}
