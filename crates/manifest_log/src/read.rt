// The records of a manifest, one after another.
ghost use Rattle.std.specs.Prelude.{◌≡◌, ◌≢◌, ◌++◌, ◌∷◌, [], List, ℕ, length, Err, IfOk, IfErr, IfSome, IfNone, IsTrue, IsErrOf, false};
ghost use Rattle.gate_log.specs.Damage.{bodies};
ghost use Rattle.gate_log.specs.Records.{spelled};
ghost use Rattle.shard_disk.specs.declared.damage.Damage.{Damage};
ghost use Rattle.manifest_log.specs.declared.change.Change.{Change};
ghost use Rattle.manifest_log.specs.Reading.{Lead, bodies_of, MayNotFollow, StandsBehind, Takes};

use crate::Directory;
use crate::apply::make_all;
use crate::sound::is_sound;
use crate::take::take_edit;
use gate_log::LogFault;
use shard_disk::{Damage, Why};
use std::alloc::{AllocError, Global};

/// Something is wrong at a place of the manifest.
pub fn damage(offset: u64, why: Why) -> LogFault
    ensures { result ≡ LogFault.Damaged (record { file = 0; offset = offset; why = why }) }
{
    LogFault::Damaged(Damage {
        file: 0,
        offset,
        why,
    })
}

/// The directory that the records leave of an empty one.
pub fn directory_of(alloc: Global, records: &[Vec<u8>]) -> Result<Directory, LogFault>
    ensures found { IfOk result (λ directory. (edits : List (List Change)) × (bodies records.now ≡ bodies_of edits) × Lead edits directory) }
    ensures strange { (damage : Damage) → result ≡ Err (LogFault.Damaged damage) → StandsBehind damage (bodies records.now) }
    ensures no_fault { IsErrOf result LogFault.Fault → ⊥ }
{
    let mut directory = Directory::new(alloc);
    let mut gate = 0u64;
    for record in records {
        if !follow(alloc, &mut directory, record)? {
            return Err(damage(gate, Why::Body));
        }
        // No file is longer than 64 bits say.
        gate = match gate.checked_add(9 + record.len() as u64) {
            Some(next) => next,
            None => return Err(LogFault::Memory),
        };
    }
    Ok(directory)
}

/// Makes the changes of a record, where it is an edit that may follow. Else what is left of the directory is open.
fn follow(alloc: Global, directory: &mut Directory, body: &[u8]) -> Result<bool, AllocError>
    ensures follows { IfOk result (λ follows. IsTrue follows → Takes directory.old body.now directory.new) }
    ensures none { IfOk result (λ follows. follows ≡ false → MayNotFollow directory.old body.now) }
{
    let Some(changes) = take_edit(alloc, body)? else {
        return Ok(false);
    };
    if !make_all(directory, &changes)? {
        return Ok(false);
    }
    is_sound(alloc, directory)
}
