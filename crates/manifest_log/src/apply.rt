ghost use Rattle.std.specs.Prelude.{◌≡◌, IfOk, Some, None, IsTrue, false};
ghost use Rattle.manifest_log.specs.Edits.{changed, all_changed};

use crate::{Change, Directory};
use file_table::FileRow;
use std::alloc::AllocError;

/// The greatest number of an entry.
const LAST_NUMBER: u64 = 9223372036854775807;

/// Makes changes in order, where they may be made. Else what is left of the directory is open.
pub fn make_all(directory: &mut Directory, changes: &[Change]) -> Result<bool, AllocError>
    ensures made { IfOk result (λ made. IsTrue made → all_changed directory.old changes.now ≡ Some directory.new) }
    ensures not_made { IfOk result (λ made. made ≡ false → all_changed directory.old changes.now ≡ None) }
{
    for change in changes {
        if !make(directory, change)? {
            return Ok(false);
        }
    }
    Ok(true)
}

/// Makes one change, where it may be made. Else what is left of the directory is open.
fn make(directory: &mut Directory, change: &Change) -> Result<bool, AllocError>
    ensures made { IfOk result (λ made. IsTrue made → changed directory.old change.now ≡ Some directory.new) }
    ensures not_made { IfOk result (λ made. made ≡ false → changed directory.old change.now ≡ None) }
{
    match *change {
        Change::AddSegment { no } => {
            directory.segments.push(no)?;
            Ok(true)
        }
        Change::ForgetSegment { no } => Ok(directory.segments.forget(no)),
        Change::AddFile {
            no,
            generation,
            sequence,
            level,
            points,
            most_entries,
            tomb,
        } => {
            if level < 1 || 4 < level || LAST_NUMBER < generation {
                return Ok(false);
            }
            directory.files.push(FileRow {
                no,
                generation,
                sequence,
                level,
                points,
                most_entries,
                tomb,
                holds: 0,
                busy: false,
            })?;
            Ok(true)
        }
        Change::RemoveFile { no } => Ok(directory.files.forget(no)),
        Change::NameTombs { no, tomb } => Ok(directory.files.name_tomb(no, tomb)),
        Change::SetFloor { number } => {
            if number < directory.floor || LAST_NUMBER < number {
                return Ok(false);
            }
            directory.floor = number;
            Ok(true)
        }
        Change::NameSeries { no } => {
            directory.series = Some(no);
            Ok(true)
        }
        Change::NameIndex { log, file } => {
            directory.index_log = Some(log);
            directory.index_file = file;
            Ok(true)
        }
    }
}
