ghost use Rattle.std.specs.Prelude.{◌≡◌, IfOk, IsTrue, ◌↔◌, nat_eq, ◌≤◌, ◌++◌, ◌∷◌, [], OnOk};
ghost use Rattle.std.specs.List.{flat_map, IsDistinct, AllByRecursion};
ghost use Rattle.std.specs.List.Sorted.{IsNonDecreasing};
ghost use Rattle.std.specs.Option.{option_to_list};
ghost use Rattle.file_table.specs.Files.{files_of, generations_of};
ghost use Rattle.manifest_log.specs.Edits.{IsSound, names};

use crate::Directory;
use file_table::FileRow;
use std::alloc::{AllocError, Global};

/// Whether no file stands in two places, and no generation twice or above the floor.
pub fn is_sound(alloc: Global, directory: &Directory) -> Result<bool, AllocError>
    ensures { IfOk result (λ sound. IsTrue sound ↔ IsSound directory.now) }
{
    let rows = directory.files.as_slice();
    if !are_below(rows, directory.floor) {
        return Ok(false);
    }
    if !all_differ(ages_of(alloc, rows)?)? {
        return Ok(false);
    }
    all_differ(names_of(alloc, directory)?)
}

/// Whether no generation is above the floor.
fn are_below(rows: &[FileRow], floor: u64) -> bool
    ensures { IsTrue result ↔ AllByRecursion (λ (row : FileRow). row.generation ≤ floor) rows.now }
{
    rows.iter().all(|row| row.generation <= floor)
}

/// The generations of rows.
fn ages_of(alloc: Global, rows: &[FileRow]) -> Result<Vec<u64>, AllocError>
    ensures { IfOk result (λ ages. ages.items ≡ generations_of rows.now) }
{
    rows.iter().map(|row| row.generation).collect(alloc)
}

/// The manifest and every file that the directory names.
pub(crate) fn names_of(alloc: Global, directory: &Directory) -> Result<Vec<u64>, AllocError>
    ensures { IfOk result (λ all. all.items ≡ 0 ∷ names directory.now) }
{
    let mut all = Vec::new(alloc);
    all.push(0)?;
    put_segments(&mut all, directory.segments.as_slice())?;
    put_files(&mut all, directory.files.as_slice())?;
    put_file(&mut all, directory.series)?;
    put_file(&mut all, directory.index_log)?;
    put_file(&mut all, directory.index_file)?;
    Ok(all)
}

fn put_segments(all: &mut Vec<u64>, segments: &[u32]) -> Result<(), AllocError>
    ensures { OnOk result (all.new.items ≡ all.old.items ++ segments.now) }
{
    for segment in segments {
        all.push(*segment as u64)?;
    }
    Ok(())
}

fn put_files(all: &mut Vec<u64>, rows: &[FileRow]) -> Result<(), AllocError>
    ensures { OnOk result (all.new.items ≡ all.old.items ++ flat_map files_of rows.now) }
{
    for row in rows {
        all.push(row.no as u64)?;
        put_file(all, row.tomb)?;
    }
    Ok(())
}

fn put_file(all: &mut Vec<u64>, file: Option<u32>) -> Result<(), AllocError>
    ensures { OnOk result (all.new.items ≡ all.old.items ++ option_to_list file) }
{
    match file {
        Some(no) => {
            all.push(no as u64)?;
            Ok(())
        }
        None => Ok(()),
    }
}

/// Whether no number stands twice.
fn all_differ(numbers: Vec<u64>) -> Result<bool, AllocError>
    ensures { IfOk result (λ differ. IsTrue differ ↔ IsDistinct nat_eq numbers.items) }
{
    let mut sorted = numbers;
    sorted.sort()?;
    Ok(ascend(&sorted))
}

/// Whether each number in order is below the next.
fn ascend(sorted: &[u64]) -> bool
    requires { IsNonDecreasing sorted.now }
    ensures { IsTrue result ↔ IsDistinct nat_eq sorted.now }
{
    let mut last = None;
    for number in sorted {
        if last == Some(*number) {
            return false;
        }
        last = Some(*number);
    }
    true
}
