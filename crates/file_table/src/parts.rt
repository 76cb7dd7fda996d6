// Parts of a table's lists.
ghost use Rattle.std.specs.Prelude.{◌≡◌, ◌+◌, ◌<◌, ◌≤◌, ◌++◌, length, take, drop, vec_len, vec_capacity, slice_get, Some, count_by, ◌==◌};
ghost use Rattle.file_table.specs.Files.{free_of};
ghost use Rattle.file_table.specs.Calls.{marked, replaced};
ghost use Rattle.std.specs.Option.{option_to_list};

use crate::order::put_at;
use crate::{Condemned, FileRow};

/// So many rows from a place on.
pub fn part(rows: &[FileRow], first: usize, count: usize) -> &[FileRow]
    requires { first + count ≤ length rows.now }
    ensures { result.now ≡ take count (drop first rows.now) }
{
    let (_, behind) = rows.split_at(first);
    let (part, _) = behind.split_at(count);
    part
}

/// Takes the rows from one place up to another out of the list.
pub fn cut_out(rows: &mut Vec<FileRow>, from: usize, to: usize)
    requires order { from ≤ to }
    requires within { to ≤ vec_len rows.old }
    ensures items { rows.new.items ≡ take from rows.old.items ++ drop to rows.old.items }
    ensures len { vec_len rows.new + to ≡ vec_len rows.old + from }
    ensures capacity { vec_capacity rows.new ≡ vec_capacity rows.old }
{
    let _ = rows.drain(from..to);
}

/// How many rows are put in.
pub fn count_of(new: Option<FileRow>) -> usize
    ensures { result ≡ length (option_to_list new) }
{
    match new {
        Some(_) => 1,
        None => 0,
    }
}

/// Puts one row or none in the place of so many.
pub fn give_way(rows: &mut Vec<FileRow>, first: usize, count: usize, new: Option<FileRow>)
    requires within { first + count ≤ vec_len rows.old }
    requires room { vec_len rows.old + length (option_to_list new) ≤ vec_capacity rows.old }
    ensures items { rows.new.items ≡ replaced first count new rows.old.items }
    ensures len { vec_len rows.new + count ≡ vec_len rows.old + length (option_to_list new) }
    ensures capacity { vec_capacity rows.old ≤ vec_capacity rows.new }
{
    cut_out(rows, first, first + count);
    match new {
        Some(row) => put_at(rows, first, row),
        None => {}
    }
}

/// Marks so many rows from a place on.
pub fn mark(rows: &mut Vec<FileRow>, first: usize, count: usize, busy: bool)
    requires { first + count ≤ vec_len rows.old }
    ensures items { rows.new.items ≡ marked first count busy rows.old.items }
    ensures len { vec_len rows.new ≡ vec_len rows.old }
    ensures capacity { vec_capacity rows.new ≡ vec_capacity rows.old }
{
    for k in first..first + count {
        rows[k].busy = busy;
    }
}

/// How many files nobody has in use.
pub fn free_in(files: &[Condemned]) -> usize
    ensures { result ≡ count_by (λ file. file.holds == 0) files.now }
{
    files.iter().filter(|file| file.holds == 0).count()
}

/// The file at a place among those that nobody has in use.
pub fn nth_free(files: &[Condemned], k: usize) -> u32
    requires { k < length (free_of files.now) }
    ensures { slice_get (free_of files.now) k ≡ Some result }
{
    let mut left = k;
    for file in files {
        if file.holds == 0 {
            if left == 0 {
                return file.no;
            }
            left -= 1;
        }
    }
    0
}
