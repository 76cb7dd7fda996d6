// Lists in order: rows by generation, condemned files by number.
ghost use Rattle.std.specs.Prelude.{◌≡◌, ℕ, ◌+◌, ◌*◌, ◌<◌, ◌≤◌, ◌++◌, ◌∷◌, ◌==◌, length, vec_len, vec_capacity, insert, IfSome, IfNone, All, false, Contains, remove, []};
ghost use Rattle.std.specs.List.{flat_map, AllWithin, HoldsAt};
ghost use Rattle.std.specs.List.Sorted.{IsPermutation, IsNonDecreasingBy, IsStrictlyIncreasing};
ghost use Rattle.file_table.specs.Files.{condemned_of, numbers_of, free_of, unused};

use crate::{Condemned, FileRow};

/// Puts an item at a place of a list that has room for it.
pub fn put_at<T: Drop>(items: &mut Vec<T>, at: usize, item: T)
    requires within { at ≤ vec_len items.old }
    requires room { vec_len items.old < vec_capacity items.old }
    ensures items { items.new.items ≡ insert items.old.items at item }
    ensures len { vec_len items.new ≡ vec_len items.old + 1 }
    ensures capacity { vec_capacity items.old ≤ vec_capacity items.new }
{
    let _ = items.insert(at, item);
}

/// Puts an item behind the others of a list that has room for it.
pub fn push_within<T: Drop>(items: &mut Vec<T>, item: T)
    requires { vec_len items.old < vec_capacity items.old }
    ensures items { items.new.items ≡ items.old.items ++ item ∷ [] }
    ensures len { vec_len items.new ≡ vec_len items.old + 1 }
    ensures capacity { vec_capacity items.old ≤ vec_capacity items.new }
{
    let _ = items.push(item);
}

/// How many rows are older.
fn older_than(rows: &[FileRow], generation: u64) -> usize
    requires { IsNonDecreasingBy (λ r. r.generation) rows.now }
    ensures bound { result ≤ length rows.now }
    ensures older { AllWithin (λ r. r.generation < generation) rows.now 0 result }
    ensures others { AllWithin (λ r. generation ≤ r.generation) rows.now result (length rows.now) }
{
    rows.partition_point(|row| row.generation < generation)
}

/// How many files have a lower number.
fn lower_than(files: &[Condemned], no: u32) -> usize
    requires { IsNonDecreasingBy (λ f. f.no) files.now }
    ensures bound { result ≤ length files.now }
    ensures lower { AllWithin (λ f. f.no < no) files.now 0 result }
    ensures others { AllWithin (λ f. no ≤ f.no) files.now result (length files.now) }
{
    files.partition_point(|file| file.no < no)
}

/// Puts a row behind all that are older.
pub fn put_row(rows: &mut Vec<FileRow>, row: FileRow)
    requires ordered { IsNonDecreasingBy (λ r. r.generation) rows.old.items }
    requires room { vec_len rows.old < vec_capacity rows.old }
    ensures ordered { IsNonDecreasingBy (λ r. r.generation) rows.new.items }
    ensures put { (at : ℕ) × (rows.new.items ≡ insert rows.old.items at row) }
    ensures added { IsPermutation (row ∷ rows.old.items) rows.new.items }
    ensures len { vec_len rows.new ≡ vec_len rows.old + 1 }
    ensures capacity { vec_capacity rows.old ≤ vec_capacity rows.new }
{
    let at = older_than(rows, row.generation);
    put_at(rows, at, row);
}

/// Puts a file behind all of a lower number.
pub fn put_condemned(files: &mut Vec<Condemned>, file: Condemned)
    requires ordered { IsNonDecreasingBy (λ f. f.no) files.old.items }
    requires room { vec_len files.old < vec_capacity files.old }
    ensures ordered { IsNonDecreasingBy (λ f. f.no) files.new.items }
    ensures added { IsPermutation (file ∷ files.old.items) files.new.items }
    ensures len { vec_len files.new ≡ vec_len files.old + 1 }
    ensures capacity { vec_capacity files.old ≤ vec_capacity files.new }
{
    let at = lower_than(files, file.no);
    put_at(files, at, file);
}

/// Condemns the files of a row.
fn condemn_row(files: &mut Vec<Condemned>, row: &FileRow)
    requires ordered { IsNonDecreasingBy (λ f. f.no) files.old.items }
    requires room { vec_len files.old + 2 ≤ vec_capacity files.old }
    ensures ordered { IsNonDecreasingBy (λ f. f.no) files.new.items }
    ensures added { IsPermutation (condemned_of row.now ++ files.old.items) files.new.items }
    ensures len { vec_len files.new ≤ vec_len files.old + 2 }
    ensures capacity { vec_capacity files.old ≤ vec_capacity files.new }
{
    let file = Condemned {
        no: row.no,
        holds: row.holds,
    };
    match row.tomb {
        Some(tomb) => {
            put_condemned(files, Condemned { no: tomb, holds: 0 });
            put_condemned(files, file);
        }
        None => put_condemned(files, file),
    }
}

/// Condemns the files of rows.
pub fn condemn_rows(files: &mut Vec<Condemned>, rows: &[FileRow])
    requires ordered { IsNonDecreasingBy (λ f. f.no) files.old.items }
    requires room { vec_len files.old + 2 * length rows.now ≤ vec_capacity files.old }
    ensures ordered { IsNonDecreasingBy (λ f. f.no) files.new.items }
    ensures added { IsPermutation (flat_map condemned_of rows.now ++ files.old.items) files.new.items }
    ensures len { vec_len files.new ≤ vec_len files.old + 2 * length rows.now }
    ensures capacity { vec_capacity files.old ≤ vec_capacity files.new }
{
    for row in rows {
        condemn_row(files, row);
    }
}

/// The place of a file among condemned ones, by binary search.
pub fn place_of(files: &[Condemned], no: u32) -> Option<usize>
    requires { IsNonDecreasingBy (λ f. f.no) files.now }
    ensures within { IfSome result (λ k. k < length files.now) }
    ensures found { IfSome result (HoldsAt (λ f. f.no ≡ no) files.now) }
    ensures none { IfNone result (All (λ f. (f.no == no) ≡ false) files.now) }
{
    let at = lower_than(files, no);
    if at >= files.len() {
        return None;
    }
    if files[at].no != no {
        return None;
    }
    Some(at)
}

/// Takes a file that nobody has in use off the condemned ones.
pub fn take_out(files: &mut Vec<Condemned>, no: u32)
    requires ordered { IsStrictlyIncreasing (numbers_of files.old.items) }
    requires free { Contains (free_of files.old.items) no }
    ensures removed { (k : ℕ) × (k < length files.old.items) × (files.new.items ≡ remove files.old.items k) }
    ensures left { IsPermutation files.old.items (unused no ∷ files.new.items) }
    ensures len { vec_len files.new + 1 ≡ vec_len files.old }
    ensures capacity { vec_capacity files.new ≡ vec_capacity files.old }
{
    if let Some(k) = place_of(files, no) {
        let _ = files.remove(k);
    }
}

/// The place of the first row of a file.
pub fn row_of(rows: &[FileRow], no: u32) -> Option<usize>
    ensures within { IfSome result (λ k. k < length rows.now) }
    ensures found { IfSome result (HoldsAt (λ row. row.no ≡ no) rows.now) }
    ensures none { IfNone result (All (λ row. (row.no == no) ≡ false) rows.now) }
{
    rows.iter().position(|row| row.no == no)
}
