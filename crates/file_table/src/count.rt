// The row or the condemned file of a number, found and changed.
ghost use Rattle.std.specs.Prelude.{◌≡◌, ◌+◌, ◌-◌, ◌^◌, ◌<◌, All, nat_eq, vec_len, vec_capacity};
ghost use Rattle.std.specs.List.{IsDistinct};
ghost use Rattle.std.specs.List.Sorted.{IsStrictlyIncreasing};
ghost use Rattle.file_table.specs.Files.{numbers_of, row_numbers_of};
ghost use Rattle.file_table.specs.Calls.{rows_with_holds, files_with_holds, rows_with_tomb};

use crate::order::{place_of, row_of};
use crate::{Condemned, FileRow};

/// Counts one hold more of the file's row, where it has one.
pub fn raise_row(rows: &mut Vec<FileRow>, no: u32)
    requires once { IsDistinct nat_eq (row_numbers_of rows.old.items) }
    requires room { All (λ row. row.no ≡ no → row.holds + 1 < 2 ^ 64) rows.old.items }
    ensures items { rows.new.items ≡ rows_with_holds (λ holds. holds + 1) no rows.old.items }
    ensures len { vec_len rows.new ≡ vec_len rows.old }
    ensures capacity { vec_capacity rows.new ≡ vec_capacity rows.old }
{
    if let Some(k) = row_of(rows, no) {
        rows[k].holds += 1;
    }
}

/// Counts one hold more of a condemned file, where it is one.
pub fn raise_condemned(files: &mut Vec<Condemned>, no: u32)
    requires once { IsStrictlyIncreasing (numbers_of files.old.items) }
    requires room { All (λ file. file.no ≡ no → file.holds + 1 < 2 ^ 64) files.old.items }
    ensures items { files.new.items ≡ files_with_holds (λ holds. holds + 1) no files.old.items }
    ensures len { vec_len files.new ≡ vec_len files.old }
    ensures capacity { vec_capacity files.new ≡ vec_capacity files.old }
{
    if let Some(k) = place_of(files, no) {
        files[k].holds += 1;
    }
}

/// Counts one hold less of the file's row, where it has one.
pub fn lower_row(rows: &mut Vec<FileRow>, no: u32)
    requires { IsDistinct nat_eq (row_numbers_of rows.old.items) }
    ensures items { rows.new.items ≡ rows_with_holds (λ holds. holds - 1) no rows.old.items }
    ensures len { vec_len rows.new ≡ vec_len rows.old }
    ensures capacity { vec_capacity rows.new ≡ vec_capacity rows.old }
{
    if let Some(k) = row_of(rows, no) {
        let row = &mut rows[k];
        row.holds = row.holds.saturating_sub(1);
    }
}

/// Counts one hold less of a condemned file, where it is one.
pub fn lower_condemned(files: &mut Vec<Condemned>, no: u32)
    requires { IsStrictlyIncreasing (numbers_of files.old.items) }
    ensures items { files.new.items ≡ files_with_holds (λ holds. holds - 1) no files.old.items }
    ensures len { vec_len files.new ≡ vec_len files.old }
    ensures capacity { vec_capacity files.new ≡ vec_capacity files.old }
{
    if let Some(k) = place_of(files, no) {
        let file = &mut files[k];
        file.holds = file.holds.saturating_sub(1);
    }
}

/// Names the tombstone file of the file's row, where it has one.
pub fn name_tomb(rows: &mut Vec<FileRow>, no: u32, tomb: Option<u32>)
    requires { IsDistinct nat_eq (row_numbers_of rows.old.items) }
    ensures items { rows.new.items ≡ rows_with_tomb no tomb rows.old.items }
    ensures len { vec_len rows.new ≡ vec_len rows.old }
    ensures capacity { vec_capacity rows.new ≡ vec_capacity rows.old }
{
    if let Some(k) = row_of(rows, no) {
        rows[k].tomb = tomb;
    }
}
