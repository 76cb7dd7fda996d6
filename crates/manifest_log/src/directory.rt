ghost use Rattle.std.specs.Prelude.{◌≡◌, ◌==◌, not, filter, ◌++◌, ◌∷◌, [], IfOk, OnOk, Some, if◌then◌else◌};
ghost use Rattle.std.specs.List.{list_any};
ghost use Rattle.file_table.specs.Calls.{rows_with_tomb};

use crate::sound::names_of;
use file_table::FileRow;
use std::alloc::{AllocError, Global};
use std::marker::Model;

/// The numbers of log segments, the oldest first. A contract sees the list.
#[derive(Debug, Drop)]
pub struct Segments {
    list: Vec<u32>,
}

impl Model for Segments {
    ghost use Rattle.std.specs.Prelude.{ℕ, List};

    ghost Value = { List ℕ };

    ghost view = { λ s. s.list.items };
}

impl Segments {
    pub fn new(list: Vec<u32>) -> Segments
        ensures { result ≡ list.items }
    {
        Segments { list }
    }

    pub fn as_slice(&self) -> &[u32]
        ensures { result.now ≡ self.now }
    {
        &self.list
    }

    /// The list itself. Takes no memory.
    pub fn into_vec(self) -> Vec<u32>
        ensures { result.items ≡ self }
    {
        self.list
    }

    pub(crate) fn push(&mut self, no: u32) -> Result<(), AllocError>
        ensures { OnOk result (self.new ≡ self.old ++ no ∷ []) }
    {
        self.list.push(no)?;
        Ok(())
    }

    /// Names the segment no more. Answers whether it was named.
    pub(crate) fn forget(&mut self, no: u32) -> bool
        ensures there { result ≡ list_any (λ s. s == no) self.old }
        ensures left { self.new ≡ filter (λ s. not (s == no)) self.old }
    {
        let there = self.list.iter().any(|segment| *segment == no);
        self.list.retain(|segment| is_other(*segment, no));
        there
    }
}

/// The rows of TSM files, in the order in which they were named. A contract sees the list.
#[derive(Debug, Drop)]
pub struct Files {
    list: Vec<FileRow>,
}

impl Model for Files {
    ghost use Rattle.std.specs.Prelude.{List};
    ghost use Rattle.file_table.specs.declared.row.FileRow.{FileRow};

    ghost Value = { List FileRow };

    ghost view = { λ f. f.list.items };
}

impl Files {
    pub fn new(list: Vec<FileRow>) -> Files
        ensures { result ≡ list.items }
    {
        Files { list }
    }

    pub fn as_slice(&self) -> &[FileRow]
        ensures { result.now ≡ self.now }
    {
        &self.list
    }

    /// The list itself. Takes no memory.
    pub fn into_vec(self) -> Vec<FileRow>
        ensures { result.items ≡ self }
    {
        self.list
    }

    pub(crate) fn push(&mut self, row: FileRow) -> Result<(), AllocError>
        ensures { OnOk result (self.new ≡ self.old ++ row ∷ []) }
    {
        self.list.push(row)?;
        Ok(())
    }

    /// Names the file no more. Answers whether it was named.
    pub(crate) fn forget(&mut self, no: u32) -> bool
        ensures there { result ≡ list_any (λ row. row.no == no) self.old }
        ensures left { self.new ≡ filter (λ row. not (row.no == no)) self.old }
    {
        let there = self.list.iter().any(|row| row.no == no);
        self.list.retain(|row| is_other(row.no, no));
        there
    }

    /// Names the tombstone file of a file. Answers whether the file was named.
    pub(crate) fn name_tomb(&mut self, no: u32, tomb: u32) -> bool
        ensures there { result ≡ list_any (λ row. row.no == no) self.old }
        ensures named { self.new ≡ rows_with_tomb no (Some tomb) self.old }
    {
        let there = self.list.iter().any(|row| row.no == no);
        name_in(&mut self.list, no, tomb);
        there
    }
}

fn is_other(number: u32, no: u32) -> bool
    ensures { result ≡ not (number == no) }
{
    number != no
}

/// Names the tombstone file in each row of the number.
fn name_in(rows: &mut Vec<FileRow>, no: u32, tomb: u32)
    ensures { rows.new.items ≡ rows_with_tomb no (Some tomb) rows.old.items }
{
    for row in rows.iter_mut() {
        name_row(row, no, tomb);
    }
}

/// Names the tombstone file in a row, where it is of the number.
fn name_row(row: &mut FileRow, no: u32, tomb: u32)
    ensures { row.new ≡ (if row.old.no == no then record row.old { tomb = Some tomb } else row.old) }
{
    if row.no != no {
        return;
    }
    row.tomb = Some(tomb);
}

/// What a directory names: its log segments, TSM files, floor, series file and index. Rows have no holds and aren't
/// busy.
#[derive(Debug, Drop)]
pub struct Directory {
    pub segments: Segments,
    pub files: Files,
    /// The number of the last entry whose points are in files.
    pub floor: u64,
    /// The series file, where one is named.
    pub series: Option<u32>,
    /// The log of the index, where one is named.
    pub index_log: Option<u32>,
    pub index_file: Option<u32>,
}

impl Directory {
    ghost use Rattle.manifest_log.specs.Edits.{empty, names};

    /// The manifest, which is file 0, and every file that the directory names.
    pub fn names(&self, alloc: Global) -> Result<Vec<u64>, AllocError>
        ensures { IfOk result (λ all. all.items ≡ 0 ∷ names self.now) }
    {
        names_of(alloc, self)
    }

    /// A directory that names nothing.
    pub(crate) fn new(alloc: Global) -> Directory
        ensures { result ≡ empty }
    {
        Directory {
            segments: Segments::new(Vec::new(alloc)),
            files: Files::new(Vec::new(alloc)),
            floor: 0,
            series: None,
            index_log: None,
            index_file: None,
        }
    }
}
