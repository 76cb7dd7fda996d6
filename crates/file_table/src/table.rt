ghost use Rattle.std.specs.Prelude.{◌≡◌, ◌+◌, ◌*◌, ◌<◌, ◌≤◌, length, slice_get, Some, IfSome, OnOk, OnErr, Any};

use crate::count::name_tomb;
use crate::order::put_row;
use crate::parts::mark;
use crate::{Condemned, FileRow};
use std::alloc::{AllocError, Global};
use std::marker::Model;

/// The named files, oldest generation first, and the condemned ones. A contract sees the `Table` of `specs/Table.antt`.
/// Only `reserve` takes memory; each other call that adds something asks for the room that it made.
#[derive(Debug, Drop)]
pub struct FileTable {
    pub(crate) rows: Vec<FileRow>,
    /// By number.
    pub(crate) condemned: Vec<Condemned>,
    pub(crate) gone: Vec<u32>,
    /// How many rows more there is room for, with their files.
    pub(crate) row_room: usize,
    /// How many condemned files more there is room for that were no rows.
    pub(crate) file_room: usize,
}

impl Model for FileTable {
    ghost use Rattle.std.specs.Prelude.{vec_capacity};
    ghost use Rattle.file_table.specs.Table.{Table};
    ghost use Rattle.file_table.specs.Room.{IsKept};

    ghost Value = { Table };

    ghost view = { λ t. record { rows = t.rows.items; condemned = t.condemned.items; gone = t.gone.items; row_room = t.row_room; file_room = t.file_room } };

    ghost invariant = { λ t. IsKept (vec_capacity t.rows) (vec_capacity t.condemned) (vec_capacity t.gone)
        (record { rows = t.rows.items; condemned = t.condemned.items; gone = t.gone.items; row_room = t.row_room; file_room = t.file_room }) };
}

impl FileTable {
    ghost use Rattle.file_table.specs.Table.{IsTable, empty};
    ghost use Rattle.file_table.specs.Calls.{Reserves, MayEnter, IsNewGeneration, Places, with_busy, with_tomb};

    /// A table without a file. It keeps the allocator for `reserve`.
    pub fn new(alloc: Global) -> FileTable
        ensures { result ≡ empty }
    {
        FileTable {
            rows: Vec::new(alloc),
            condemned: Vec::new(alloc),
            gone: Vec::new(alloc),
            row_room: 0,
            file_room: 0,
        }
    }

    /// How many files are named.
    pub fn len(&self) -> usize
        ensures len { result ≡ length self.now.rows }
        ensures table { IsTable self.now }
    {
        self.rows.len()
    }

    /// The row at a place, the oldest at 0.
    pub fn row(&self, k: usize) -> &FileRow
        requires { k < length self.now.rows }
        ensures { slice_get self.now.rows k ≡ Some result.now }
    {
        &self.rows[k]
    }

    /// Makes room for so many rows more and for what comes of them when they are condemned and forgotten; for so many
    /// condemned files that are no rows; and in `gone` for the files of all these and of those that are there.
    pub fn reserve(&mut self, rows: usize, files: usize) -> Result<(), AllocError>
        ensures ok { OnOk result (Reserves rows files self.old self.new) }
        ensures err { OnErr result (self.new ≡ self.old) }
        ensures table { IsTable self.new }
    {
        let rows = rows.max(self.row_room);
        let files = files.max(self.file_room);
        let Some(more) = still_condemned(self.rows.len(), rows, files) else {
            return Err(AllocError);
        };
        let Some(all) = self.condemned.len().checked_add(more) else {
            return Err(AllocError);
        };
        self.rows.reserve(rows)?;
        self.condemned.reserve(more)?;
        self.gone.reserve(all)?;
        self.row_room = rows;
        self.file_room = files;
        Ok(())
    }

    /// Puts a row in, at the place of its generation.
    pub fn place(&mut self, row: FileRow)
        requires enters { MayEnter row self.old }
        requires generation { IsNewGeneration row.generation self.old }
        ensures placed { Places row self.old self.new }
        ensures table { IsTable self.new }
    {
        put_row(&mut self.rows, row);
        self.row_room -= 1;
    }

    /// Marks rows as sources of a merge, or as none.
    pub fn set_busy(&mut self, first: usize, count: usize, busy: bool)
        requires { first + count ≤ length self.old.rows }
        ensures marked { self.new ≡ with_busy first count busy self.old }
        ensures table { IsTable self.new }
    {
        mark(&mut self.rows, first, count, busy);
    }

    /// Names a row's tombstone file anew. The file that it named before is named no longer, and isn't condemned by this.
    pub fn set_tomb(&mut self, no: u32, tomb: Option<u32>)
        requires row { Any (λ row. row.no ≡ no) self.old.rows }
        requires new { IsTable (with_tomb no tomb self.old) }
        ensures named { self.new ≡ with_tomb no tomb self.old }
        ensures table { IsTable self.new }
    {
        name_tomb(&mut self.rows, no, tomb);
    }
}

// How many files are condemned where all these are: two of each row, and the others.
fn still_condemned(named: usize, rows: usize, files: usize) -> Option<usize>
    ensures { IfSome result (λ n. n ≡ 2 * (named + rows) + files) }
{
    named.checked_add(rows)?.checked_mul(2)?.checked_add(files)
}
