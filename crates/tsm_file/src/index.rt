ghost use Rattle.std.specs.Prelude.{◌≡◌, ◌<◌, ℕ, length, slice_get, Some, None, IfSome, IfNone};
ghost use Rattle.tsm_format.specs.declared.row.KeyRow.{KeyRow};
ghost use Rattle.tsm_format.specs.Rows.{AreEntries, AreIndex, end_of};
ghost use Rattle.tsm_file.specs.ReadIndex.{HasKey, LacksKey};

use std::marker::Model;
use tsm_format::{Entry, KeyRow};

/// The index of one file: its keys with their blocks, ascending by the bytes of the keys. A contract sees the number of
/// the file and the rows.
#[derive(Debug, Drop)]
pub struct TsmIndex {
    file: u32,
    rows: Vec<KeyRow>,
}

impl Model for TsmIndex {
    ghost use Rattle.tsm_format.specs.Rows.{AreIndex, end_of};
    ghost use Rattle.tsm_file.specs.ReadIndex.{Index};

    ghost Value = { Index };

    ghost view = { λ i. record { file = i.file; rows = i.rows.items } };

    ghost invariant = { λ i. AreIndex (end_of i.rows.items) i.rows.items };
}

impl TsmIndex {
    /// The index of these rows, of the file with this number.
    pub(crate) fn of_rows(file: u32, rows: Vec<KeyRow>) -> TsmIndex
        requires { AreIndex (end_of rows.items) rows.items }
        ensures { result ≡ record { file = file; rows = rows.items } }
    {
        TsmIndex { file, rows }
    }

    /// How many keys it has, one or more.
    pub fn len(&self) -> usize
        ensures count { result ≡ length self.now.rows }
        ensures rows { AreIndex (end_of self.now.rows) self.now.rows }
    {
        self.rows.len()
    }

    /// The key at this place, counted from 0, and its blocks.
    pub fn row(&self, k: usize) -> &KeyRow
        requires { k < length self.now.rows }
        ensures { slice_get self.now.rows k ≡ Some result.now }
    {
        &self.rows[k]
    }

    /// The blocks of a key, in the order of their times. `None` where the file doesn't have the key.
    pub fn entries(&self, key: &[u8]) -> Option<&[Entry]>
        ensures found { IfSome result (λ entries. (row : KeyRow) × HasKey self.now.rows key.now row × (entries.now ≡ row.entries)) }
        ensures none { IfNone result (LacksKey self.now.rows key.now) }
    {
        match self.find(key) {
            Some(row) => Some(row.entries.as_slice()),
            None => None,
        }
    }

    /// The place of a key among those of the file, by binary search. `None` where the file doesn't have the key.
    pub fn position(&self, key: &[u8]) -> Option<usize>
        ensures found { IfSome result (λ k. (row : KeyRow) × (slice_get self.now.rows k ≡ Some row) × (row.key ≡ key.now)) }
        ensures none { IfNone result (LacksKey self.now.rows key.now) }
    {
        let rows = self.rows.as_slice();
        match rows.binary_search_by(|row| row.key.as_slice().cmp(key)) {
            Ok(k) => Some(k),
            Err(_) => None,
        }
    }

    /// The row of a key.
    pub(crate) fn find(&self, key: &[u8]) -> Option<&KeyRow>
        ensures found { IfSome result (λ row. HasKey self.now.rows key.now row.now) }
        ensures none { IfNone result (LacksKey self.now.rows key.now) }
        ensures blocks { IfSome result (λ row. (place : ℕ) × AreEntries None place row.now.entries) }
    {
        match self.position(key) {
            Some(k) => Some(&self.rows[k]),
            None => None,
        }
    }

    /// The number of its file.
    pub(crate) fn file(&self) -> u32
        ensures number { result ≡ self.now.file }
        ensures rows { AreIndex (end_of self.now.rows) self.now.rows }
    {
        self.file
    }

    /// Gives it the number of its file, once that is known. Takes no memory.
    pub fn set_file(&mut self, file: u32)
        ensures { self.new ≡ record self.old { file = file } }
    {
        self.file = file;
    }
}
