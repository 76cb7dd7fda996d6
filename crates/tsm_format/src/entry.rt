ghost use Rattle.std.specs.Prelude.{◌≡◌};

use std::marker::Model;
use tsdb_types::Time;

/// One block of a key: its first and its last time, where it stands in the file, and its bytes with the four of its
/// checksum.
#[derive(Clone, Copy, Debug, PartialEq, Eq)]
pub struct Entry {
    pub min: Time,
    pub max: Time,
    pub offset: u64,
    pub size: u32,
}

/// The blocks of one key. A contract sees the list.
#[derive(Debug, Drop)]
pub struct Entries {
    list: Vec<Entry>,
}

impl Model for Entries {
    ghost use Rattle.std.specs.Prelude.{List};
    ghost use Rattle.tsm_format.specs.declared.entry.Entry.{Entry};

    ghost Value = { List Entry };

    ghost view = { λ e. e.list.items };
}

impl Entries {
    pub fn new(list: Vec<Entry>) -> Entries
        ensures { result ≡ list.items }
    {
        Entries { list }
    }

    pub fn as_slice(&self) -> &[Entry]
        ensures { result.now ≡ self.now }
    {
        &self.list
    }

    /// The list itself. Takes no memory.
    pub fn into_vec(self) -> Vec<Entry>
        ensures { result.items ≡ self }
    {
        self.list
    }
}
