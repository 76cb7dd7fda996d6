ghost use Rattle.std.specs.Prelude.{◌≡◌};

use std::marker::Model;

/// One change of what a directory names. Files are named by number.
#[derive(Clone, Copy, Debug, PartialEq, Eq)]
pub enum Change {
    /// A log segment behind the others.
    AddSegment {
        no: u32,
    },
    /// A segment that is named no more.
    ForgetSegment {
        no: u32,
    },
    /// A TSM file, with its row. Its generation is at most 9223372036854775807 and at most the floor that the edit
    /// leaves, its level 1 to 4, and the number of its tombstone file below 4294967295.
    AddFile {
        no: u32,
        generation: u64,
        sequence: u32,
        level: u8,
        points: u64,
        most_entries: u32,
        tomb: Option<u32>,
    },
    /// A TSM file that is named no more, and its tombstone file with it.
    RemoveFile {
        no: u32,
    },
    /// Other tombstones of a TSM file, in place of those that it had.
    NameTombs {
        no: u32,
        tomb: u32,
    },
    /// The number of the last entry whose points are in files. It never falls.
    SetFloor {
        number: u64,
    },
    /// The series file, in place of the one before.
    NameSeries {
        no: u32,
    },
    /// The log of the index and its file, in place of those before. The number of the file is below 4294967295.
    NameIndex {
        log: u32,
        file: Option<u32>,
    },
}

/// Changes in their order. A contract sees the list.
#[derive(Debug, Drop)]
pub struct Changes {
    list: Vec<Change>,
}

impl Model for Changes {
    ghost use Rattle.std.specs.Prelude.{List};
    ghost use Rattle.manifest_log.specs.declared.change.Change.{Change};

    ghost Value = { List Change };

    ghost view = { λ c. c.list.items };
}

impl Changes {
    pub fn new(list: Vec<Change>) -> Changes
        ensures { result ≡ list.items }
    {
        Changes { list }
    }

    pub fn as_slice(&self) -> &[Change]
        ensures { result.now ≡ self.now }
    {
        &self.list
    }

    /// The list itself. Takes no memory.
    pub fn into_vec(self) -> Vec<Change>
        ensures { result.items ≡ self }
    {
        self.list
    }
}

/// Changes that are made together or not at all.
#[derive(Debug, Drop)]
pub struct Edit {
    pub changes: Changes,
}
