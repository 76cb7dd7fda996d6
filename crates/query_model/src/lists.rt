use crate::Columns;
use std::marker::Model;

/// The answer to a SHOW.
#[derive(Drop)]
pub enum Listing {
    /// Lists of lines under their headings.
    Texts(HeadedLists),
    /// The answer to SHOW FILES alone.
    Files(FileLines),
}

/// The lines of a list under the lines of its heading, without newlines.
#[derive(Drop)]
pub struct HeadedList {
    pub head: Columns,
    pub lines: Columns,
}

/// What is shown of a file.
#[derive(Clone, Copy, PartialEq, Eq)]
pub struct FileLine {
    /// The generation, and the place within it.
    pub generation: u64,
    pub sequence: u32,
    /// 1 to 4.
    pub level: u8,
    /// The points that the file stores, those that are deleted included.
    pub points: u64,
}

/// Lists with their headings. A contract sees their list.
#[derive(Drop)]
pub struct HeadedLists {
    lists: Vec<HeadedList>,
}

impl Model for HeadedLists {
    ghost use Rattle.std.specs.Prelude.{List};
    ghost use Rattle.query_model.specs.declared.lists.HeadedList.{HeadedList};

    ghost Value = { List HeadedList };

    ghost view = { λ l. l.lists.items };
}

impl HeadedLists {
    ghost use Rattle.std.specs.Prelude.{◌≡◌};

    /// The list of these.
    pub fn new(lists: Vec<HeadedList>) -> HeadedLists
        ensures { result ≡ lists.items }
    {
        HeadedLists { lists }
    }

    /// The list that it was made of.
    pub fn as_slice(&self) -> &[HeadedList]
        ensures { result.now ≡ self.now }
    {
        self.lists.as_slice()
    }
}

/// What is shown of files. A contract sees their list.
#[derive(Drop)]
pub struct FileLines {
    files: Vec<FileLine>,
}

impl Model for FileLines {
    ghost use Rattle.std.specs.Prelude.{List};
    ghost use Rattle.query_model.specs.declared.lists.FileLine.{FileLine};

    ghost Value = { List FileLine };

    ghost view = { λ l. l.files.items };
}

impl FileLines {
    ghost use Rattle.std.specs.Prelude.{◌≡◌};

    /// The list of these.
    pub fn new(files: Vec<FileLine>) -> FileLines
        ensures { result ≡ files.items }
    {
        FileLines { files }
    }

    /// The list that it was made of.
    pub fn as_slice(&self) -> &[FileLine]
        ensures { result.now ≡ self.now }
    {
        self.files.as_slice()
    }
}
