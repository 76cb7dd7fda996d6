use std::marker::Model;
use tsdb_types::{Name, Value};

/// The answer to a SELECT: its tables in order.
#[derive(Drop)]
pub struct Tables {
    pub tables: TableList,
}

/// The rows of one group.
#[derive(Drop)]
pub struct Table {
    pub measurement: Name,
    /// The grouping tags with their values.
    pub tags: TagTexts,
    /// The names of the columns behind the time.
    pub columns: Columns,
    pub rows: Rows,
}

/// A tag with its value, both unescaped; a tag that the series of a group lack has the empty text.
#[derive(Drop)]
pub struct TagText {
    pub key: Name,
    pub value: point_model::TagText,
}

/// A row: its time, which as the start of a window may lie outside `Time`, and a cell for each column.
#[derive(Drop)]
pub struct Row {
    pub time: i128,
    pub cells: Cells,
}

/// What a cell shows.
#[derive(Drop)]
pub enum Shown {
    /// The row has no value there.
    Absent,
    /// The value of a field, or what was made of values.
    Value(Value),
    /// The value of a tag, unescaped and not empty.
    Tag(point_model::TagText),
}

/// The tables of an answer. A contract sees their list.
#[derive(Drop)]
pub struct TableList {
    tables: Vec<Table>,
}

impl Model for TableList {
    ghost use Rattle.std.specs.Prelude.{List};
    ghost use Rattle.query_model.specs.declared.tables.Table.{Table};

    ghost Value = { List Table };

    ghost view = { λ l. l.tables.items };
}

impl TableList {
    ghost use Rattle.std.specs.Prelude.{◌≡◌};

    /// The list of these.
    pub fn new(tables: Vec<Table>) -> TableList
        ensures { result ≡ tables.items }
    {
        TableList { tables }
    }

    /// The list that it was made of.
    pub fn as_slice(&self) -> &[Table]
        ensures { result.now ≡ self.now }
    {
        self.tables.as_slice()
    }
}

/// Tags with their values. A contract sees their list.
#[derive(Drop)]
pub struct TagTexts {
    tags: Vec<TagText>,
}

impl Model for TagTexts {
    ghost use Rattle.std.specs.Prelude.{List};
    ghost use Rattle.query_model.specs.declared.tables.TagText.{TagText};

    ghost Value = { List TagText };

    ghost view = { λ l. l.tags.items };
}

impl TagTexts {
    ghost use Rattle.std.specs.Prelude.{◌≡◌};

    /// The list of these.
    pub fn new(tags: Vec<TagText>) -> TagTexts
        ensures { result ≡ tags.items }
    {
        TagTexts { tags }
    }

    /// The list that it was made of.
    pub fn as_slice(&self) -> &[TagText]
        ensures { result.now ≡ self.now }
    {
        self.tags.as_slice()
    }
}

/// The names of columns. A contract sees the list of their bytes.
#[derive(Drop)]
pub struct Columns {
    names: Vec<String>,
}

impl Model for Columns {
    ghost use Rattle.std.specs.Prelude.{ℕ, List, map, string_bytes};

    ghost Value = { List (List ℕ) };

    ghost view = { λ l. map string_bytes l.names.items };
}

impl Columns {
    ghost use Rattle.std.specs.Prelude.{◌≡◌, map, string_bytes};

    /// The list of these.
    pub fn new(names: Vec<String>) -> Columns
        ensures { result ≡ map string_bytes names.items }
    {
        Columns { names }
    }

    /// The list that it was made of.
    pub fn as_slice(&self) -> &[String]
        ensures { map string_bytes result.now ≡ self.now }
    {
        self.names.as_slice()
    }
}

/// The rows of a table. A contract sees their list.
#[derive(Drop)]
pub struct Rows {
    rows: Vec<Row>,
}

impl Model for Rows {
    ghost use Rattle.std.specs.Prelude.{List};
    ghost use Rattle.query_model.specs.declared.tables.Row.{Row};

    ghost Value = { List Row };

    ghost view = { λ l. l.rows.items };
}

impl Rows {
    ghost use Rattle.std.specs.Prelude.{◌≡◌};

    /// The list of these.
    pub fn new(rows: Vec<Row>) -> Rows
        ensures { result ≡ rows.items }
    {
        Rows { rows }
    }

    /// The list that it was made of.
    pub fn as_slice(&self) -> &[Row]
        ensures { result.now ≡ self.now }
    {
        self.rows.as_slice()
    }
}

/// The cells of a row. A contract sees their list.
#[derive(Drop)]
pub struct Cells {
    cells: Vec<Shown>,
}

impl Model for Cells {
    ghost use Rattle.std.specs.Prelude.{List};
    ghost use Rattle.query_model.specs.declared.tables.Shown.{Shown};

    ghost Value = { List Shown };

    ghost view = { λ l. l.cells.items };
}

impl Cells {
    ghost use Rattle.std.specs.Prelude.{◌≡◌};

    /// The list of these.
    pub fn new(cells: Vec<Shown>) -> Cells
        ensures { result ≡ cells.items }
    {
        Cells { cells }
    }

    /// The list that it was made of.
    pub fn as_slice(&self) -> &[Shown]
        ensures { result.now ≡ self.now }
    {
        self.cells.as_slice()
    }
}
