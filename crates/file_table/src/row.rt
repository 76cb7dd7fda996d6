/// A TSM file that is named.
#[derive(Clone, Copy, Debug, PartialEq, Eq)]
pub struct FileRow {
    /// The number of the file.
    pub no: u32,
    /// Its age: the number of the last entry that it has points of. No two rows have one generation.
    pub generation: u64,
    /// How often its points were rewritten.
    pub sequence: u32,
    /// 1 to 4: by how many merges it came about.
    pub level: u8,
    pub points: u64,
    /// The blocks of the key that has the most.
    pub most_entries: u32,
    /// The number of its tombstone file, where it has one.
    pub tomb: Option<u32>,
    /// How many have the file in use.
    pub holds: u64,
    /// A merge has it as a source.
    pub busy: bool,
}
