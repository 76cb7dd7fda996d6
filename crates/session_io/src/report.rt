/// How a session ended.
#[derive(Clone, Copy, Debug, PartialEq, Eq)]
pub enum End {
    /// The input was read to its end, and each reply was written.
    Read,
    /// The source failed.
    SourceFault,
    /// The sink failed.
    SinkFault,
    /// There was no memory for the session, or the sink had none.
    Memory,
}

/// What a session says of itself at its end.
#[derive(Clone, Copy, Debug, PartialEq, Eq)]
pub struct Report {
    /// How many replies were written whole. It stays at its greatest value.
    pub requests: u64,
    /// The greatest number that was told in the session, in a reply that was written or not; that of the beginning
    /// where none was.
    pub last: u64,
    pub end: End,
}
