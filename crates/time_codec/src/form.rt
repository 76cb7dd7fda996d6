/// How the differences of a list are written.
#[derive(Clone, Copy, Debug, PartialEq, Eq)]
pub enum Form {
    /// One after another.
    Raw,
    /// In the words of Simple8b.
    Packed,
    /// All equal: the one, and the count of the times.
    RunLength,
}
