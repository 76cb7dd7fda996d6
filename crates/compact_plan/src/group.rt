/// Rows of a table, one after another, that a merge takes.
#[derive(Clone, Copy, Debug, PartialEq, Eq)]
pub struct Group {
    /// The place of the oldest.
    pub first: usize,
    pub count: usize,
}
