use crate::{Entries, Key};
use tsdb_types::Kind;

/// One key of the index: what its values are, and its blocks, in order.
#[derive(Debug, Drop)]
pub struct KeyRow {
    pub key: Key,
    pub kind: Kind,
    pub entries: Entries,
}
