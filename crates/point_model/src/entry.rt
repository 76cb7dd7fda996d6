use crate::Deletion;
use tsdb_types::Batch;

/// What was accepted from a client: a batch of points to be set in their order, or a deletion.
#[derive(Debug, Drop)]
pub enum Entry {
    Write { client: u32, points: Batch },
    Delete { client: u32, deletion: Deletion },
}
