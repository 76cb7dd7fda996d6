use manifest_log::{Directory, Manifest};
use series_store::Series;
use wal_store::Wal;

/// What is read of a directory before its segments are.
#[derive(Drop)]
pub struct Begun {
    pub manifest: Manifest,
    /// What the manifest names.
    pub named: Directory,
    pub series: Series,
    /// The numbers of the files that are there.
    pub numbers: Vec<u32>,
}

/// What was read of a directory.
#[derive(Drop)]
pub struct Parts {
    pub manifest: Manifest,
    /// What the manifest names.
    pub named: Directory,
    pub series: Series,
    pub wal: Wal,
}
