use crate::TsmIndex;

/// What a file that was written holds.
#[derive(Debug, Drop)]
pub struct TsmFacts {
    /// How many points it has.
    pub points: u64,
    /// The greatest count of blocks of one key, 1 to 65,535.
    pub most_entries: u32,
    /// Its index, which has the file number 0 until `TsmIndex::set_file`.
    pub index: TsmIndex,
}
