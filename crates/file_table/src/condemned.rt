/// A file that is no longer named. It may be removed once nobody has it in use.
#[derive(Clone, Copy, Debug, PartialEq, Eq)]
pub struct Condemned {
    /// The number of the file.
    pub no: u32,
    /// How many have it in use.
    pub holds: u64,
}
