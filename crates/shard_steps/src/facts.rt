/// What an engine holds of what its limits bound.
#[derive(Clone, Copy, Debug)]
pub struct Facts {
    /// Points in memory.
    pub cached: u64,
    pub series: u64,
}
