/// Where a gate may hold its caller.
#[derive(Clone, Copy, Debug, PartialEq, Eq)]
pub enum Place {
    View,
    Job,
    Reply,
}

/// Holds its callers at named places, in tests. That of the program holds nobody.
pub trait Gate: Sync {
    /// The caller `who` has come to this place. Clients are 0 to 7, the housekeeping worker is 8.
    fn reach(&self, who: u32, place: Place);
}
