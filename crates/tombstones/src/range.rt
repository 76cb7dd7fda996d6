use tsdb_types::Time;

/// A range of times, both ends included. One that ends before it begins has no time.
#[derive(Clone, Copy, Debug, PartialEq, Eq)]
pub struct TombRange {
    pub from: Time,
    pub to: Time,
}
