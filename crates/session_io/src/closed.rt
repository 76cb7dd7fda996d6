use crate::{Client, MemClock, MemSink, MemSource, Report};

/// What a desk has closed.
#[derive(Drop)]
pub enum Closed<D, S = MemSource, K = MemSink, C = MemClock> {
    /// A directory.
    Dir(D),
    /// A client, with its report where it was served.
    Client(Client<S, K, C>, Option<Report>),
}
