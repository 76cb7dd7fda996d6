use gate_log::Frame;
use std::marker::Model;

/// The record of an entry, framed for a segment: it is appended without further memory. A contract sees its number and its body.
#[derive(Drop)]
pub struct WalRecord {
    pub(crate) number: u64,
    pub(crate) frame: Frame,
}

impl Model for WalRecord {
    ghost use Rattle.wal_store.specs.Segments.{Recorded};

    ghost Value = { Recorded };

    ghost view = { λ r. record { number = r.number; body = r.frame } };
}

impl WalRecord {
    ghost use Rattle.std.specs.Prelude.{◌≡◌};

    /// The number of its entry.
    pub fn number(&self) -> u64
        ensures { result ≡ self.now.number }
    {
        self.number
    }
}
