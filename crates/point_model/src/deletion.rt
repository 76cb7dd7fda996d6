ghost use Rattle.std.specs.Prelude.{◌≡◌, IfOk};

use crate::TagCond;
use std::alloc::{AllocError, Global};
use tsdb_types::{Name, Time};

/// Which points are deleted: those of the measurement whose series meets the condition, and whose time is one of those
/// from `from` to `to`, both included. Where `from` is above `to`, none is.
#[derive(Debug, Drop)]
pub struct Deletion {
    pub measurement: Name,
    pub tags: TagCond,
    pub from: Time,
    pub to: Time,
}

impl Deletion {
    /// An equal deletion.
    pub fn carry(&self, alloc: Global) -> Result<Deletion, AllocError>
        ensures { IfOk result (λ deletion. deletion ≡ self.now) }
    {
        Ok(Deletion {
            measurement: self.measurement.carry()?,
            tags: self.tags.carry(alloc)?,
            from: self.from,
            to: self.to,
        })
    }
}
