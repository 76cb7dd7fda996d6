ghost use Rattle.std.specs.Prelude.{◌≡◌};
ghost use Rattle.gate_log.specs.declared.fault.LogFault.TheVariants as fault;

use shard_disk::{Damage, Fault, Trouble};
use std::alloc::{AllocError, AllocFailed};
use thiserror::Error;

/// Why a log couldn't be read.
#[derive(Clone, Copy, Debug, Error, PartialEq, Eq)]
pub enum LogFault {
    #[error("a device failed")]
    Fault,
    #[error("{0}")]
    Damaged(Damage),
    #[error("out of memory")]
    Memory,
}

impl From<Fault> for LogFault {
    ghost from_gives = { λ _ e. e ≡ fault.Fault };

    fn from(_: Fault) -> Self {
        LogFault::Fault
    }
}

impl From<Trouble> for LogFault {
    ghost use Rattle.gate_log.specs.Faults.{fault_of};

    ghost from_gives = { λ trouble e. e ≡ fault_of trouble };

    fn from(trouble: Trouble) -> Self {
        match trouble {
            Trouble::Fault => LogFault::Fault,
            Trouble::Memory => LogFault::Memory,
        }
    }
}

impl From<AllocError> for LogFault {
    ghost from_gives = { λ _ e. e ≡ fault.Memory };

    fn from(_: AllocError) -> Self {
        LogFault::Memory
    }
}

impl<T: Drop> From<AllocFailed<T>> for LogFault {
    ghost from_gives = { λ _ e. e ≡ fault.Memory };

    fn from(_: AllocFailed<T>) -> Self {
        LogFault::Memory
    }
}
