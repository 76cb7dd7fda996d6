ghost use Rattle.std.specs.Prelude.{◌≡◌};
ghost use Rattle.tsm_server.specs.Directories.{graver};
ghost use Rattle.tsm_server.specs.Outcomes.{status_by};
ghost use Rattle.tsm_server.specs.Printing.{code_of};

use session_io::End;
use shard_disk::Damage;

/// How a run of the program ended.
#[derive(Clone, Copy, Debug, PartialEq, Eq)]
pub enum Status {
    /// Every client was read to its end. Status 0, no line.
    Served,
    /// The words are no command. Status 1 and the usage line.
    NoCommand,
    /// A directory is damaged. Status 2 and a line that names the file, the offset in it and why.
    Damaged(Damage),
    /// A device failed. Status 3, line `fault`.
    Fault,
    /// There was no memory. Status 4, line `memory`.
    NoMemory,
}

impl Status {
    /// What the process ends with.
    pub fn code(self) -> u8
        ensures { result ≡ code_of self }
    {
        match self {
            Status::Served => 0,
            Status::NoCommand => 1,
            Status::Damaged(_) => 2,
            Status::Fault => 3,
            Status::NoMemory => 4,
        }
    }

    /// The graver of this one and what came next: a fault goes before want of memory, and this before what went well.
    pub(crate) fn graver(self, next: Status) -> Status
        ensures { result ≡ graver self next }
    {
        match (self, next) {
            (Status::Served, next) => next,
            (Status::NoMemory, Status::Fault) => Status::Fault,
            (first, _) => first,
        }
    }
}

/// The status of a session that ended so.
pub(crate) fn status_of(end: End) -> Status
    ensures { result ≡ status_by end }
{
    match end {
        End::Read => Status::Served,
        End::SourceFault | End::SinkFault => Status::Fault,
        End::Memory => Status::NoMemory,
    }
}
