// What is noted of an entry that was refused: for proofs which it was, and no byte of it.
ghost use Rattle.std.specs.Prelude.{◌≡◌, ◌<◌, ◌++◌, ℕ, vec_len, vec_capacity};
ghost use Rattle.shard_calls.specs.Attempts.{attempt_of, deletion_attempt_of, entries_tried, entry_tried};

use std::snapshot::Snapshot;
use store_trait::{DeleteFault, EntryNote, WriteFault};

/// The note of a batch that was refused, where a fault or want of memory refused it: then a crash may leave it.
pub fn attempt(fault: &WriteFault, note: EntryNote) -> Option<EntryNote>
    ensures { result ≡ attempt_of fault.now note }
{
    match fault {
        WriteFault::TypeConflict {
            field: _,
            held: _,
            number: _,
        } => None,
        WriteFault::HistoryFull => None,
        WriteFault::SeriesFull { held: _ } => None,
        WriteFault::CacheFull { held: _ } => None,
        WriteFault::Memory => Some(note),
        WriteFault::Fault => Some(note),
    }
}

/// The same of a deletion.
pub fn deletion_attempt(fault: &DeleteFault, note: EntryNote) -> Option<EntryNote>
    ensures { result ≡ deletion_attempt_of fault.now note }
{
    match fault {
        DeleteFault::HistoryFull => None,
        DeleteFault::Memory => Some(note),
        DeleteFault::Fault => Some(note),
    }
}

/// A refused write or deletion.
#[derive(Drop)]
pub struct NotedAttempt {
    /// The number of the last entry then.
    pub number: u64,
    /// What was asked for, where a fault or want of memory refused it: a crash may leave it.
    pub tried: Option<EntryNote>,
}

/// Puts what is noted of a refused entry behind the others, where the room for it is there.
pub(crate) fn add_attempt(
    tried: &mut Vec<Snapshot<NotedAttempt>>,
    number: u64,
    attempt: Option<EntryNote>,
)
    requires { vec_len tried.old < vec_capacity tried.old }
    ensures { (client : ℕ) → entries_tried client tried.new.items ≡ entries_tried client tried.old.items ++ entry_tried client number attempt }
{
    let noted = NotedAttempt {
        number,
        tried: attempt,
    };
    let _ = tried.push(Snapshot::of(&noted));
}
