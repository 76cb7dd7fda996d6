// What is remembered of an entry that was made: for proofs all of it, and no byte of its points.
ghost use Rattle.std.specs.Prelude.{◌≡◌, ◌<◌, ◌++◌, ◌∷◌, [], vec_len, vec_capacity};

use point_model::Deletion;
use std::snapshot::Snapshot;
use tsdb_types::Batch;

/// What is remembered of an entry of one client: that a batch was written or a deletion made. A contract sees which.
#[derive(Drop)]
pub enum EntryNote {
    Written(Snapshot<Batch>),
    Deleted(Snapshot<Deletion>),
}

/// Puts a note behind the others, where the room for it is there.
pub fn add_note(notes: &mut Vec<EntryNote>, note: EntryNote)
    requires { vec_len notes.old < vec_capacity notes.old }
    ensures { notes.new.items ≡ notes.old.items ++ note ∷ [] }
{
    let _ = notes.push(note);
}
