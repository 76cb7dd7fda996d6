ghost use Rattle.std.specs.Prelude.{◌≡◌, ℕ, reverse, IfOk, IsSome, IsTrue};
ghost use Rattle.std.specs.FinMap.{get};
ghost use Rattle.shard_disk.specs.Directory.{Directory};
ghost use Rattle.mem_disk.specs.History.{adopted_after, crashes_of, reads};
ghost use Rattle.mem_disk.specs.Opened.{IsLeastAbove};
ghost use Rattle.mem_disk.specs.Replayed.{AreFiles};

use crate::contents::Contents;
use std::alloc::{AllocError, Global};
use std::collections::BTreeMap;

/// A directory of these files alone, as they are and whatever crash comes.
pub(crate) fn contents_of(
    alloc: Global,
    mut files: BTreeMap<u32, Vec<u8>>,
) -> Result<Contents, AllocError>
    ensures files { IfOk result (λ contents. AreFiles (reads (reverse contents.changes.items)) files) }
    ensures durable { IfOk result (λ contents. (image : Directory) → (crashes_of contents.changes.items).now image
        → image ≡ reads (reverse contents.changes.items)) }
    ensures adopted { IfOk result (λ contents. (n : ℕ) → IsSome (get (reads (reverse contents.changes.items)) n)
        → IsTrue (adopted_after (reverse contents.changes.items) n)) }
    ensures next { IfOk result (λ contents. IsLeastAbove (reads (reverse contents.changes.items)) contents.next) }
{
    let mut contents = Contents::new(alloc);
    'placing: while let Some((no, bytes)) = files.pop_first() {
        // No disk has a file of this number.
        if no == u32::MAX {
            return Err(AllocError);
        }
        contents.place(no, &bytes)?;
    }
    Ok(contents)
}
