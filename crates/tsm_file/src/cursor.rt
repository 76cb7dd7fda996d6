ghost use Rattle.std.specs.Prelude.{◌≡◌, ◌≢◌, ◌+◌, List, ℕ, [], length, All, Ok, Err, None, IsTrue, IfOk, OnOk, OnErr, IsErrOf};
ghost use Rattle.shard_disk.specs.Health.{Ages, Failed};
ghost use Rattle.shard_disk.specs.declared.damage.Damage.{Damage};
ghost use Rattle.tombstones.specs.Covered.{Tomb};
ghost use Rattle.point_model.specs.Rows.{Row};
ghost use Rattle.tsm_file.specs.ReadIndex.{HasIndex};
ghost use Rattle.tsm_file.specs.ReadBlocks.{IsWithin, KeyHas};
ghost use Rattle.tsm_file.specs.ReadPoints.{Asked, Begins, Gives, IsLive, IsNextWrong, Picks, Stays, Steps, Takes, directed, given_by};

use crate::TsmIndex;
use crate::block::read_block;
use crate::pick::{keep_live, last_first, meeting_of};
use point_model::CursorFault;
use shard_disk::Reader;
use std::alloc::{AllocError, Global};
use std::marker::Model;
use tombstones::TombSet;
use tsdb_types::{Kind, Time, Value};
use tsm_format::Entry;

/// The points of one key of a file from one time to another, one after the other. It keeps the points of one block at a
/// time, 1,000 at most, and reads each block once, when its points are due.
#[derive(Drop)]
pub struct TsmCursor {
    file: u32,
    kind: Kind,
    key: Vec<u8>,
    from: Time,
    to: Time,
    descending: bool,
    /// The blocks that aren't read yet. The next one stands last.
    blocks: Vec<Entry>,
    /// The points that were read and aren't given yet. The next one stands last.
    points: Vec<(Time, Value)>,
    alloc: Global,
}

impl Model for TsmCursor {
    ghost use Rattle.std.specs.Prelude.{reverse};
    ghost use Rattle.tsm_file.specs.ReadPoints.{Cursor};

    ghost Value = { Cursor };

    ghost view = { λ c. record {
      file = c.file;
      kind = c.kind;
      asked = record { key = c.key.items; from = c.from; to = c.to; descending = c.descending };
      blocks = reverse c.blocks.items;
      points = reverse c.points.items;
    } };
}

impl TsmCursor {
    /// A cursor over the points of a key from one time to another, both included. It reads nothing yet, and never a
    /// block outside the bounds. A key that the file lacks has no points.
    pub fn new(
        alloc: Global,
        index: &TsmIndex,
        key: &[u8],
        from: Time,
        to: Time,
        descending: bool,
    ) -> Result<TsmCursor, AllocError>
        ensures begins { let asked : Asked = record { key = key.now; from = from; to = to; descending = descending } in
            IfOk result (λ cursor. Begins index.now asked cursor) }
        // The blocks that it reads lie within the file of the index.
        ensures within { IfOk result (λ cursor. (bytes : List ℕ) → HasIndex bytes index.now.rows → All (IsWithin bytes) cursor.blocks) }
        // Over the file of the index it gives the live points of the key, one after the other.
        ensures gives { let asked : Asked = record { key = key.now; from = from; to = to; descending = descending } in
            IfOk result (λ cursor. (bytes : List ℕ) (tombs : List Tomb) (points live : List Row) → KeyHas bytes index.now.rows key.now points
            → Picks (IsLive tombs asked) points live → Gives bytes tombs cursor (directed descending live)) }
    {
        let (kind, mut blocks) = meeting_of(alloc, index, key, from, to)?;
        last_first(&mut blocks, descending);
        Ok(TsmCursor {
            file: index.file(),
            kind,
            key: Vec::from_slice(alloc, key)?,
            from,
            to,
            descending,
            blocks,
            points: Vec::new(alloc),
            alloc,
        })
    }

    /// The next point that no tombstone hides. `None` where none is left. It reads no block while points of an earlier
    /// one are left. After a refusal the next call begins where this one did.
    pub fn next<R: Reader>(
        &mut self,
        reader: &mut R,
        tombs: &TombSet,
    ) -> Result<Option<(Time, Value)>, CursorFault>
        requires { IsTrue R.tells → All (IsWithin (R.content reader.old)) self.old.blocks }

        // Also a refused call may have read blocks, of which each is sound and has no live point.
        ensures takes { IsTrue R.tells → Takes (R.content reader.old) tombs.now self.old (given_by result) self.new }
        ensures ended { result ≡ Ok None → (self.new.blocks ≡ []) × (self.new.points ≡ []) }
        ensures damaged { (damage : Damage) → result ≡ Err (CursorFault.Damaged damage) → IsTrue R.tells
            → IsNextWrong (R.content reader.old) self.new damage }

        // Over a sound file it gives the points one after the other, and is never damaged.
        ensures steps { IsTrue R.tells → (given : List Row) → Gives (R.content reader.old) tombs.now self.old given
            → Steps (R.content reader.old) tombs.now given result self.new }

        ensures fault { IsErrOf result CursorFault.Fault → Failed (R.health reader.old) (R.health reader.new) }
        ensures content { R.content reader.new ≡ R.content reader.old }
        ensures file { R.file reader.new ≡ R.file reader.old }
        ensures ages { Ages (R.health reader.old) (R.health reader.new) }
    {
        self.fill(reader, tombs)?;
        Ok(self.points.pop())
    }

    /// Reads blocks until a point is ready or no block is left.
    fn fill<R: Reader>(&mut self, reader: &mut R, tombs: &TombSet) -> Result<(), CursorFault>
        requires { IsTrue R.tells → All (IsWithin (R.content reader.old)) self.old.blocks }
        ensures takes { IsTrue R.tells → Takes (R.content reader.old) tombs.now self.old [] self.new }
        ensures ended { OnOk result (self.new.points ≡ [] → self.new.blocks ≡ []) }
        ensures damaged { (damage : Damage) → result ≡ Err (CursorFault.Damaged damage) → IsTrue R.tells
            → IsNextWrong (R.content reader.old) self.new damage }
        ensures stays { IsTrue R.tells → (given : List Row) → Gives (R.content reader.old) tombs.now self.old given
            → Stays (R.content reader.old) tombs.now given result self.new }
        ensures err { OnErr result (self.new.points ≡ []) }
        ensures fault { IsErrOf result CursorFault.Fault → Failed (R.health reader.old) (R.health reader.new) }
        ensures content { R.content reader.new ≡ R.content reader.old }
        ensures file { R.file reader.new ≡ R.file reader.old }
        ensures ages { Ages (R.health reader.old) (R.health reader.new) }
    {
        while self.points.is_empty() && !self.blocks.is_empty() {
            self.read_next(reader, tombs)?;
        }
        Ok(())
    }

    /// Reads the next block, whose live points are ready from then on.
    fn read_next<R: Reader>(&mut self, reader: &mut R, tombs: &TombSet) -> Result<(), CursorFault>
        requires within { IsTrue R.tells → All (IsWithin (R.content reader.old)) self.old.blocks }
        requires none_ready { self.old.points ≡ [] }
        requires some { self.old.blocks ≢ [] }
        ensures ok { OnOk result (IsTrue R.tells → Takes (R.content reader.old) tombs.now self.old [] self.new) }
        ensures shorter { OnOk result (length self.new.blocks + 1 ≡ length self.old.blocks) }
        ensures err { OnErr result (self.new ≡ self.old) }
        ensures damaged { (damage : Damage) → result ≡ Err (CursorFault.Damaged damage) → IsTrue R.tells
            → IsNextWrong (R.content reader.old) self.old damage }
        ensures stays { IsTrue R.tells → (given : List Row) → Gives (R.content reader.old) tombs.now self.old given
            → Stays (R.content reader.old) tombs.now given result self.new }
        ensures fault { IsErrOf result CursorFault.Fault → Failed (R.health reader.old) (R.health reader.new) }
        ensures content { R.content reader.new ≡ R.content reader.old }
        ensures file { R.file reader.new ≡ R.file reader.old }
        ensures ages { Ages (R.health reader.old) (R.health reader.new) }
    {
        let left = self.blocks.len() - 1;
        let entry = &self.blocks[left];
        let mut points = read_block(self.alloc, reader, self.file, self.kind, entry)?;
        keep_live(&mut points, tombs, &self.key, self.from, self.to);
        last_first(&mut points, self.descending);
        self.points = points;
        self.blocks.truncate(left);
        Ok(())
    }
}
