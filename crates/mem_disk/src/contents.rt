ghost use Rattle.std.specs.Prelude.{◌≡◌, ◌+◌, ◌^◌, ◌<◌, ◌≤◌, ◌++◌, [], ◌∷◌, ℕ, length, reverse, IsSome, OnOk, OnErr, vec_len, vec_capacity, true, false};
ghost use Rattle.std.proofs.Props.{props};
ghost use Rattle.std.specs.BTreeMap as tree;
ghost use Rattle.std.specs.BTreeMap.{btree_map_len};
ghost use Rattle.std.specs.BTreeSet as set;
ghost use Rattle.std.specs.BTreeSet.{btree_set_len};
ghost use Rattle.std.specs.FinMap as map;
ghost use Rattle.std.specs.Ordering.{nat_cmp};
ghost use Rattle.mem_disk.specs.History.{adopted_after, bytes_of, reads, settled};

use crate::Change;
use crate::bytes::overwrite;
use std::alloc::{AllocError, Global};
use std::collections::{BTreeMap, BTreeSet};

/// Files and all that was done to them. The room for the records of calls that take no memory is made before.
#[derive(Drop)]
pub(crate) struct Contents {
    pub(crate) alloc: Global,
    pub(crate) files: BTreeMap<u32, Vec<u8>>,
    /// All that was done, the oldest first.
    pub(crate) changes: Vec<Change>,
    /// Files that may have unsynced writes.
    pub(crate) unsynced: BTreeSet<u32>,
    /// Files of which no removal was begun, among others.
    pub(crate) unmarked: BTreeSet<u32>,
    /// The number that the next file has.
    pub(crate) next: u32,
    ghost agrees: { (n : ℕ) → bytes_of (tree.get nat_cmp files n) ≡ map.get (reads (reverse changes.items)) n } by { Prim.hlevel props },
    ghost below: { (n : ℕ) → IsSome (map.get (reads (reverse changes.items)) n) → n < next } by { Prim.hlevel props },
    ghost clean: { (n : ℕ) → IsSome (map.get (reads (reverse changes.items)) n) → set.contains nat_cmp unsynced n ≡ false → settled n (reverse changes.items) ≡ true } by { Prim.hlevel props },
    ghost marked: { (n : ℕ) → set.contains nat_cmp unmarked n ≡ false → adopted_after (reverse changes.items) n ≡ false } by { Prim.hlevel props },
    ghost room: { vec_len changes + (btree_set_len unsynced + (btree_map_len files + btree_set_len unmarked)) ≤ vec_capacity changes },
}

impl Contents {
    ghost use Rattle.shard_disk.specs.Crash.{Follows, IsDurable, Same};
    ghost use Rattle.shard_disk.specs.Directory.{Appears, ChangesAt, HasRange, IfThere, MadeOrNot, Overwritten, Torn, Vanishes};
    ghost use Rattle.mem_disk.specs.History.{Sets, crashes_of};
    ghost use Rattle.mem_disk.specs.Shown.{HasAsRead, LeavesExactly, Offers, Shows};

    pub(crate) fn new(alloc: Global) -> Contents
        ensures empty { result.changes.items ≡ [] }
        ensures first { result.next ≡ 0 }
    {
        Contents {
            alloc,
            files: BTreeMap::new(alloc),
            changes: Vec::new(alloc),
            unsynced: BTreeSet::new(alloc),
            unmarked: BTreeSet::new(alloc),
            next: 0,
        }
    }

    /// Puts a file in under this number.
    pub(crate) fn place(&mut self, no: u32, bytes: &[u8]) -> Result<(), AllocError>
        requires above { self.old.next ≤ no }
        requires limit { no + 1 < 2 ^ 32 }
        ensures file { OnOk result (ChangesAt no (Appears bytes.now) (reads (reverse self.old.changes.items)) (reads (reverse self.new.changes.items))) }
        ensures crash { OnOk result (LeavesExactly (ChangesAt no (Appears bytes.now)) (crashes_of self.old.changes.items) (crashes_of self.new.changes.items)) }
        ensures adopted { OnOk result (Sets no true (adopted_after (reverse self.old.changes.items)) (adopted_after (reverse self.new.changes.items))) }
        ensures next { OnOk result (self.new.next ≡ no + 1) }
        ensures err { OnErr result (self.new.changes.items ≡ self.old.changes.items) }
        ensures err_next { OnErr result (self.new.next ≡ self.old.next) }
    {
        let file = bytes.to_vec(self.alloc)?;
        let copy = bytes.to_vec(self.alloc)?;
        // Its own record, that of a removal that is refused, and that of the removal.
        make_room(
            &mut self.changes,
            &self.unsynced,
            &self.files,
            &self.unmarked,
            3,
        )?;
        self.unmarked.insert(no)?;
        if self.files.insert(no, file).is_err() {
            return Err(AllocError);
        }
        note(&mut self.changes, Change::Added(no, copy));
        self.next = no + 1;
        Ok(())
    }

    /// Notes an adoption that is refused after it was begun. Where no number is left there is nothing to begin.
    pub(crate) fn refuse(&mut self, bytes: &[u8]) -> Result<(), AllocError>
        ensures reads { reads (reverse self.new.changes.items) ≡ reads (reverse self.old.changes.items) }
        ensures crash { Follows (ChangesAt self.old.next (MadeOrNot (Appears bytes.now))) (crashes_of self.old.changes.items) (crashes_of self.new.changes.items) }
        ensures shows { OnOk result (Offers false true self.old.next bytes.now (crashes_of self.old.changes.items) (crashes_of self.new.changes.items)) }
        ensures adopted { adopted_after (reverse self.new.changes.items) ≡ adopted_after (reverse self.old.changes.items) }
        ensures next { self.old.next ≤ self.new.next }
        ensures err { OnErr result (self.new.changes.items ≡ self.old.changes.items) }
        ensures err_next { OnErr result (self.new.next ≡ self.old.next) }
    {
        if self.next == u32::MAX {
            return Ok(());
        }
        match self.offer(bytes) {
            Ok(()) => Ok(()),
            Err(AllocError) => Err(AllocError),
        }
    }

    /// Notes it. Its number is passed over.
    fn offer(&mut self, bytes: &[u8]) -> Result<(), AllocError>
        requires { self.old.next + 1 < 2 ^ 32 }
        ensures reads { OnOk result (reads (reverse self.new.changes.items) ≡ reads (reverse self.old.changes.items)) }
        ensures crash { OnOk result (LeavesExactly (ChangesAt self.old.next (MadeOrNot (Appears bytes.now))) (crashes_of self.old.changes.items) (crashes_of self.new.changes.items)) }
        ensures adopted { OnOk result (adopted_after (reverse self.new.changes.items) ≡ adopted_after (reverse self.old.changes.items)) }
        ensures next { OnOk result (self.new.next ≡ self.old.next + 1) }
        ensures err { OnErr result (self.new.changes.items ≡ self.old.changes.items) }
        ensures err_next { OnErr result (self.new.next ≡ self.old.next) }
    {
        let copy = bytes.to_vec(self.alloc)?;
        make_room(
            &mut self.changes,
            &self.unsynced,
            &self.files,
            &self.unmarked,
            1,
        )?;
        note(&mut self.changes, Change::Offered(self.next, copy));
        self.next += 1;
        Ok(())
    }

    /// Writes over what is there, and past the end.
    pub(crate) fn write(&mut self, no: u32, at: u64, bytes: &[u8]) -> Result<(), AllocError>
        requires { HasRange (reads (reverse self.old.changes.items)) no at 0 }
        ensures written { OnOk result (ChangesAt no (IfThere (Overwritten at bytes.now)) (reads (reverse self.old.changes.items)) (reads (reverse self.new.changes.items))) }
        ensures crash { OnOk result (LeavesExactly (ChangesAt no (IfThere (Torn at (length bytes.now)))) (crashes_of self.old.changes.items) (crashes_of self.new.changes.items)) }
        ensures adopted { OnOk result (adopted_after (reverse self.new.changes.items) ≡ adopted_after (reverse self.old.changes.items)) }
        ensures err { OnErr result (self.new.changes.items ≡ self.old.changes.items) }
        ensures next { self.new.next ≡ self.old.next }
    {
        let copy = bytes.to_vec(self.alloc)?;
        // Its own record, and that of the sync that follows.
        make_room(
            &mut self.changes,
            &self.unsynced,
            &self.files,
            &self.unmarked,
            2,
        )?;
        self.unsynced.insert(no)?;
        let file = self.files.get_mut(&no).unwrap();
        overwrite(file, at as usize, bytes)?;
        note(&mut self.changes, Change::Wrote(no, at, copy));
        Ok(())
    }

    /// Notes a write that is refused after it was begun.
    pub(crate) fn tear(&mut self, no: u32, at: u64, len: u64) -> Result<(), AllocError>
        ensures reads { OnOk result (reads (reverse self.new.changes.items) ≡ reads (reverse self.old.changes.items)) }
        ensures crash { OnOk result (LeavesExactly (ChangesAt no (IfThere (Torn at len))) (crashes_of self.old.changes.items) (crashes_of self.new.changes.items)) }
        ensures adopted { OnOk result (adopted_after (reverse self.new.changes.items) ≡ adopted_after (reverse self.old.changes.items)) }
        ensures err { OnErr result (self.new.changes.items ≡ self.old.changes.items) }
        ensures next { self.new.next ≡ self.old.next }
    {
        make_room(
            &mut self.changes,
            &self.unsynced,
            &self.files,
            &self.unmarked,
            2,
        )?;
        self.unsynced.insert(no)?;
        note(&mut self.changes, Change::Tore(no, at, len));
        Ok(())
    }

    /// Makes a file durable.
    pub(crate) fn sync(&mut self, no: u32)
        requires { IsSome (map.get (reads (reverse self.old.changes.items)) no) }
        ensures durable { IsDurable (reads (reverse self.old.changes.items)) (crashes_of self.new.changes.items) no }
        ensures reads { reads (reverse self.new.changes.items) ≡ reads (reverse self.old.changes.items) }
        ensures crash { Follows Same (crashes_of self.old.changes.items) (crashes_of self.new.changes.items) }
        ensures shows { Shows (HasAsRead no (reads (reverse self.old.changes.items))) (crashes_of self.old.changes.items) (crashes_of self.new.changes.items) }
        ensures adopted { adopted_after (reverse self.new.changes.items) ≡ adopted_after (reverse self.old.changes.items) }
        ensures next { self.new.next ≡ self.old.next }
    {
        // Where nothing was written a crash leaves what a read gives as it is.
        if !self.unsynced.remove(&no) {
            return;
        }
        note(&mut self.changes, Change::Synced(no));
    }

    /// Takes a file out, if it is there.
    pub(crate) fn remove(&mut self, no: u32)
        ensures removed { ChangesAt no Vanishes (reads (reverse self.old.changes.items)) (reads (reverse self.new.changes.items)) }
        ensures crash { LeavesExactly (ChangesAt no (MadeOrNot Vanishes)) (crashes_of self.old.changes.items) (crashes_of self.new.changes.items) }
        ensures adopted { Sets no false (adopted_after (reverse self.old.changes.items)) (adopted_after (reverse self.new.changes.items)) }
        ensures next { self.new.next ≡ self.old.next }
    {
        if self.files.remove(&no).is_none() {
            return;
        }
        note(&mut self.changes, Change::Removed(no));
    }

    /// Notes a removal that is refused.
    pub(crate) fn condemn(&mut self, no: u32)
        ensures reads { reads (reverse self.new.changes.items) ≡ reads (reverse self.old.changes.items) }
        ensures crash { LeavesExactly (ChangesAt no (MadeOrNot Vanishes)) (crashes_of self.old.changes.items) (crashes_of self.new.changes.items) }
        ensures adopted { Sets no false (adopted_after (reverse self.old.changes.items)) (adopted_after (reverse self.new.changes.items)) }
        ensures next { self.new.next ≡ self.old.next }
    {
        // A second refusal adds nothing to what a crash may leave.
        if !self.unmarked.remove(&no) {
            return;
        }
        note(&mut self.changes, Change::Condemned(no));
    }
}

/// Notes a change where the room for it is there.
fn note(changes: &mut Vec<Change>, change: Change)
    requires { vec_len changes.old < vec_capacity changes.old }
    ensures items { changes.new.items ≡ changes.old.items ++ change ∷ [] }
    ensures len { vec_len changes.new ≡ vec_len changes.old + 1 }
    ensures room { vec_capacity changes.old ≤ vec_capacity changes.new }
{
    let _ = changes.push(change);
}

/// Makes room for so many records more, besides those that may come without asking for memory.
fn make_room(
    changes: &mut Vec<Change>,
    unsynced: &BTreeSet<u32>,
    files: &BTreeMap<u32, Vec<u8>>,
    unmarked: &BTreeSet<u32>,
    more: usize,
) -> Result<(), AllocError>
    ensures items { changes.new.items ≡ changes.old.items }
    ensures len { vec_len changes.new ≡ vec_len changes.old }
    ensures capacity { vec_capacity changes.old ≤ vec_capacity changes.new }
    ensures ok { OnOk result (vec_len changes.new + (btree_set_len unsynced.now + (btree_map_len files.now + btree_set_len unmarked.now)) + more
        ≤ vec_capacity changes.new) }
{
    let Some(owed) = (unsynced.len() + files.len()).checked_add(unmarked.len()) else {
        return Err(AllocError);
    };
    let Some(room) = owed.checked_add(more) else {
        return Err(AllocError);
    };
    changes.reserve(room)
}
