ghost use Rattle.std.specs.Prelude.{◌≡◌, ◌∷◌, List, [], ◌⊎◌, OnOk, None, reverse};
ghost use Rattle.std.specs.BTreeMap as tree;
ghost use Rattle.std.specs.Ordering.{nat_cmp};
ghost use Rattle.shard_disk.specs.Directory.{Appears, IfThere, Overwritten, Torn, Vanishes};
ghost use Rattle.mem_disk.specs.History.{bytes_of};
ghost use Rattle.mem_disk.specs.Replayed.{ChangesFile, Determines, Replays};

use crate::Change;
use crate::bytes::{overwrite, tear, write_over};
use crate::picks::Picks;
use std::alloc::{AllocError, Global};
use std::collections::BTreeMap;

/// A directory as its changes come: how the files read, and how a crash leaves them by one choice.
#[derive(Drop)]
pub(crate) struct Replay {
    alloc: Global,
    pub(crate) read: BTreeMap<u32, Vec<u8>>,
    pub(crate) left: BTreeMap<u32, Vec<u8>>,
}

impl Replay {
    pub(crate) fn new(alloc: Global) -> Replay
        ensures { Replays [] result.read result.left }
    {
        Replay {
            alloc,
            read: BTreeMap::new(alloc),
            left: BTreeMap::new(alloc),
        }
    }

    /// The files as a crash leaves them.
    pub(crate) fn into_left(self) -> BTreeMap<u32, Vec<u8>>
        ensures { result ≡ self.left }
    {
        self.left
    }

    /// Goes on by these changes, the oldest first.
    pub(crate) fn apply_all(
        &mut self,
        changes: &[Change],
        picks: &mut Picks,
    ) -> Result<(), AllocError>
        requires { Replays [] self.old.read self.old.left }
        ensures { OnOk result (Replays (reverse changes.now) self.new.read self.new.left) }
    {
        for change in changes {
            self.apply(change, picks)?;
        }
        Ok(())
    }

    /// Goes on by one change. Of what a crash leaves open a part is picked.
    fn apply(&mut self, change: &Change, picks: &mut Picks) -> Result<(), AllocError>
        ensures { OnOk result ((past : List Change) → Replays past self.old.read self.old.left
            → Replays (change.now ∷ past) self.new.read self.new.left) }
    {
        match change {
            Change::Added(no, bytes) => {
                put(self.alloc, &mut self.read, *no, bytes)?;
                put(self.alloc, &mut self.left, *no, bytes)?;
                Ok(())
            }
            Change::Offered(no, bytes) => {
                if picks.leaves_it() {
                    put(self.alloc, &mut self.left, *no, bytes)?;
                    return Ok(());
                }
                Ok(())
            }
            Change::Wrote(no, at, bytes) => {
                write(&mut self.read, *no, *at, bytes)?;
                tear_file(self.alloc, &mut self.left, *no, *at, bytes.len(), picks)?;
                Ok(())
            }
            Change::Tore(no, at, len) => {
                tear_file(self.alloc, &mut self.left, *no, *at, *len as usize, picks)?;
                Ok(())
            }
            Change::Synced(no) => {
                settle(self.alloc, &self.read, &mut self.left, *no)?;
                Ok(())
            }
            Change::Removed(no) => {
                take(&mut self.read, *no);
                if picks.leaves_it() {
                    return Ok(());
                }
                take(&mut self.left, *no);
                Ok(())
            }
            Change::Condemned(no) => {
                if picks.leaves_it() {
                    return Ok(());
                }
                take(&mut self.left, *no);
                Ok(())
            }
        }
    }
}

/// Puts a file in.
fn put(
    alloc: Global,
    files: &mut BTreeMap<u32, Vec<u8>>,
    no: u32,
    bytes: &[u8],
) -> Result<(), AllocError>
    ensures { OnOk result (ChangesFile no (Appears bytes.now) files.old files.new) }
{
    let copy = bytes.to_vec(alloc)?;
    if files.insert(no, copy).is_err() {
        return Err(AllocError);
    }
    Ok(())
}

/// Takes a file out, if it is there.
fn take(files: &mut BTreeMap<u32, Vec<u8>>, no: u32)
    ensures { ChangesFile no Vanishes files.old files.new }
{
    files.remove(&no);
}

/// Writes over a file, if it is there, and past its end.
fn write(
    files: &mut BTreeMap<u32, Vec<u8>>,
    no: u32,
    at: u64,
    bytes: &[u8],
) -> Result<(), AllocError>
    ensures { OnOk result (ChangesFile no (IfThere (Overwritten at bytes.now)) files.old files.new) }
{
    match files.get_mut(&no) {
        Some(file) => {
            write_over(file, at, bytes)?;
            Ok(())
        }
        None => Ok(()),
    }
}

/// Leaves of a write in a file, if it is there, what is picked.
fn tear_file(
    alloc: Global,
    files: &mut BTreeMap<u32, Vec<u8>>,
    no: u32,
    at: u64,
    len: usize,
    picks: &mut Picks,
) -> Result<(), AllocError>
    ensures { OnOk result (ChangesFile no (IfThere (Torn at len)) files.old files.new) }
{
    match files.get_mut(&no) {
        Some(file) => {
            tear(alloc, file, at, len, picks)?;
            Ok(())
        }
        None => Ok(()),
    }
}

/// Makes a file as it reads, if it was left.
fn settle(
    alloc: Global,
    read: &BTreeMap<u32, Vec<u8>>,
    left: &mut BTreeMap<u32, Vec<u8>>,
    no: u32,
) -> Result<(), AllocError>
    ensures { OnOk result (ChangesFile no (Determines (bytes_of (tree.get nat_cmp read.now no))) left.old left.new) }
{
    if !left.contains_key(&no) {
        return Ok(());
    }
    match read.get(&no) {
        Some(bytes) => {
            put(alloc, left, no, bytes)?;
            Ok(())
        }
        None => {
            take(left, no);
            Ok(())
        }
    }
}
