ghost use Rattle.std.specs.Prelude.{◌≡◌, ◌≤◌, ◌+◌, length, Result, Ok, Err, IsTrue, IfOk, IsErrOf};
ghost use Rattle.shard_disk.specs.Health.{Ages, Failed};
ghost use Rattle.shard_disk.specs.declared.damage.Damage.{Damage};
ghost use Rattle.tsm_file.specs.ReadIndex.{Index, ReadsFile, AnswersIndex, Frames, IsUnframed};

use crate::TsmIndex;
use crate::bytes::bytes_of;
use point_model::CursorFault;
use shard_disk::{Damage, FormatFault, Reader, Why};
use std::alloc::Global;
use tsm_format::{index_place, read_index};

/// The bytes of the footer.
const FOOT_LEN: u64 = 8;

/// The least length of a file.
const LEAST_LEN: u64 = 13;

impl TsmIndex {
    /// The index of the file that the reader reads, which has this number. The blocks aren't read.
    pub fn read<R: Reader>(
        alloc: Global,
        reader: &mut R,
        file: u32,
    ) -> Result<TsmIndex, CursorFault>
        ensures found { IfOk result (λ index. IsTrue R.tells → ReadsFile file (R.content reader.old) (Ok index)) }
        ensures number { IfOk result (λ index. index.file ≡ file) }
        ensures damaged { (damage : Damage) → result ≡ Err (CursorFault.Damaged damage) → IsTrue R.tells → ReadsFile file (R.content reader.old) (Err damage) }
        // There is one answer, but for a fault of the reader or want of memory.
        ensures only { IsTrue R.tells → (answer : Result Index Damage) → ReadsFile file (R.content reader.old) answer → AnswersIndex result answer }
        ensures fault { IsErrOf result CursorFault.Fault → Failed (R.health reader.old) (R.health reader.new) }

        ensures content { R.content reader.new ≡ R.content reader.old }
        ensures file { R.file reader.new ≡ R.file reader.old }
        ensures ages { Ages (R.health reader.old) (R.health reader.new) }
    {
        let len = reader.len();
        read_file(alloc, reader, len, file)
    }
}

/// The index of a file of this length.
fn read_file<R: Reader>(
    alloc: Global,
    reader: &mut R,
    len: u64,
    file: u32,
) -> Result<TsmIndex, CursorFault>
    requires { IsTrue R.tells → len ≡ length (R.content reader.old) }
    ensures found { IfOk result (λ index. IsTrue R.tells → ReadsFile file (R.content reader.old) (Ok index)) }
    ensures number { IfOk result (λ index. index.file ≡ file) }
    ensures damaged { (damage : Damage) → result ≡ Err (CursorFault.Damaged damage) → IsTrue R.tells → ReadsFile file (R.content reader.old) (Err damage) }
    ensures fault { IsErrOf result CursorFault.Fault → Failed (R.health reader.old) (R.health reader.new) }
    ensures content { R.content reader.new ≡ R.content reader.old }
    ensures file { R.file reader.new ≡ R.file reader.old }
    ensures ages { Ages (R.health reader.old) (R.health reader.new) }
{
    let start = find_index(reader, len, file)?;
    let size = len - FOOT_LEN - start;
    let bytes = bytes_of(alloc, reader, start, size as usize)?;
    match read_index(alloc, &bytes, file, start) {
        Ok(rows) => Ok(TsmIndex::of_rows(file, rows)),
        Err(FormatFault::Damaged(damage)) => Err(CursorFault::Damaged(damage)),
        Err(FormatFault::Memory) => Err(CursorFault::Memory),
    }
}

/// Where the index of a file of this length begins, by its header and its footer.
fn find_index<R: Reader>(reader: &mut R, len: u64, file: u32) -> Result<u64, CursorFault>
    requires { IsTrue R.tells → len ≡ length (R.content reader.old) }
    ensures place { IfOk result (λ start. start + 8 ≤ len) }
    ensures found { IfOk result (λ start. IsTrue R.tells → Frames file (R.content reader.old) (Ok start)) }
    ensures damaged { (damage : Damage) → result ≡ Err (CursorFault.Damaged damage) → IsTrue R.tells → IsUnframed file (R.content reader.old) damage }
    ensures fault { IsErrOf result CursorFault.Fault → Failed (R.health reader.old) (R.health reader.new) }
    ensures content { R.content reader.new ≡ R.content reader.old }
    ensures file { R.file reader.new ≡ R.file reader.old }
    ensures ages { Ages (R.health reader.old) (R.health reader.new) }
{
    if len < LEAST_LEN {
        return Err(CursorFault::Damaged(Damage {
            file,
            offset: 0,
            why: Why::Foot,
        }));
    }
    let mut head = [0; 5];
    reader.read_at(0, &mut head)?;
    let mut foot = [0; 8];
    reader.read_at(len - FOOT_LEN, &mut foot)?;
    match index_place(&head, &foot, len, file) {
        Ok(start) => Ok(start),
        Err(damage) => Err(CursorFault::Damaged(damage)),
    }
}
