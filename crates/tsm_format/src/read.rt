ghost use Rattle.std.specs.Prelude.{◌≡◌, ◌+◌, ◌<◌, ◌^◌, List, length, Result, Ok, Err, IfOk};
ghost use Rattle.shard_disk.specs.declared.damage.Damage.{Damage};
ghost use Rattle.tsm_format.specs.declared.row.KeyRow.{KeyRow};
ghost use Rattle.tsm_format.specs.Faults.{Reads, Answers};

use crate::KeyRow;
use crate::rows::{row_end, row_len, take_row};
use shard_disk::{Damage, FormatFault, Why};
use std::alloc::Global;

/// The rows of an index that begins at `start` in the file with this number. The bytes are those from there up to the
/// footer.
pub fn read_index(
    alloc: Global,
    bytes: &[u8],
    file: u32,
    start: u64,
) -> Result<Vec<KeyRow>, FormatFault>
    requires { start + length bytes.now < 2 ^ 64 }
    ensures found { IfOk result (λ rows. Reads file start bytes.now (Ok rows.items)) }
    ensures damaged { (damage : Damage) → result ≡ Err (FormatFault.Damaged damage) → Reads file start bytes.now (Err damage) }
    // There is one answer, but for want of memory.
    ensures only { (answer : Result (List KeyRow) Damage) → Reads file start bytes.now answer → Answers result answer }
{
    read_rows(alloc, bytes, file, start)
}

fn read_rows(alloc: Global, bytes: &[u8], file: u32, start: u64) -> Result<Vec<KeyRow>, FormatFault>
    requires { start + length bytes.now < 2 ^ 64 }
    ensures found { IfOk result (λ rows. Reads file start bytes.now (Ok rows.items)) }
    ensures damaged { (damage : Damage) → result ≡ Err (FormatFault.Damaged damage) → Reads file start bytes.now (Err damage) }
{
    let mut rows = Vec::new(alloc);
    let mut end = Some(5);
    let mut rest = bytes;
    while !rest.is_empty() {
        let Some(row) = take_row(alloc, rest, &rows, end)? else {
            return Err(damage(file, start + (bytes.len() - rest.len()) as u64));
        };
        end = row_end(&row);
        let (_, behind) = rest.split_at(row_len(&row));
        rest = behind;
        rows.push(row)?;
    }
    if rows.is_empty() || end != Some(start) {
        return Err(damage(file, start));
    }
    Ok(rows)
}

fn damage(file: u32, offset: u64) -> FormatFault
    ensures { result ≡ FormatFault.Damaged (record { file = file; offset = offset; why = Why.Keys }) }
{
    FormatFault::Damaged(Damage {
        file,
        offset,
        why: Why::Keys,
    })
}
