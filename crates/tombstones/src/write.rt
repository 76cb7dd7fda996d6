ghost use Rattle.std.specs.Prelude.{◌≡◌, ◌++◌, ◌^◌, ◌<◌, length, OnOk, IfOk};
ghost use Rattle.std.specs.List.{flat_map, AllByRecursion};
ghost use Rattle.tombstones.specs.Kept.{tombs_of, tombs_with, AreRows};
ghost use Rattle.tombstones.specs.Ranges.{AreApart};
ghost use Rattle.tombstones.specs.Covered.{AreFewest};
ghost use Rattle.tombstones.specs.Format.{file_of, tomb_bytes};

use crate::ranges::Ranges;
use crate::{TombRange, TombSet};
use fixed_width::{put_i64, put_u32};
use std::alloc::{AllocError, Global};
use std::collections::BTreeMap;

/// The mark of version 2, with which a file of tombstones begins.
pub(crate) const HEAD: [u8; 4] = [0x00, 0x00, 0x15, 0x02];

/// The file of a set: the head `00 00 15 02`, and then for each range the length of its key (4 bytes), the key, and
/// the first and the last time (8 bytes each). The keys ascend, and for each key stand the fewest ranges, ascending,
/// so sets that hide the same have one file.
pub fn write_v2(alloc: Global, set: &TombSet) -> Result<Vec<u8>, AllocError>
    ensures ok { IfOk result (λ bytes. bytes.items ≡ file_of set.now) }
    ensures fewest { IfOk result (λ bytes. AreFewest set.now) }
{
    let mut out = Vec::new(alloc);
    out.extend_from_slice(&HEAD)?;
    put_rows(&mut out, set.rows())?;
    Ok(out)
}

fn put_rows(out: &mut Vec<u8>, rows: &BTreeMap<Vec<u8>, Ranges>) -> Result<(), AllocError>
    requires { AreRows rows.now.entries }
    ensures ok { OnOk result (out.new.items ≡ out.old.items ++ flat_map tomb_bytes (tombs_of rows.now.entries)) }
    ensures apart { OnOk result (AllByRecursion (λ row. AreApart row.1) rows.now.entries) }
{
    for (key, ranges) in rows {
        put_row(out, key, ranges.as_slice())?;
    }
    Ok(())
}

// The ranges of one key.
fn put_row(out: &mut Vec<u8>, key: &[u8], ranges: &[TombRange]) -> Result<(), AllocError>
    requires { length key.now < 2 ^ 32 }
    ensures { OnOk result (out.new.items ≡ out.old.items ++ flat_map tomb_bytes (tombs_with key.now ranges.now)) }
{
    for range in ranges {
        put_tomb(out, key, range)?;
    }
    Ok(())
}

fn put_tomb(out: &mut Vec<u8>, key: &[u8], range: &TombRange) -> Result<(), AllocError>
    requires { length key.now < 2 ^ 32 }
    ensures { OnOk result (out.new.items ≡ out.old.items ++ tomb_bytes (record { key = key.now; range = range.now })) }
{
    put_u32(out, key.len() as u32)?;
    out.extend_from_slice(key)?;
    put_i64(out, range.from.get())?;
    put_i64(out, range.to.get())
}
