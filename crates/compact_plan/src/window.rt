// The first group of one level.
ghost use Rattle.std.specs.Prelude.{◌≡◌, ℕ, ◌<◌, ◌↔◌, IfSome, IfNone, IsTrue};
ghost use Rattle.compact_plan.specs.Plans.{BeginsGroup, IsIdle, size_at};

use file_table::{FileRow, FileTable};

/// The entries that one key may have in a file's index.
const MOST_ENTRIES: u64 = 65535;

/// How many rows of a level are merged at once.
pub fn size_at_level(level: u8) -> usize
    ensures { result ≡ size_at level }
{
    if level == 1 { 8 } else { 4 }
}

/// Whether the row is of this level and no source of a merge.
pub fn is_idle(row: &FileRow, level: u8) -> bool
    ensures { IsTrue result ↔ IsIdle level row.now }
{
    row.level == level && !row.busy
}

/// The first place at which a group of the level begins. One pass: the idle rows behind which no group ended are a window,
/// shorter than a group, whose entries are counted as it moves.
pub fn first_group(table: &FileTable, level: u8) -> Option<usize>
    ensures begins { IfSome result (BeginsGroup table.now.rows level) }
    ensures first { IfSome result (λ place. (earlier : ℕ) → earlier < place → ¬ BeginsGroup table.now.rows level earlier) }
    ensures none { IfNone result ((place : ℕ) → ¬ BeginsGroup table.now.rows level place) }
{
    let size = size_at_level(level);
    let mut start = 0;
    let mut entries = 0;
    for k in 0..table.len() {
        let row = table.row(k);
        if !is_idle(row, level) {
            start = k + 1;
            entries = 0;
            continue;
        }
        entries += u64::from(row.most_entries);
        if k + 1 - start < size {
            continue;
        }
        if entries <= MOST_ENTRIES {
            return Some(start);
        }
        entries -= u64::from(table.row(start).most_entries);
        start += 1;
    }
    None
}
