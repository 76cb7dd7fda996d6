ghost use Rattle.std.specs.Prelude.{◌+◌, ◌<◌, ◌≤◌, length};
ghost use Rattle.compact_plan.specs.Merges.{IsMerged};

use crate::Group;
use file_table::FileTable;

/// What the row of a merged file has of the rows that it takes the place of.
#[derive(Clone, Copy, Debug, PartialEq, Eq)]
pub struct Merged {
    pub generation: u64,
    pub sequence: u32,
    /// 2 to 4 where the group was planned.
    pub level: u8,
}

/// The generation, sequence and level of the file that a merge of these rows makes.
pub fn after_merge(table: &FileTable, group: Group) -> Merged
    requires some { 0 < group.count }
    requires within { group.first + group.count ≤ length table.now.rows }
    ensures { IsMerged table.now.rows group result }
{
    // No place behind rows of the table passes its length.
    let behind = group.first.saturating_add(group.count).min(table.len());
    let newest = table.row(behind - 1);
    Merged {
        generation: newest.generation,
        sequence: newest.sequence.saturating_add(1),
        level: newest.level.saturating_add(1).min(HIGHEST_LEVEL),
    }
}

const HIGHEST_LEVEL: u8 = 4;
