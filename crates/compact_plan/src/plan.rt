ghost use Rattle.std.specs.Prelude.{◌+◌, ◌<◌, ◌≤◌, ◌↔◌, IfSome, IsNone, MatchOption};
ghost use Rattle.compact_plan.specs.Plans.{IsPlan, NoPlan};
ghost use Rattle.compact_plan.specs.Laws.{OnePlan};

use crate::Group;
use crate::window::{first_group, size_at_level};
use file_table::FileTable;

/// The group of levels 1 to 3 that the next merge takes: of the lowest level that has one, the first.
pub fn plan_level(table: &FileTable) -> Option<Group>
    ensures found { IfSome result (IsPlan 1 3 table.now.rows) }
    ensures none { IsNone result ↔ NoPlan 1 3 table.now.rows }
{
    first_of_levels(table, 1, 3)
}

/// The group of level 4 that the next full merge takes: the first.
pub fn plan_full(table: &FileTable) -> Option<Group>
    ensures found { IfSome result (IsPlan 4 4 table.now.rows) }
    ensures none { IsNone result ↔ NoPlan 4 4 table.now.rows }
{
    first_of_levels(table, 4, 4)
}

/// At most one group is the plan of some levels; and where the lower of them have none, it is the plan of those above.
pub fn one_plan()
    ensures { OnePlan }
{}

// The first group of the lowest of these levels that has one.
fn first_of_levels(table: &FileTable, lowest: u8, highest: u8) -> Option<Group>
    requires { highest < 255 }
    ensures { MatchOption result (NoPlan lowest highest table.now.rows) (IsPlan lowest highest table.now.rows) }
{
    for level in lowest..highest + 1 {
        if let Some(first) = first_group(table, level) {
            return Some(Group {
                first,
                count: size_at_level(level),
            });
        }
    }
    None
}
