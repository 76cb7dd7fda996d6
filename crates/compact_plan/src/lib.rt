//! Which files of a `file_table` a merge takes next: the first group of the lowest level that has one, and what the row of
//! the merged file has of its group.
#![tactic(auto)]

mod group;
mod merged;
mod plan;
mod window;

pub use group::Group;
pub use merged::{Merged, after_merge};
pub use plan::{one_plan, plan_full, plan_level};
