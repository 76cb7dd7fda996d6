//! Where the points of a session are kept: what every store promises, and a store in memory.
#![tactic(auto)]

mod fault;
mod gather;
mod heading;
mod list_view;
mod names;
mod note;
mod plain;
mod removal;
mod room;
mod samples;
mod slots;
mod store;
mod tags;

pub use fault::{DeleteFault, ViewFault, WriteFault};
pub use heading::Heading;
pub use list_view::ListView;
pub use names::heading_of;
pub use note::{EntryNote, add_note};
pub use plain::PlainStore;
pub use store::{Store, alone_changes_itself};
pub use tags::add_tag_keys;
