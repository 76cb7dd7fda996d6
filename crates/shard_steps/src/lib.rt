//! The steps of an engine over one directory: its logs and the points in memory, joined. A write or a deletion enters
//! the logs before the points in memory change, and a view shows these.
#![tactic(auto)]

mod deleting;
mod facts;
mod settings;
mod shard;
mod unheld;
mod view;
mod writing;

pub use deleting::delete;
pub use facts::Facts;
pub use settings::Settings;
pub use shard::Shard;
pub use view::{begin_view, end_view};
pub use writing::write;
