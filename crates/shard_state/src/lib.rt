//! The durable half of an engine over one directory: its manifest, its series file and its segments, without any point in
//! memory. An entry is added so that a crash at any moment leaves the entries before it, with it or without.
#![tactic(auto)]

mod closing;
mod enter;
mod first_files;
mod laws;
mod logs;
mod prepare;

pub use closing::close;
pub use first_files::create;
pub use laws::{crashes_keep_entries, histories_go_on};
pub use logs::Logs;
pub use prepare::Prepared;
