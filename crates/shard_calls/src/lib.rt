//! A store over an engine that nobody shares: one client's writes, each an entry of the engine, and its views of the points in memory.
#![tactic(auto)]

mod alone;
mod engine_disk;
mod noting;
mod site;

pub use alone::Alone;
pub use engine_disk::EngineDisk;
pub use noting::{NotedAttempt, attempt, deletion_attempt};
pub use site::Site;
