//! The points of an engine in memory, without any disk: which they are, with which of them a batch is in conflict, the room for
//! a batch, its setting, what a deletion takes away, and views of them.
#![tactic(auto)]

mod conflicts;
mod gather;
mod keys;
mod kinds;
mod names;
mod points;
mod removal;
mod samples;

pub use points::LivePoints;
pub use removal::Removal;
