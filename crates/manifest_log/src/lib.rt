//! The manifest of a directory: a log whose records are edits. Each edit is a list of changes that hold together, of
//! which files there are and up to which entry they hold points. `docs/FORMATS.md` draws it.
#![tactic(auto)]

mod apply;
mod change;
mod directory;
mod laws;
mod look;
mod manifest;
mod opening;
mod put;
mod read;
mod sound;
mod take;

pub use change::{Change, Changes, Edit};
pub use directory::{Directory, Files, Segments};
pub use laws::{edits_lead, one_manifest, one_reading};
pub use manifest::Manifest;
