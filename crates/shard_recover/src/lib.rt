//! Opening a directory: its manifest and its series file are read, or made where it is new; and once its entries are taken in, the files
//! that the manifest doesn't name are removed and the logs are joined.
#![tactic(auto)]

mod beginning;
mod joining;
mod laws;
mod new;
mod parts;
mod present;
mod sweep;

pub use beginning::begin;
pub use joining::join;
pub use laws::{one_damage, sound_directories_are_undamaged};
pub use new::open_new;
pub use parts::{Begun, Parts};
pub use present::{is_there, missing};
