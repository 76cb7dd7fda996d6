//! The pure machine of the engine: its state, its events and its invariant, with a law for each event. No code runs in it.
#![tactic(auto)]

mod laws;

pub use laws::{crashes_leave, events_come, events_keep, every_list_keeps, fields_give_contents};
