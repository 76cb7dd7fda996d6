//! An engine behind a turn, and the store that one client of several has of it.
#![tactic(auto)]

mod engine;
mod news;
mod place;
mod shared;

pub use engine::{Engine, Entered, Lent, Refusal};
pub use place::Place;
pub use shared::Shared;
