//! A session: reads a client's requests from a source, one after another, and writes the reply to each into a sink before
//! the next is served. `session` serves a client over any store.
#![tactic(auto)]

mod client;
mod gathering;
mod line;
mod pending;
mod pieces;
mod read;
mod replies;
mod select;
mod serve;
mod shape;
mod whole;
mod words;

pub use whole::{session, sessions_compose};
