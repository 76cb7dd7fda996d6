//! Clients on threads over one engine: each is served by a session of its own, then the engine is closed, and the disk comes back.
#![tactic(auto)]

mod client;
mod one;
mod seats;
mod serving;
mod whole;

pub use client::{EngineClient, Seated};
pub use serving::{Ended, serve};
