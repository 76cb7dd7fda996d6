//! One client over an opened engine: the session is served, the engine is closed, and the disk comes back.
#![tactic(auto)]

mod directory;
mod serving;

pub use directory::{ShellEnd, shell};
pub use serving::{Ended, close_unserved, serve};
