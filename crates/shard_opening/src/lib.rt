//! Opening and closing an engine: the entries of its log are read one by one into the points in memory, each where it may stand
//! behind those before it.
#![tactic(auto)]

mod filling;
mod kinds;
mod opening;
mod segments;
mod taking;

pub use gate_log::LogFault as OpenFault;
pub use opening::{close, open};
pub use taking::{TakeFault, take_in};
