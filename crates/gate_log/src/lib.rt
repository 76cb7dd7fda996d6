//! A list of records in one file of a disk. A record is added whole or not at all, whenever a crash comes.
#![tactic(auto)]

mod decode;
mod fault;
mod frame;
mod laws;
mod log;
mod read;

pub use fault::LogFault;
pub use frame::Frame;
pub use laws::one_list;
pub use log::Log;
