//! What a session meets of the outside: a source of bytes, a sink of bytes, a clock, a gate that tests may hold it
//! at, and the desk that opens and closes directories and the clients that have these.
#![tactic(auto)]

mod client;
mod clock;
mod closed;
mod desk;
mod failures;
mod gate;
mod host_clock;
mod host_sink;
mod host_source;
mod mem_clock;
mod mem_desk;
mod mem_sink;
mod mem_source;
mod report;
mod sink;
mod source;

pub use client::{Client, Word};
pub use clock::Clock;
pub use closed::Closed;
pub use desk::Desk;
pub use gate::{Gate, Place};
pub use host_clock::HostClock;
pub use host_sink::HostSink;
pub use host_source::HostSource;
pub use mem_clock::MemClock;
pub use mem_desk::MemDesk;
pub use mem_sink::MemSink;
pub use mem_source::MemSource;
pub use report::{End, Report};
pub use sink::Sink;
pub use source::Source;
