//! The log of accepted entries, in segments: each segment is a log whose records are an entry each, with its number.
//! `docs/FORMATS.md` draws the record.
#![tactic(auto)]

mod condition;
mod entry;
mod fault;
mod framed;
mod group;
mod laws;
mod point;
mod record;
mod replay;
mod segments;
mod text;
mod wal;

pub use entry::{one_entry, read_entry, write_entry};
pub use fault::EntryFault;
pub use framed::WalRecord;
pub use laws::{one_segment_read, records_fit, records_hold};
pub use replay::{Place, Replay};
pub use wal::Wal;
