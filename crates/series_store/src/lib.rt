//! The series of a directory with their ids: a log whose records are lists of series keys, and all keys in memory, by id
//! and by key. `docs/FORMATS.md` draws the record.
#![tactic(auto)]

mod held;
mod laws;
mod new_series;
mod put;
mod read;
mod series;
mod take;

pub use laws::{batch_has_room, one_file, records_hold};
pub use new_series::NewSeries;
pub use series::Series;
