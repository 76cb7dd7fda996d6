//! Times, names, series, values, cells and points: what a database of series is made of.
#![tactic(auto)]

mod batch;
mod block;
mod builder;
mod column;
mod key;
mod name;
mod point;
mod seed;
mod series;
mod spelled;
mod tag;
mod time;
mod value;

pub use batch::Batch;
pub use block::BlockFault;
pub use builder::BatchBuilder;
pub use column::Column;
pub use key::{KeyFault, composite, key_fault, mark_in_series, split};
pub use name::{Name, NameFault};
pub use point::{Cell, Point};
pub use seed::Seed;
pub use series::{SeriesFault, SeriesKey, reads_once};
pub use spelled::compare_spelled;
pub use tag::{Tag, Tags};
pub use time::Time;
pub use value::{Kind, Value};
