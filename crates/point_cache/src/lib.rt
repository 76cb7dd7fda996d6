//! The points that a log holds and no file yet, in memory: a map from composite keys and times to values, which grows by
//! whole batches and becomes a snapshot on its way to a file. It stands on `point_model` and `tombstones`.
#![tactic(auto)]

mod cache;
mod freezing;
mod key_points;
mod merging;
mod places;
mod rows;
mod run;
mod runs;
mod taking;

pub use cache::PointCache;
pub use key_points::{Key, KeyPoints, KeyRun, KeyRuns, RunPoints};
