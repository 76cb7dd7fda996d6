//! Line protocol: a text of lines is read to a batch of points, or refused with the first line's one cause.
#![tactic(auto)]

mod batch;
mod cut;
mod fault;
mod field;
mod head;
mod heads;
mod kinds;
mod known;
mod line;
mod name;
mod number;
mod place;
mod points;
mod sorted;
mod spelled_field;
mod value;
mod walk;

pub use batch::{one_reading, read_batch};
pub use fault::{LineCode, LineFault};
