//! The file of a sorted index: for each measurement the ids of its series, and those with each field and with each value of
//! a tag. `docs/FORMATS.md` draws it.
#![tactic(auto)]

mod content;
mod fit;
mod frame;
mod ids;
mod laws;
mod lists;
mod measurement;
mod put;
mod reading;
mod rest;
mod stop;
mod take;

pub use content::{Content, MeasurementIds, NameIds, TagIds};
pub use ids::Ids;
pub use laws::one_reading;
pub use lists::{Measurements, NameLists, TagLists};
pub use put::write;
pub use reading::read;
use stop::Stop;
