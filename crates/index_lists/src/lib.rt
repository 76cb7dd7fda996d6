//! Lists of the ids of series, by what the series have: their measurement, their fields, and the keys and values of their tags.
//! What a change needs is made before it is made, so that making it takes no memory.
#![tactic(auto)]

mod change;
mod heading;
mod id_list;
mod lists;
mod names;
mod places;
mod staged;
mod tags;
mod term;

pub use change::IndexChange;
pub use heading::Heading;
pub use lists::Lists;
pub use staged::Staged;
pub use tags::measurement_of;
pub use term::Term;
