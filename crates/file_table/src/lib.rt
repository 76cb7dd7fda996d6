//! The files of a database that are named, with how many have each in use, and the files that are condemned: no longer
//! named, and to be removed once nobody has them in use.
#![tactic(auto)]

mod condemn;
mod condemned;
mod count;
mod hold;
mod holds;
mod order;
mod parts;
mod row;
mod table;

pub use condemned::Condemned;
pub use hold::Hold;
pub use row::FileRow;
pub use table::FileTable;
