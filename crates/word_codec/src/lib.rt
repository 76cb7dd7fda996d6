//! The words that the formats are made of: numbers of as few bytes as they need and of eight, signed numbers as unsigned
//! ones, and the checksum of a text.
#![tactic(auto)]

mod checksum;
mod error;
mod remainders;
mod signed;
mod uvarint;
mod words;

pub use checksum::crc32;
pub use error::UvarintFault;
pub use signed::{unzigzag, zigzag};
pub use uvarint::{read_uvarint, spellings_are_apart, write_uvarint};
pub use words::{read_words, write_words};
