//! What statements are and what they mean, as types and definitions: the rows that a SELECT shows of the points, and the lists
//! that a SHOW gives. The crates that read and run statements state their contracts by these.
#![tactic(auto)]

mod condition;
mod items;
mod laws;
mod lists;
mod select;
mod show;
mod statement;
mod tables;

pub use condition::{Cond, CondPart, CondTest, Literal, Op};
pub use items::{Agg, AggItem, AggItems, Items, RawItem, RawItems, Trans, TransItem};
pub use laws::{limits_hide_no_refusal, worked_rows};
pub use lists::{FileLine, FileLines, HeadedList, HeadedLists, Listing};
pub use select::{Fill, Select};
pub use show::Show;
pub use statement::Statement;
pub use tables::{Cells, Columns, Row, Rows, Shown, Table, TableList, Tables, TagText, TagTexts};
