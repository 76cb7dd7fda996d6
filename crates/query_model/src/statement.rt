use crate::{Select, Show};
use point_model::Deletion;

/// What a line asks for that is no request of another form. DROP SERIES and DROP MEASUREMENT are deletions of all times.
#[derive(Drop)]
pub enum Statement {
    /// Rows of the points.
    Select(Select),
    /// Lists of what there is.
    Show(Show),
    /// That points are taken away.
    Delete(Deletion),
}
