ghost use Rattle.std.specs.Prelude.{◌≡◌, IfOk};

use crate::{Name, SeriesKey, Time, Value};
use std::alloc::AllocError;

/// The place of one value. Cells are ordered by time, then by the text of the series, then by field, so that
/// the cells of one record stand together.
#[derive(Debug, Drop, PartialEq, Eq, PartialOrd, Ord)]
pub struct Cell {
    pub time: Time,
    pub series: SeriesKey,
    pub field: Name,
}

/// A value in its cell.
#[derive(Debug, Drop, PartialEq)]
pub struct Point {
    pub cell: Cell,
    pub value: Value,
}

impl Point {
    /// An equal point.
    pub fn carry(&self) -> Result<Point, AllocError>
        ensures { IfOk result (λ point. point ≡ self.now) }
    {
        let cell = Cell {
            time: self.cell.time,
            series: self.cell.series.carry()?,
            field: self.cell.field.carry()?,
        };
        Ok(Point {
            cell,
            value: self.value,
        })
    }
}
