ghost use Rattle.std.specs.Prelude.{◌≡◌, ◌<◌, ◌++◌, ◌∷◌, [], List, length, IfOk, OnOk, OnErr, IfSome, Some, slice_get};
ghost use Rattle.tsdb_types.specs.Columns.{column_of, columns_of, ArePlaces, IsFurther};
ghost use Rattle.tsdb_types.specs.declared.point.Point.{Point};

use crate::{Cell, Column, Point, Seed, Time, Value};
use indexmap::IndexSet;
use std::alloc::{AllocError, AllocFailed, Global};
use std::marker::Model;

// A place is a number of 32 bits.
const MOST_COLUMNS: usize = 4294967295;

/// Points that become a batch, with their columns. A contract sees the list of the points so far.
#[derive(Debug, Drop)]
pub struct BatchBuilder {
    points: Vec<Point>,
    columns: IndexSet<Column, Seed>,
    places: Vec<u32>,
}

impl Model for BatchBuilder {
    ghost use Rattle.std.specs.Prelude.{◌≡◌, List};
    ghost use Rattle.tsdb_types.specs.Columns.{columns_of, ArePlaces};
    ghost use Rattle.tsdb_types.specs.declared.point.Point.{Point};

    ghost Value = { List Point };

    ghost view = { λ b. b.points.items };

    ghost invariant = { λ b. (b.columns.keys ≡ columns_of b.points.items) × ArePlaces b.points.items b.places.items };
}

impl BatchBuilder {
    /// Without points. The columns are found by hashes that begin with the seed.
    pub fn new(alloc: Global, seed: Seed) -> BatchBuilder
        ensures { result ≡ [] }
    {
        BatchBuilder {
            points: Vec::new(alloc),
            columns: IndexSet::with_hasher(alloc, seed),
            places: Vec::new(alloc),
        }
    }

    /// With these points.
    pub fn of(points: Vec<Point>, seed: Seed) -> Result<BatchBuilder, AllocError>
        ensures { IfOk result (λ built. built ≡ points.items) }
    {
        let mut built = BatchBuilder::new(*points.allocator(), seed);
        built.reserve(points.len())?;
        for point in points {
            built.push(point)?;
        }
        Ok(built)
    }

    /// Makes room for so many more points.
    pub fn reserve(&mut self, points: usize) -> Result<(), AllocError>
        ensures { self.new ≡ self.old }
    {
        self.points.reserve_exact(points)?;
        self.places.reserve_exact(points)
    }

    pub fn points(&self) -> &[Point]
        ensures { result.now ≡ self.now }
    {
        self.points.as_slice()
    }

    /// The columns of the points so far, each once, in the order of their first points.
    pub fn columns(&self) -> &[Column]
        ensures { result.now ≡ columns_of self.now }
    {
        self.columns.as_slice()
    }

    /// For each point the place of its column among the columns.
    pub fn places(&self) -> &[u32]
        ensures { ArePlaces self.now result.now }
    {
        self.places.as_slice()
    }

    /// One more point, and the place of its column. After an error the points are as they were.
    pub fn push(&mut self, point: Point) -> Result<u32, AllocError>
        ensures ok { OnOk result (self.new ≡ self.old ++ point ∷ []) }
        ensures place { IfOk result (λ place. slice_get (columns_of self.new) place ≡ Some (column_of point)) }
        ensures err { OnErr result (self.new ≡ self.old) }
    {
        if self.columns.len() >= MOST_COLUMNS {
            return Err(AllocError);
        }
        self.points.reserve(1)?;
        self.places.reserve(1)?;
        let column = Column {
            series: point.cell.series.carry()?,
            field: point.cell.field.carry()?,
        };
        let (index, _new) = self.columns.insert_full(column)?;
        self.points.push_reserved(point);
        self.places.push_reserved(index as u32);
        Ok(index as u32)
    }

    /// One more point of the column at a place: it is not looked up, and its texts are shared. After an error the points
    /// are as they were.
    pub fn push_at(&mut self, place: u32, time: Time, value: Value) -> Result<(), AllocError>
        requires { place < length (columns_of self.old) }
        ensures ok { OnOk result (IsFurther self.old place time value self.new) }
        ensures err { OnErr result (self.new ≡ self.old) }
    {
        self.points.reserve(1)?;
        self.places.reserve(1)?;
        let column = &self.columns.as_slice()[place as usize];
        let cell = Cell {
            time,
            series: column.series.carry()?,
            field: column.field.carry()?,
        };
        self.points.push_reserved(Point { cell, value });
        self.places.push_reserved(place);
        Ok(())
    }

    pub fn into_points(self) -> Vec<Point>
        ensures { result.items ≡ self }
    {
        self.points
    }
}
