use crate::{BatchBuilder, Column, Point, Seed};
use std::alloc::AllocError;
use std::marker::Model;

/// Points that are accepted whole or not at all: at least one. A contract sees their list.
#[derive(Debug, Drop)]
pub struct Batch {
    built: BatchBuilder,
}

impl Model for Batch {
    ghost use Rattle.std.specs.Prelude.{◌≢◌, List, []};
    ghost use Rattle.tsdb_types.specs.declared.point.Point.{Point};

    ghost Value = { List Point };

    ghost view = { λ b. b.built };

    ghost invariant = { λ b. b.built ≢ [] };
}

impl Batch {
    ghost use Rattle.std.specs.Prelude.{◌≡◌, ◌≢◌, ◌↔◌, [], IfOk, IfSome, IsNone};
    ghost use Rattle.tsdb_types.specs.Columns.{columns_of, ArePlaces};

    /// `None` for no points. The columns are found by hashes that begin with the seed.
    pub fn new(points: Vec<Point>, seed: Seed) -> Result<Option<Batch>, AllocError>
        ensures some { IfOk result (λ made. IfSome made (λ batch. batch ≡ points.items)) }
        ensures none { IfOk result (λ made. IsNone made ↔ (points.items ≡ [])) }
    {
        let built = BatchBuilder::of(points, seed)?;
        Ok(Batch::of(built))
    }

    /// The batch of what was built; `None` for no points.
    pub fn of(built: BatchBuilder) -> Option<Batch>
        ensures some { IfSome result (λ batch. batch ≡ built) }
        ensures none { IsNone result ↔ (built ≡ []) }
    {
        if built.points().is_empty() {
            return None;
        }
        Some(Batch { built })
    }

    pub fn points(&self) -> &[Point]
        ensures points { result.now ≡ self.now }
        ensures some { result.now ≢ [] }
    {
        self.built.points()
    }

    /// The columns that points of the batch have, each once, in the order of their first points.
    pub fn columns(&self) -> &[Column]
        ensures { result.now ≡ columns_of self.now }
    {
        self.built.columns()
    }

    /// For each point the place of its column among the columns.
    pub fn places(&self) -> &[u32]
        ensures { ArePlaces self.now result.now }
    {
        self.built.places()
    }

    /// The vector of its points.
    pub fn into_points(self) -> Vec<Point>
        ensures points { result.items ≡ self }
        ensures some { result.items ≢ [] }
    {
        self.built.into_points()
    }
}
