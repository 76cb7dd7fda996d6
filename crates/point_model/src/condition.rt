ghost use Rattle.std.specs.Prelude.{◌≡◌, if◌then◌else◌};

use crate::step::step;
use crate::{Join, Part, TagTest};
use std::alloc::{AllocError, Global};
use std::marker::Model;
use tsdb_types::SeriesKey;

/// A condition on the tags of a series. A contract sees the `Condition` of `specs/Conditions.antt`.
///
/// Its parts stand in one list, each join before its two sides, and with each part the join whose second side begins with it. So no
/// call on a condition takes stack by how deep it is nested.
#[derive(Debug, Drop)]
pub struct TagCond {
    pub(crate) parts: Vec<(Option<Join>, Part)>,
}

impl Model for TagCond {
    ghost use Rattle.std.specs.Prelude.{◌≡◌, None};
    ghost use Rattle.point_model.specs.ConditionCode.{condition_code};
    ghost use Rattle.point_model.specs.Conditions.{Condition};
    ghost use Rattle.point_model.specs.Flat.{condition_in, parts_of};

    ghost Value = { Condition };

    ghost coded = { condition_code };

    ghost view = { λ c. condition_in c.parts.items };

    ghost invariant = { λ c. parts_of None (condition_in c.parts.items) ≡ c.parts.items };
}

impl TagCond {
    ghost use Rattle.std.specs.Prelude.{◌≡◌, None, Some, ℕ, IfOk, OnOk, ◌++◌};
    ghost use Rattle.point_model.specs.Conditions.{And, Or, meets};
    ghost use Rattle.point_model.specs.Flat.{condition_of, joined, parts_of};

    /// The condition of one test.
    pub fn new(alloc: Global, test: TagTest) -> Result<TagCond, AllocError>
        ensures { IfOk result (λ condition. condition ≡ condition_of test) }
    {
        let mut parts = Vec::new(alloc);
        parts.push((None, Part::Test(test)))?;
        Ok(TagCond { parts })
    }

    /// The condition that both are met.
    pub fn and(alloc: Global, first: TagCond, second: TagCond) -> Result<TagCond, AllocError>
        ensures { IfOk result (λ both. both ≡ And first second) }
    {
        TagCond::join(alloc, Join::And, first, second)
    }

    /// The condition that one of them is met, or both.
    pub fn or(alloc: Global, first: TagCond, second: TagCond) -> Result<TagCond, AllocError>
        ensures { IfOk result (λ either. either ≡ Or first second) }
    {
        TagCond::join(alloc, Join::Or, first, second)
    }

    fn join(
        alloc: Global,
        join: Join,
        first: TagCond,
        second: TagCond,
    ) -> Result<TagCond, AllocError>
        ensures { IfOk result (λ whole. whole ≡ joined join first second) }
    {
        let mut parts = Vec::new(alloc);
        parts.reserve(first.parts.len())?;
        parts.push((None, Part::Join(join)))?;
        first.put_side(&mut parts, None)?;
        second.put_side(&mut parts, Some(join))?;
        Ok(TagCond { parts })
    }

    // Puts its parts behind others; it is the second side of that join, or a first side.
    fn put_side(
        self,
        out: &mut Vec<(Option<Join>, Part)>,
        of: Option<Join>,
    ) -> Result<(), AllocError>
        ensures { OnOk result (out.new.items ≡ out.old.items ++ parts_of of self) }
    {
        let mut is_first = true;
        for (own, part) in self.parts {
            out.push((side_of(is_first, of, own), part))?;
            is_first = false;
        }
        Ok(())
    }

    /// Its parts, each join before its two sides; with each the join whose second side begins with it.
    pub fn parts(&self) -> &[(Option<Join>, Part)]
        ensures { result.now ≡ parts_of None self.now }
    {
        &self.parts
    }

    /// An equal condition.
    pub fn carry(&self, alloc: Global) -> Result<TagCond, AllocError>
        ensures { IfOk result (λ copy. copy ≡ self.now) }
    {
        let mut parts = Vec::with_capacity(alloc, self.parts.len())?;
        for (of, part) in &self.parts {
            parts.push((*of, part.carry()?))?;
        }
        Ok(TagCond { parts })
    }

    /// Whether the tags of the series meet the condition. It takes no memory.
    pub fn meets(&self, series: &SeriesKey) -> bool
        ensures { result ≡ meets self.now series.now }
    {
        let mut met = true;
        let mut passing = 0;
        for (of, part) in &self.parts {
            (met, passing) = step(series, met, passing, *of, part);
        }
        met
    }
}

// The first part of a side gets a new place, the others keep theirs.
fn side_of(is_first: bool, of: Option<Join>, own: Option<Join>) -> Option<Join>
    ensures { result ≡ (if is_first then of else own) }
{
    if is_first { of } else { own }
}
