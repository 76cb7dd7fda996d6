ghost use Rattle.std.specs.Prelude.{◌≡◌, ◌++◌, OnOk};

use point_model::{Join, TagText};
use std::alloc::{AllocError, Global};
use std::marker::Model;
use tsdb_types::Name;

/// A condition on the tags and fields of a record. A contract sees the `Condition` of `specs/Conditions.antt`.
///
/// Its parts stand in one list, each join behind its two sides. So no call on a condition takes stack by how deep it is nested, and
/// a row of joins from left to right is made in the time of its length.
#[derive(Drop)]
pub struct Cond {
    parts: Vec<CondPart>,
}

/// What a condition asks of one tag or field.
#[derive(Drop)]
pub enum CondTest {
    /// Nothing: each record meets it. It stands for an absent condition, and where a comparison of time stood.
    True,
    /// A tag or a field in comparison with a literal.
    Compare {
        name: Name,
        op: Op,
        literal: Literal,
    },
}

/// A part of a condition.
#[derive(Drop)]
pub enum CondPart {
    /// It is met or not by itself.
    Test(CondTest),
    /// Its two sides stand before it.
    Join(Join),
}

/// How two values are compared.
#[derive(Clone, Copy, PartialEq, Eq)]
pub enum Op {
    /// They are equal.
    Eq,
    /// They differ.
    Ne,
    /// The first is below the second.
    Lt,
    /// The first is the second, or below it.
    Le,
    /// The first is above the second.
    Gt,
    /// The first is the second, or above it.
    Ge,
}

/// What a name is compared with.
#[derive(Drop)]
pub enum Literal {
    /// A text, which only tags are compared with.
    Text(TagText),
    /// A number up to 9223372036854775807.
    Int(i64),
    /// A number above that.
    Uint(u64),
    /// A truth, which is compared for equality alone.
    Bool(bool),
}

impl Model for Cond {
    ghost use Rattle.std.specs.Prelude.{◌≡◌};
    ghost use Rattle.query_model.specs.ConditionCode.{condition_code};
    ghost use Rattle.query_model.specs.Conditions.{Condition};
    ghost use Rattle.query_model.specs.Flat.{condition_in, parts_of};

    ghost Value = { Condition };

    ghost coded = { condition_code };

    ghost view = { λ c. condition_in c.parts.items };

    ghost invariant = { λ c. parts_of (condition_in c.parts.items) ≡ c.parts.items };
}

impl Cond {
    ghost use Rattle.std.specs.Prelude.{◌≡◌, IfOk};
    ghost use Rattle.query_model.specs.Conditions.{And, Or};
    ghost use Rattle.query_model.specs.Flat.{condition_of, joined, parts_of};

    /// The condition of one test.
    pub fn new(alloc: Global, test: CondTest) -> Result<Cond, AllocError>
        ensures { IfOk result (λ condition. condition ≡ condition_of test) }
    {
        let mut parts = Vec::new(alloc);
        parts.push(CondPart::Test(test))?;
        Ok(Cond { parts })
    }

    /// The condition that both are met.
    pub fn and(first: Cond, second: Cond) -> Result<Cond, AllocError>
        ensures { IfOk result (λ both. both ≡ And first second) }
    {
        Cond::join(Join::And, first, second)
    }

    /// The condition that one of them is met, or both.
    pub fn or(first: Cond, second: Cond) -> Result<Cond, AllocError>
        ensures { IfOk result (λ either. either ≡ Or first second) }
    {
        Cond::join(Join::Or, first, second)
    }

    fn join(join: Join, first: Cond, second: Cond) -> Result<Cond, AllocError>
        ensures { IfOk result (λ whole. whole ≡ joined join first second) }
    {
        let mut parts = first.parts;
        put(&mut parts, second.parts)?;
        parts.push(CondPart::Join(join))?;
        Ok(Cond { parts })
    }

    /// Its parts, each join behind its two sides.
    pub fn parts(&self) -> &[CondPart]
        ensures { result.now ≡ parts_of self.now }
    {
        &self.parts
    }
}

// Puts parts behind others.
fn put(out: &mut Vec<CondPart>, parts: Vec<CondPart>) -> Result<(), AllocError>
    ensures { OnOk result (out.new.items ≡ out.old.items ++ parts.items) }
{
    for part in parts {
        out.push(part)?;
    }
    Ok(())
}
