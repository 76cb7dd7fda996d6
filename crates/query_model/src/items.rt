use std::marker::Model;
use tsdb_types::Name;

/// What a SELECT shows.
#[derive(Drop)]
pub enum Items {
    /// All fields, and all tag keys that the rows aren't grouped by.
    Star,
    /// Fields and tags by their names, at least one.
    Raw(RawItems),
    /// Aggregates of fields, at least one.
    Agg(AggItems),
    /// What one field becomes from value to value.
    Trans(TransItem),
}

/// A field or a tag, under its own name or another.
#[derive(Drop)]
pub struct RawItem {
    pub name: Name,
    pub alias: Option<Name>,
}

/// An aggregate of a field, under the call's name or another.
#[derive(Drop)]
pub struct AggItem {
    pub call: Agg,
    pub field: Name,
    pub alias: Option<Name>,
}

/// A transformation of a field, under the call's name or another.
#[derive(Drop)]
pub struct TransItem {
    pub call: Trans,
    pub field: Name,
    pub alias: Option<Name>,
}

/// What an aggregate makes of the values of a group, or of a window of it.
#[derive(Clone, Copy, PartialEq, Eq)]
pub enum Agg {
    /// How many values there are.
    Count,
    /// Their exact sum.
    Sum,
    /// The least value, of equal ones the earliest.
    Min,
    /// The greatest value, of equal ones the earliest.
    Max,
    /// The value of the least time, of equal times the greater value.
    First,
    /// The value of the greatest time, of equal times the greater value.
    Last,
    /// The greatest value less the least.
    Spread,
}

/// What a transformation makes of the values of a group, one after another.
#[derive(Clone, Copy, PartialEq, Eq)]
pub enum Trans {
    /// Each value but the first, less the one before it.
    Difference,
    /// The sum up to each value.
    CumulativeSum,
    /// The time of each value but the first since the one before it, in whole units of so many nanoseconds, at least one.
    Elapsed { unit: i64 },
}

/// The items of a SELECT of plain names. A contract sees their list.
#[derive(Drop)]
pub struct RawItems {
    items: Vec<RawItem>,
}

impl Model for RawItems {
    ghost use Rattle.std.specs.Prelude.{List};
    ghost use Rattle.query_model.specs.declared.items.RawItem.{RawItem};

    ghost Value = { List RawItem };

    ghost view = { λ i. i.items.items };
}

impl RawItems {
    ghost use Rattle.std.specs.Prelude.{◌≡◌};

    /// The list of these.
    pub fn new(items: Vec<RawItem>) -> RawItems
        ensures { result ≡ items.items }
    {
        RawItems { items }
    }

    /// The list that it was made of.
    pub fn as_slice(&self) -> &[RawItem]
        ensures { result.now ≡ self.now }
    {
        self.items.as_slice()
    }
}

/// The items of a SELECT of aggregates. A contract sees their list.
#[derive(Drop)]
pub struct AggItems {
    items: Vec<AggItem>,
}

impl Model for AggItems {
    ghost use Rattle.std.specs.Prelude.{List};
    ghost use Rattle.query_model.specs.declared.items.AggItem.{AggItem};

    ghost Value = { List AggItem };

    ghost view = { λ i. i.items.items };
}

impl AggItems {
    ghost use Rattle.std.specs.Prelude.{◌≡◌};

    /// The list of these.
    pub fn new(items: Vec<AggItem>) -> AggItems
        ensures { result ≡ items.items }
    {
        AggItems { items }
    }

    /// The list that it was made of.
    pub fn as_slice(&self) -> &[AggItem]
        ensures { result.now ≡ self.now }
    {
        self.items.as_slice()
    }
}
