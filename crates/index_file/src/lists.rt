ghost use Rattle.std.specs.Prelude.{◌≡◌};

use crate::{MeasurementIds, NameIds, TagIds};
use std::marker::Model;

/// Names, each with its ids. A contract sees the list.
#[derive(Debug, Drop)]
pub struct NameLists {
    list: Vec<NameIds>,
}

/// Tags, each with its values. A contract sees the list.
#[derive(Debug, Drop)]
pub struct TagLists {
    list: Vec<TagIds>,
}

/// Measurements. A contract sees the list.
#[derive(Debug, Drop)]
pub struct Measurements {
    list: Vec<MeasurementIds>,
}

impl Model for NameLists {
    ghost use Rattle.std.specs.Prelude.{List};
    ghost use Rattle.index_file.specs.declared.content.NameIds.{NameIds};

    ghost Value = { List NameIds };

    ghost view = { λ n. n.list.items };
}

impl Model for TagLists {
    ghost use Rattle.std.specs.Prelude.{List};
    ghost use Rattle.index_file.specs.declared.content.TagIds.{TagIds};

    ghost Value = { List TagIds };

    ghost view = { λ t. t.list.items };
}

impl Model for Measurements {
    ghost use Rattle.std.specs.Prelude.{List};
    ghost use Rattle.index_file.specs.declared.content.MeasurementIds.{MeasurementIds};

    ghost Value = { List MeasurementIds };

    ghost view = { λ m. m.list.items };
}

impl NameLists {
    pub fn new(list: Vec<NameIds>) -> NameLists
        ensures { result ≡ list.items }
    {
        NameLists { list }
    }

    pub fn as_slice(&self) -> &[NameIds]
        ensures { result.now ≡ self.now }
    {
        &self.list
    }

    /// The list itself. Takes no memory.
    pub fn into_vec(self) -> Vec<NameIds>
        ensures { result.items ≡ self }
    {
        self.list
    }
}

impl TagLists {
    pub fn new(list: Vec<TagIds>) -> TagLists
        ensures { result ≡ list.items }
    {
        TagLists { list }
    }

    pub fn as_slice(&self) -> &[TagIds]
        ensures { result.now ≡ self.now }
    {
        &self.list
    }

    /// The list itself. Takes no memory.
    pub fn into_vec(self) -> Vec<TagIds>
        ensures { result.items ≡ self }
    {
        self.list
    }
}

impl Measurements {
    pub fn new(list: Vec<MeasurementIds>) -> Measurements
        ensures { result ≡ list.items }
    {
        Measurements { list }
    }

    pub fn as_slice(&self) -> &[MeasurementIds]
        ensures { result.now ≡ self.now }
    {
        &self.list
    }

    /// The list itself. Takes no memory.
    pub fn into_vec(self) -> Vec<MeasurementIds>
        ensures { result.items ≡ self }
    {
        self.list
    }
}
