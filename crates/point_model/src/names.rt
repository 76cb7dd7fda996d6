use std::marker::Model;
use tsdb_types::{Kind, Name};

/// Fields with their kinds. A contract sees their list.
#[derive(Debug, Drop)]
pub struct Fields {
    fields: Vec<(Name, Kind)>,
}

impl Model for Fields {
    ghost use Rattle.std.specs.Prelude.{ℕ, List};
    ghost use Rattle.tsdb_types.specs.declared.value.Kind.{Kind};

    ghost Value = { List (List ℕ × Kind) };

    ghost view = { λ f. f.fields.items };
}

impl Fields {
    ghost use Rattle.std.specs.Prelude.{◌≡◌};

    pub fn new(fields: Vec<(Name, Kind)>) -> Fields
        ensures { result ≡ fields.items }
    {
        Fields { fields }
    }

    pub fn as_slice(&self) -> &[(Name, Kind)]
        ensures { result.now ≡ self.now }
    {
        self.fields.as_slice()
    }
}

/// The keys of tags. A contract sees their list.
#[derive(Debug, Drop)]
pub struct TagKeys {
    keys: Vec<Name>,
}

impl Model for TagKeys {
    ghost use Rattle.std.specs.Prelude.{ℕ, List};

    ghost Value = { List (List ℕ) };

    ghost view = { λ k. k.keys.items };
}

impl TagKeys {
    ghost use Rattle.std.specs.Prelude.{◌≡◌};

    pub fn new(keys: Vec<Name>) -> TagKeys
        ensures { result ≡ keys.items }
    {
        TagKeys { keys }
    }

    pub fn as_slice(&self) -> &[Name]
        ensures { result.now ≡ self.now }
    {
        self.keys.as_slice()
    }
}

/// What a measurement has: its fields with their kinds, and the keys of its tags, both ascending by their bytes.
#[derive(Debug, Drop)]
pub struct Names {
    pub fields: Fields,
    pub tag_keys: TagKeys,
}
