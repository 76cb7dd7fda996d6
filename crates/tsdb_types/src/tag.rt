use crate::Name;
use std::marker::Model;

/// The key and the value of a tag.
#[derive(Debug, Drop, PartialEq, Eq, PartialOrd, Ord)]
pub struct Tag {
    pub key: Name,
    pub value: Name,
}

/// Tags in any order, also several of one key. A contract sees their list.
#[derive(Debug, Drop)]
pub struct Tags {
    tags: Vec<Tag>,
}

impl Model for Tags {
    ghost use Rattle.std.specs.Prelude.{List};
    ghost use Rattle.tsdb_types.specs.declared.tag.Tag.{Tag};

    ghost Value = { List Tag };

    ghost view = { λ t. t.tags.items };
}

impl Tags {
    ghost use Rattle.std.specs.Prelude.{◌≡◌};

    pub fn new(tags: Vec<Tag>) -> Tags
        ensures { result ≡ tags.items }
    {
        Tags { tags }
    }

    pub fn as_slice(&self) -> &[Tag]
        ensures { result.now ≡ self.now }
    {
        self.tags.as_slice()
    }

    /// The vector that they were made of.
    pub fn into_vec(self) -> Vec<Tag>
        ensures { result.items ≡ self }
    {
        self.tags
    }
}
