ghost use Rattle.std.specs.Prelude.{◌≡◌, IfOk};

use crate::TagText;
use std::alloc::AllocError;
use tsdb_types::Name;

/// What a condition asks of one tag. A tag that a series lacks has the empty text.
#[derive(Debug, Drop)]
pub enum TagTest {
    /// Nothing: each series meets it.
    True,
    /// The tag with this key has this text.
    Eq(Name, TagText),
    /// The tag with this key has another text.
    Ne(Name, TagText),
}

/// What joins the two sides of a condition.
#[derive(Clone, Copy, Debug, PartialEq, Eq)]
pub enum Join {
    /// Both are met.
    And,
    /// One of them is met, or both.
    Or,
}

/// A part of a condition.
#[derive(Debug, Drop)]
pub enum Part {
    Test(TagTest),
    /// Its two sides stand behind it.
    Join(Join),
}

impl TagTest {
    /// An equal test.
    pub fn carry(&self) -> Result<TagTest, AllocError>
        ensures { IfOk result (λ copy. copy ≡ self.now) }
    {
        match self {
            TagTest::True => Ok(TagTest::True),
            TagTest::Eq(key, text) => Ok(TagTest::Eq(key.carry()?, text.carry()?)),
            TagTest::Ne(key, text) => Ok(TagTest::Ne(key.carry()?, text.carry()?)),
        }
    }
}

impl Part {
    /// An equal part.
    pub fn carry(&self) -> Result<Part, AllocError>
        ensures { IfOk result (λ copy. copy ≡ self.now) }
    {
        match self {
            Part::Test(test) => Ok(Part::Test(test.carry()?)),
            Part::Join(join) => Ok(Part::Join(*join)),
        }
    }
}
