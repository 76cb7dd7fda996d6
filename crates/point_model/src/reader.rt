use crate::sides::close;
use crate::{Join, Part, TagCond, TagTest};
use std::alloc::{AllocError, Global};
use std::marker::Model;

/// A condition that is being read, part by part, each join before its two sides. A contract sees the sides that are open around the
/// place, the innermost first.
#[derive(Debug, Drop)]
pub struct TagCondReader {
    pub(crate) parts: Vec<(Option<Join>, Part)>,
    // The joins around the place whose first side is read, the innermost last; none in the place of one whose second side is read.
    pub(crate) waiting: Vec<Option<Join>>,
    // The join whose second side begins with the next part.
    pub(crate) next: Option<Join>,
}

/// What one part more makes of a condition that is being read.
#[derive(Debug, Drop)]
pub enum ReadCond {
    /// It isn't whole yet.
    Open(TagCondReader),
    Whole(TagCond),
}

impl Model for TagCondReader {
    ghost use Rattle.std.specs.Prelude.{List};
    ghost use Rattle.point_model.specs.Flat.{Side, read_from, unread, IsReading};
    ghost use Rattle.point_model.specs.ConditionCode.{sides_code};

    ghost Value = { List Side };

    ghost coded = { sides_code };

    ghost view = { λ r. (read_from unread r.parts.items).sides };

    ghost invariant = { λ r. IsReading (read_from unread r.parts.items) r.parts.items r.waiting.items r.next };
}

impl TagCondReader {
    ghost use Rattle.std.specs.Prelude.{◌≡◌, ◌∷◌, [], IfOk, length};
    ghost use Rattle.point_model.specs.Flat.{First, closed, condition_of};
    ghost use Rattle.point_model.specs.Readings.{IsRead};

    /// Nothing is read yet.
    pub fn new(alloc: Global) -> TagCondReader
        ensures { result ≡ [] }
    {
        TagCondReader {
            parts: Vec::new(alloc),
            waiting: Vec::new(alloc),
            next: None,
        }
    }

    /// How many sides are open.
    pub fn nesting(&self) -> usize
        ensures { result ≡ length self.now }
    {
        self.waiting.len()
    }

    /// A join stands next, and its first side behind it.
    pub fn join(self, join: Join) -> Result<TagCondReader, AllocError>
        ensures { IfOk result (λ reader. reader ≡ First join ∷ self) }
    {
        let TagCondReader {
            mut parts,
            mut waiting,
            next,
        } = self;
        parts.push((next, Part::Join(join)))?;
        waiting.push(Some(join))?;
        Ok(TagCondReader {
            parts,
            waiting,
            next: None,
        })
    }

    /// A test stands next.
    pub fn test(self, test: TagTest) -> Result<ReadCond, AllocError>
        ensures { IfOk result (λ read. IsRead read (closed (condition_of test) self)) }
    {
        let TagCondReader {
            mut parts,
            mut waiting,
            next,
        } = self;
        parts.push((next, Part::Test(test)))?;
        match close(&mut waiting)? {
            None => Ok(ReadCond::Whole(TagCond { parts })),
            Some(join) => Ok(ReadCond::Open(TagCondReader {
                parts,
                waiting,
                next: Some(join),
            })),
        }
    }
}
