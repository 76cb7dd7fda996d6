//! A line of the input, as it comes in pieces.
ghost use Rattle.std.specs.Prelude.{◌≡◌, ◌≤◌, ◌++◌, [], List, ℕ, IfOk};
ghost use Rattle.std.specs.Str.Lines.{strip_carriage_return};
ghost use Rattle.std.specs.Vec.{vec_capacity};

use crate::pieces::front;
use crate::shape::{Shape, is_spaces, shape_behind, stripped_shape};
use std::alloc::{AllocError, Global};

/// How much of a line is kept: one byte more than the longest line, with a carriage return at its end.
const KEPT: usize = 65_538;

/// The front of a line. Its room is taken once.
#[derive(Drop)]
pub struct Line {
    kept: Vec<u8>,
    shape: Shape,
    ghost room: { 65538 ≤ vec_capacity kept },
}

impl Line {
    ghost use Rattle.session_loop.specs.LineAsItComes.{Holds, Stands};
    ghost use Rattle.session_model.specs.Lines.{is_blank};

    pub fn new(alloc: Global) -> Result<Self, AllocError>
        ensures { IfOk result (λ line. Holds line []) }
    {
        Ok(Line {
            kept: Vec::with_capacity(alloc, KEPT)?,
            shape: Shape::Spaces,
        })
    }

    /// Adds what has come.
    pub fn extend(&mut self, bytes: &[u8])
        ensures { (text : List ℕ) → Holds self.old text → Holds self.new (text ++ bytes.now) }
    {
        self.shape = shape_behind(self.shape, bytes);
        let room = KEPT.saturating_sub(self.kept.len());
        let _ = self
            .kept
            .extend_from_slice(front(bytes, room.min(bytes.len())));
    }

    pub fn clear(&mut self)
        ensures { Holds self.new [] }
    {
        self.kept.clear();
        self.shape = Shape::Spaces;
    }

    /// What has come.
    pub fn kept(&self) -> &[u8]
        ensures { result.now ≡ self.now.kept.items }
    {
        &self.kept
    }

    /// A newline ends the line: a carriage return at its end goes with it.
    pub fn strip(&mut self)
        ensures { (text : List ℕ) → Holds self.old text → Stands self.new (strip_carriage_return text) }
    {
        let length = without_return(&self.kept).len();
        self.kept.truncate(length);
        self.shape = stripped_shape(self.shape);
    }

    /// Whether the line has no byte but spaces.
    pub fn is_blank(&self) -> bool
        ensures { (text : List ℕ) → Stands self.now text → result ≡ is_blank text }
    {
        is_spaces(self.shape)
    }
}

/// The line less one carriage return at its end.
pub fn without_return(line: &[u8]) -> &[u8]
    ensures { result.now ≡ strip_carriage_return line.now }
{
    match line {
        [front @ .., b'\r'] => front,
        _ => line,
    }
}
