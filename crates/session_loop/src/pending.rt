//! What has come of the next request.
ghost use Rattle.std.specs.Prelude.{◌≡◌, ◌≤◌, ◌++◌, [], List, ℕ, false, length, IfOk, None, Option};
ghost use Rattle.session_model.specs.Lines.{Open, Request, next_line, last_line, begin as begin_with, with_batch};

use crate::gathering::Gathering;
use crate::line::Line;
use crate::words::batch_count;
use std::alloc::{AllocError, Global};

/// A line that has come in part, and the BATCH before it where that takes further lines.
#[derive(Drop)]
pub struct Pending {
    pub line: Line,
    pub batch: Gathering,
    pub is_batch: bool,
}

/// Which request has ended.
#[derive(Clone, Copy, Debug, PartialEq, Eq)]
pub enum Ended {
    Nothing,
    Line,
    Batch,
}

impl Pending {
    ghost use Rattle.session_loop.specs.Gathered.{Gathers};
    ghost use Rattle.session_loop.specs.LineAsItComes.{Stands};
    ghost use Rattle.session_loop.specs.Pendings.{Pends, HoldsBatch, HasEnded};

    pub fn new(alloc: Global) -> Result<Self, AllocError>
        ensures { IfOk result (λ pending. Pends pending None []) }
    {
        Ok(Pending {
            line: Line::new(alloc)?,
            batch: Gathering::new(alloc),
            is_batch: false,
        })
    }

    /// Adds what has come of a line.
    pub fn extend(&mut self, bytes: &[u8])
        ensures { (batch : Option Open) (last : List ℕ) → Pends self.old batch last → Pends self.new batch (last ++ bytes.now) }
    {
        self.line.extend(bytes);
    }

    /// A newline ends the line, and a request with it or none. The line is kept until it is cleared.
    pub fn end_line(&mut self) -> Ended
        ensures ended { (before : List Request) (batch : Option Open) (last : List ℕ) → Pends self.old batch last
            → HasEnded result self.new before (next_line before batch last).requests }
        ensures left { (before : List Request) (batch : Option Open) (last : List ℕ) → Pends self.old batch last
            → HoldsBatch self.new (next_line before batch last).open_batch }
    {
        if self.is_batch {
            self.batch.add_line(self.line.kept());
            return self.settle();
        }
        self.line.strip();
        self.begin()
    }

    /// The input ends the line, and a request with it or none.
    pub fn end_input(&mut self) -> Ended
        ensures { (before : List Request) (batch : Option Open) (last : List ℕ) → Pends self.old batch last
            → HasEnded result self.new before (last_line before batch last) }
    {
        if self.is_batch {
            self.batch.add_rest(self.line.kept());
            return Ended::Batch;
        }
        let ended = self.begin();
        if self.is_batch {
            return Ended::Batch;
        }
        ended
    }

    /// Forgets the line.
    pub fn clear(&mut self)
        ensures { (batch : Option Open) → HoldsBatch self.old batch → Pends self.new batch [] }
    {
        self.line.clear();
    }

    /// The line begins a request.
    fn begin(&mut self) -> Ended
        ensures ended { (before : List Request) (text : List ℕ) → Stands self.old.line text → self.old.is_batch ≡ false
            → HasEnded result self.new before (begin_with before text).requests }
        ensures left { (before : List Request) (text : List ℕ) → Stands self.old.line text → self.old.is_batch ≡ false
            → HoldsBatch self.new (begin_with before text).open_batch }
    {
        if self.line.is_blank() {
            return Ended::Nothing;
        }
        match batch_count(self.line.kept()) {
            None => Ended::Line,
            Some(count) => {
                self.batch.begin(count);
                self.settle()
            }
        }
    }

    /// A BATCH is a request where all its lines have come, and else takes the next.
    fn settle(&mut self) -> Ended
        ensures ended { (before : List Request) (count : ℕ) (lines : List (List ℕ)) → Gathers self.old.batch count lines []
            → HasEnded result self.new before (with_batch before count lines).requests }
        ensures left { (before : List Request) (count : ℕ) (lines : List (List ℕ)) → Gathers self.old.batch count lines [] → length lines ≤ count
            → HoldsBatch self.new (with_batch before count lines).open_batch }
    {
        self.is_batch = !self.batch.is_whole();
        if self.is_batch {
            Ended::Nothing
        } else {
            Ended::Batch
        }
    }
}
