//! A BATCH, as its lines come.
ghost use Rattle.std.specs.Prelude.{◌≡◌, ◌<◌, ◌≤◌, ◌++◌, ◌∷◌, [], List, ℕ, Bool, false, ◌||◌, ◌==◌, length, OnOk};
ghost use Rattle.session_model.specs.Requests.{is_long as is_long_text};

use crate::line::without_return;
use line_protocol::LineCode;
use session_model::Refusal;
use std::alloc::{AllocError, Global};

/// A BATCH may name so many lines.
const MOST_LINES: u32 = 5_000;

/// The lines of a BATCH have so many bytes with their ends.
const MOST_BYTES: usize = 16_777_216;

/// A line has so many bytes without its end.
const LONGEST: usize = 65_536;

/// How a BATCH is refused that is too long as a whole.
const TOO_LONG: Refusal = Refusal::Protocol {
    code: LineCode::BatchTooLong,
    line: 0,
};

/// What is known of the text of a BATCH.
#[derive(Clone, Copy, Debug, PartialEq, Eq)]
pub enum Fate {
    /// It is kept whole.
    Kept,
    /// It has too many bytes, and no line that is too long.
    TooLong,
    /// A line of it is too long.
    LineTooLong,
    /// There was no memory for it.
    NoMemory,
}

/// The lines of a BATCH that have come.
#[derive(Drop)]
pub struct Gathering {
    pub count: u32,
    pub came: u32,
    pub fate: Fate,
    pub text: Vec<u8>,
}

/// Why the text of a BATCH isn't read.
#[derive(Clone, Copy, Debug, PartialEq, Eq)]
pub enum Unread {
    Refused(Refusal),
    NoMemory,
}

ghost use Rattle.session_loop.specs.Gathered.{FateIs};

impl Gathering {
    ghost use Rattle.session_loop.specs.Gathered.{Gathers, IsRead};
    ghost use Rattle.session_loop.specs.LineAsItComes.{StandsFor};

    pub fn new(alloc: Global) -> Self {
        Gathering {
            count: 0,
            came: 0,
            fate: Fate::Kept,
            text: Vec::new(alloc),
        }
    }

    /// A BATCH of so many lines begins.
    pub fn begin(&mut self, count: u32)
        ensures { Gathers self.new count [] [] }
    {
        self.count = count;
        self.came = 0;
        self.fate = Fate::Kept;
        self.text.clear();
    }

    /// Whether all lines have come.
    pub fn is_whole(&self) -> bool
        ensures { result ≡ (self.now.came == self.now.count) }
    {
        self.came == self.count
    }

    /// A newline ends one more line.
    pub fn add_line(&mut self, line: &[u8])
        ensures { (count : ℕ) (lines : List (List ℕ)) (part : List ℕ) → length lines < count → Gathers self.old count lines [] → StandsFor 65537 line.now part
            → Gathers self.new count (lines ++ part ∷ []) [] }
    {
        self.came = self.came.saturating_add(1);
        if self.count <= MOST_LINES {
            let long = is_long(without_return(line));
            self.fate = grown(self.fate, &mut self.text, line, b"\n", long);
        }
    }

    /// The end of the input ends what stands behind the lines.
    pub fn add_rest(&mut self, rest: &[u8])
        ensures { (count : ℕ) (lines : List (List ℕ)) (part : List ℕ) → length lines < count → Gathers self.old count lines [] → StandsFor 65537 rest.now part
            → Gathers self.new count lines part }
    {
        if rest.is_empty() {
            return;
        }
        self.came = self.came.saturating_add(1);
        if self.count <= MOST_LINES {
            self.fate = grown(self.fate, &mut self.text, rest, b"", is_long(rest));
        }
    }

    /// The text of the BATCH, unless it is refused before that is read.
    pub fn text(&self) -> Result<&[u8], Unread>
        ensures { (count : ℕ) (lines : List (List ℕ)) (rest : List ℕ) → Gathers self.now count lines rest → IsRead (λ text. text.now) result count lines rest }
    {
        if self.count > MOST_LINES {
            return Err(Unread::Refused(TOO_LONG));
        }
        if self.came < self.count {
            return Err(Unread::Refused(Refusal::BatchCut));
        }
        match self.fate {
            Fate::Kept => Ok(&self.text),
            Fate::LineTooLong => Err(Unread::Refused(Refusal::LineTooLong)),
            Fate::TooLong => Err(Unread::Refused(TOO_LONG)),
            Fate::NoMemory => Err(Unread::NoMemory),
        }
    }
}

fn is_long(line: &[u8]) -> bool
    ensures { result ≡ is_long_text line.now }
{
    line.len() > LONGEST
}

/// What is known of the text with this line more and its end. A line that is too long isn't kept.
fn grown(fate: Fate, text: &mut Vec<u8>, line: &[u8], end: &[u8], long: bool) -> Fate
    ensures { (whole part : List ℕ) (was : Bool) → FateIs fate text.old.items whole was → (long ≡ false → line.now ≡ part)
        → FateIs result text.new.items (whole ++ part ++ end.now) (was || long) }
{
    if long {
        return Fate::LineTooLong;
    }
    match fate {
        Fate::Kept => kept(text, line, end),
        Fate::TooLong => Fate::TooLong,
        Fate::LineTooLong => Fate::LineTooLong,
        Fate::NoMemory => Fate::NoMemory,
    }
}

/// Keeps a line and its end behind what is kept, where the text isn't too long with it.
fn kept(text: &mut Vec<u8>, line: &[u8], end: &[u8]) -> Fate
    ensures { length text.old.items ≤ 16777216 → FateIs result text.new.items (text.old.items ++ line.now ++ end.now) false }
{
    let length = text
        .len()
        .saturating_add(line.len())
        .saturating_add(end.len());
    if length > MOST_BYTES {
        return Fate::TooLong;
    }
    match add(text, line, end) {
        Ok(()) => Fate::Kept,
        Err(AllocError) => Fate::NoMemory,
    }
}

fn add(text: &mut Vec<u8>, line: &[u8], end: &[u8]) -> Result<(), AllocError>
    ensures { OnOk result (text.new.items ≡ text.old.items ++ line.now ++ end.now) }
{
    text.extend_from_slice(line)?;
    text.extend_from_slice(end)?;
    Ok(())
}
