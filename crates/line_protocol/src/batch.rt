ghost use Rattle.std.specs.Prelude.{◌≡◌, ◌⊎◌, ℕ, ◌+◌, ◌<◌, ◌≤◌, ◌==◌, ◌&&◌, not, List, length, Ok, Err, IfOk};
ghost use Rattle.tsdb_types.specs.declared.point.Point.{Point};
ghost use Rattle.point_model.specs.Acceptance.{IsWritable};
ghost use Rattle.std.specs.Str.{IsUtf8};
ghost use Rattle.line_protocol.specs.declared.fault.LineCode.{LineCode};
ghost use Rattle.line_protocol.specs.Batches.{Lines, IsFault, BatchIs, LinesGive};
ghost use Rattle.line_protocol.specs.Batches as spec;
ghost use Rattle.line_protocol.specs.Once.{OneBatch, OneFault, NeverBoth, Readable};

use crate::cut::{cut_line, trimmed};
use crate::fault::{LineCode, LineFault, Refusal};
use crate::line::{Reader, read_any_line};
use memchr::memchr_iter;
use std::alloc::Global;
use tsdb_types::{Batch, BatchBuilder, Seed, Time};

const MOST_BYTES: usize = 16777216;

const MOST_LINES: u32 = 5000;

/// Reads a text of lines, of at most 16,777,216 bytes and 5,000 lines, to the batch of its points. A line without a time
/// has the moment, in nanoseconds. A fault names the first line with one, numbered from 1, or 0 where the whole text is meant.
pub fn read_batch(alloc: Global, bytes: &[u8], moment: Time) -> Result<Batch, LineFault>
    requires { IsUtf8 bytes.now }
    ensures ok { IfOk result (Lines bytes.now moment) }
    ensures refused { (code : LineCode) (line : ℕ) → result ≡ Err (LineFault.Line code line) → IsFault bytes.now moment (record { code = code; line = line }) }
    ensures writable { IfOk result IsWritable }
    //
    // Whatever batch or fault the text has is the answer, but for want of memory.
    ensures found_only { (points : List Point) → Lines bytes.now moment points → (result ≡ Ok points) ⊎ (result ≡ Err LineFault.Memory) }
    ensures refused_only { (code : LineCode) (line : ℕ) → IsFault bytes.now moment (record { code = code; line = line }) → (result ≡ Err (LineFault.Line code line)) ⊎ (result ≡ Err LineFault.Memory) }
{
    if bytes.len() > MOST_BYTES {
        return Err(too_long());
    }
    match read_lines(alloc, bytes, moment) {
        Err(fault) => Err(fault),
        Ok(points) => match Batch::of(points) {
            Some(batch) => Ok(batch),
            None => Err(LineFault::Line {
                code: LineCode::NoPoints,
                line: 0,
            }),
        },
    }
}

/// A text has one reading: it is one batch or has one fault, and never both.
pub fn one_reading()
    ensures batch { OneBatch }
    ensures fault { OneFault }
    ensures apart { NeverBoth }
    ensures some { Readable }
{}

fn too_long() -> LineFault
    ensures { result ≡ LineFault.Line LineCode.BatchTooLong 0 }
{
    LineFault::Line {
        code: LineCode::BatchTooLong,
        line: 0,
    }
}

// A newline ends a line; what stands behind the last is one more, where anything does.
fn line_count(bytes: &[u8]) -> usize
    ensures { result ≡ spec.line_count bytes.now }
{
    let ended = memchr_iter(b'\n', bytes).count();
    if is_open(bytes) {
        return ended + 1;
    }
    ended
}

fn is_open(bytes: &[u8]) -> bool
    ensures { result ≡ spec.is_open bytes.now }
{
    match bytes.last() {
        None => false,
        Some(last) => *last != b'\n',
    }
}

// The points of all lines, or the first fault, or that there are too many lines. Those are counted as they are read.
fn read_lines(alloc: Global, bytes: &[u8], moment: Time) -> Result<BatchBuilder, LineFault>
    requires few { length bytes.now ≤ 16777216 }
    requires utf8 { IsUtf8 bytes.now }
    ensures { LinesGive (λ points. points) result (BatchIs bytes.now moment) }
{
    let seed = Seed::new(moment.get().unsigned_abs());
    let mut reader = Reader::new(alloc, seed);
    let mut points = BatchBuilder::new(alloc, seed);
    let mut number: u32 = 1;
    let mut left = bytes;
    'lines: loop {
        let (line, rest) = cut_line(left);
        match read_any_line(alloc, trimmed(line), moment, &mut reader, &mut points) {
            Ok(()) => {}
            Err(refusal) => return Err(fault_at(refusal, number, left)),
        }
        match rest.split_first() {
            None => return Ok(points),
            Some((_newline, behind)) => {
                if is_one_more(number, behind) {
                    return Err(too_long());
                }
                left = behind;
                number += 1;
            }
        }
    }
}

// Whether a further line begins behind the last that there may be.
fn is_one_more(number: u32, behind: &[u8]) -> bool
    ensures { result ≡ ((number == 5000) && not (length behind.now == 0)) }
{
    number == MOST_LINES && !behind.is_empty()
}

// How the text is refused whose line with this number is refused so and begins what is left. The lines behind it are counted
// only here: too many of them come before any other fault.
fn fault_at(refusal: Refusal, line: u32, left: &[u8]) -> LineFault
    requires { line ≤ 5001 }
    ensures long { 5001 < line + spec.line_count left.now → result ≡ LineFault.Line LineCode.BatchTooLong 0 }
    ensures fits { line + spec.line_count left.now ≤ 5001 → result ≡ spec.fault_of refusal line }
{
    if line_count(left) > (MOST_LINES + 1 - line) as usize {
        return too_long();
    }
    fault_of(refusal, line)
}

// How the text is refused whose line with this number is refused so.
fn fault_of(refusal: Refusal, line: u32) -> LineFault
    ensures { result ≡ spec.fault_of refusal line }
{
    match refusal {
        Refusal::Code(code) => LineFault::Line { code, line },
        Refusal::Memory => LineFault::Memory,
    }
}
