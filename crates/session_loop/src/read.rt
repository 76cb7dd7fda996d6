//! Reads what a request asks for.
ghost use Rattle.std.specs.Prelude.{◌≡◌, ◌++◌, ℕ, ℤ, List, IfOk, codes};
ghost use Rattle.std.specs.Str.{IsUtf8};
ghost use Rattle.session_model.specs.Lines.Request.{Line, Batch};
ghost use Rattle.session_model.specs.Requests.{Means, LineSays, SelectSays, TextSays, WordsSay};
ghost use Rattle.session_loop.specs.LineAsItComes.{StandsFor};
ghost use Rattle.session_loop.specs.Gathered.{Gathers};
ghost use Rattle.session_loop.specs.Asked.{IsWritableStatement, TextOrNoneSays};

use crate::gathering::{Gathering, Unread};
use crate::pieces::{behind, cut};
use crate::words::{after_number, inserted_line, word};
use influxql_parser::{ReadFault, deletions_begin, read_deletion};
use line_protocol::{LineFault, read_batch};
use session_model::{Refusal, Statement};
use std::alloc::{AllocError, Global};
use std::str;
use tsdb_types::Time;

/// A line has so many bytes without its end.
const LONGEST: usize = 65_536;

/// What a request of one line asks for.
pub fn read_line(alloc: Global, line: &[u8], moment: Time) -> Result<Statement, AllocError>
    ensures means { IfOk result (λ statement. (text : List ℕ) → StandsFor 65536 line.now text → Means (Line text) moment statement) }
    ensures writable { IfOk result IsWritableStatement }
{
    if line.len() > LONGEST {
        return Ok(Statement::Refused(Refusal::LineTooLong));
    }
    match str::from_utf8(line) {
        Err(_) => Ok(Statement::Refused(Refusal::NotText)),
        Ok(text) => read_words(alloc, text, moment),
    }
}

/// What a BATCH asks for.
pub fn read_gathered(
    alloc: Global,
    batch: &Gathering,
    moment: Time,
) -> Result<Statement, AllocError>
    ensures means { IfOk result (λ statement. (count : ℕ) (lines : List (List ℕ)) (rest : List ℕ) → Gathers batch.now count lines rest
        → Means (Batch count lines rest) moment statement) }
    ensures writable { IfOk result IsWritableStatement }
{
    match batch.text() {
        Err(Unread::Refused(refusal)) => Ok(Statement::Refused(refusal)),
        Err(Unread::NoMemory) => Err(AllocError),
        Ok(text) => read_text(alloc, text, moment),
    }
}

/// What a text asks for that isn't refused but for being no UTF-8.
fn read_text(alloc: Global, text: &[u8], moment: Time) -> Result<Statement, AllocError>
    ensures means { IfOk result (TextOrNoneSays text.now moment) }
    ensures writable { IfOk result IsWritableStatement }
{
    match str::from_utf8(text) {
        Err(_) => Ok(Statement::Refused(Refusal::NotText)),
        Ok(_) => read_protocol(alloc, text, moment),
    }
}

/// What the words of a line ask for.
fn read_words(alloc: Global, line: &str, moment: Time) -> Result<Statement, AllocError>
    ensures means { IfOk result (LineSays line.now moment) }
    ensures writable { IfOk result IsWritableStatement }
{
    if let Some(text) = inserted_line(line.as_bytes()) {
        return read_protocol(alloc, text, moment);
    }
    if let Some(wanted) = after_number(line.as_bytes()) {
        return Ok(Statement::After(wanted));
    }
    read_statement(alloc, line, moment)
}

/// What a line asks for that is no INSERT, no BATCH and no AFTER.
fn read_statement(alloc: Global, line: &str, moment: Time) -> Result<Statement, AllocError>
    ensures means { IfOk result (WordsSay line.now moment) }
    ensures writable { IfOk result IsWritableStatement }
{
    deletions_begin();
    match read_deletion(alloc, line, moment.get()) {
        Ok(Some(deletion)) => Ok(Statement::Delete(deletion)),
        Ok(None) => read_select(alloc, line.as_bytes()),
        Err(ReadFault::Syntax) => Ok(Statement::Refused(Refusal::Syntax)),
        Err(ReadFault::TimeInOr) => Ok(Statement::Refused(Refusal::TimeInOr)),
        Err(ReadFault::NumberRange) => Ok(Statement::Refused(Refusal::NumberRange)),
        Err(ReadFault::Memory) => Err(AllocError),
    }
}

/// What a text of line protocol asks for.
fn read_protocol(alloc: Global, text: &[u8], moment: Time) -> Result<Statement, AllocError>
    requires { IsUtf8 text.now }
    ensures means { IfOk result (TextSays text.now moment) }
    ensures writable { IfOk result IsWritableStatement }
{
    match read_batch(alloc, text, moment) {
        Ok(batch) => Ok(Statement::Write(batch)),
        Err(LineFault::Line { code, line }) => {
            Ok(Statement::Refused(Refusal::Protocol { code, line }))
        }
        Err(LineFault::Memory) => Err(AllocError),
    }
}

/// What a line asks for that begins as none of these, and as no deletion.
fn read_select(alloc: Global, line: &[u8]) -> Result<Statement, AllocError>
    ensures means { IfOk result (SelectSays line.now) }
    ensures writable { IfOk result IsWritableStatement }
{
    match behind(line, b"SELECT ") {
        None => Ok(Statement::NotBuilt),
        Some(rest) => read_selected(alloc, rest),
    }
}

/// What the text behind `SELECT ` asks for.
fn read_selected(alloc: Global, text: &[u8]) -> Result<Statement, AllocError>
    ensures means { IfOk result (SelectSays (codes "SELECT " ++ text.now)) }
    ensures writable { IfOk result IsWritableStatement }
{
    let Some((field, rest)) = cut(text, b' ') else {
        return Ok(Statement::NotBuilt);
    };
    let Some(measurement) = behind(rest, b"FROM ") else {
        return Ok(Statement::NotBuilt);
    };
    let Some(field) = word(alloc, field)? else {
        return Ok(Statement::NotBuilt);
    };
    let Some(measurement) = word(alloc, measurement)? else {
        return Ok(Statement::NotBuilt);
    };
    Ok(Statement::Select { field, measurement })
}
