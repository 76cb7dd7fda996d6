ghost use Rattle.std.specs.Prelude.{◌≡◌, ◌++◌, ◌∷◌, [], ◌||◌, ◌⊎◌, true, false, ℕ, List, Ok, Err, Some, None, OnOk, IfErr, IsTrue, if◌then◌else◌};
ghost use Rattle.tsdb_types.specs.Series.{measurement_ends_at, Ascend, KeysDiffer};
ghost use Rattle.tsdb_types.specs.Spelled.{unescaped};
ghost use Rattle.tsdb_types.specs.declared.point.Point.{Point};
ghost use Rattle.line_protocol.specs.Fields.{field_spelled, fields_spelled};
ghost use Rattle.line_protocol.specs.Heads.{tags_of};
ghost use Rattle.line_protocol.specs.Kinds.{seen_of};
ghost use Rattle.line_protocol.specs.Numbers.{is_moment, signed_of};
ghost use Rattle.line_protocol.specs.Lines.{time_of, has_time_field, points_of, with_points, rest_of, LineIs, AnyLineIs};
ghost use Rattle.line_protocol.specs.Lines as spec;
ghost use Rattle.line_protocol.specs.Parts.{front, unspaced};
ghost use Rattle.line_protocol.specs.Parts as part;
ghost use Rattle.line_protocol.specs.Readings.{IsRefusal, Refuses, Gives, unless};
ghost use Rattle.line_protocol.specs.Texts.{IsOneLine, IsSpelling};

use crate::cut::{cut, without_spaces};
use crate::fault::{LineCode, Refusal};
use crate::field::read_fields;
use crate::head::{keys_differ, read_series};
use crate::heads::Heads;
use crate::kinds::Kinds;
use crate::known::Known;
use crate::number::{is_digits, number_of, without_minus};
use crate::points::{add_points, is_marked};
use crate::sorted::Part;
use crate::spelled_field::SpelledField;
use crate::walk::{Walk, walk_head};
use std::alloc::{AllocError, AllocFailed, Global};
use tsdb_types::{BatchBuilder, Seed, Time};

// What is kept from line to line: the heads and the kinds of the fields so far, where the columns of the last line may stand, and room
// for the tags and the fields of one line.
#[derive(Drop)]
pub struct Reader<'a> {
    pub heads: Heads<'a>,
    pub last: u32,
    pub kinds: Kinds<'a>,
    pub tags: Vec<Part<'a>>,
    pub fields: Vec<SpelledField<'a>>,
}

impl<'a> Reader<'a> {
    pub fn new(alloc: Global, seed: Seed) -> Reader<'a>
        ensures { (place : List ℕ) → seen_of result.kinds place ≡ None }
    {
        Reader {
            heads: Heads::new(alloc, seed),
            last: 0,
            kinds: Kinds::new(alloc),
            tags: Vec::new(alloc),
            fields: Vec::new(alloc),
        }
    }
}

// Reads a line, and adds its points; a line that holds none is passed over.
pub fn read_any_line<'a>(
    alloc: Global,
    line: &'a [u8],
    moment: Time,
    reader: &mut Reader<'a>,
    points: &mut BatchBuilder,
) -> Result<(), Refusal>
    requires { IsOneLine line.now }
    ensures ok { OnOk result ((added : List Point) × (points.new ≡ points.old ++ added) × AnyLineIs (seen_of reader.old.kinds) moment line.now (Ok (record { points = added; seen = seen_of reader.new.kinds }))) }
    ensures refused { IfErr result (λ refusal. IsRefusal refusal (λ code. AnyLineIs (seen_of reader.old.kinds) moment line.now (Err code))) }
{
    if is_skipped(line) {
        return Ok(());
    }
    read_line(alloc, line, moment, reader, points)
}

fn is_skipped(line: &[u8]) -> bool
    ensures { result ≡ spec.is_skipped line.now }
{
    match line.split_first() {
        None => true,
        Some((first, _behind)) => *first == b'#',
    }
}

// A head that stood in an earlier line isn't walked again.
fn read_line<'a>(
    alloc: Global,
    line: &'a [u8],
    moment: Time,
    reader: &mut Reader<'a>,
    points: &mut BatchBuilder,
) -> Result<(), Refusal>
    requires { IsOneLine line.now }
    ensures ok { OnOk result ((added : List Point) × (points.new ≡ points.old ++ added) × LineIs (seen_of reader.old.kinds) moment line.now (Ok (record { points = added; seen = seen_of reader.new.kinds }))) }
    ensures refused { IfErr result (λ refusal. IsRefusal refusal (λ code. LineIs (seen_of reader.old.kinds) moment line.now (Err code))) }
{
    let (head, behind) = cut(line, b' ');
    match reader.heads.find(head) {
        None => read_new(alloc, line, moment, reader, points),
        Some(known) => {
            let names = reader.last;
            reader.last = known.first;
            let text = without_spaces(behind);
            if text.is_empty() {
                return Err(Refusal::Code(LineCode::NoField));
            }
            read_behind(
                alloc,
                known,
                names,
                text,
                moment,
                &mut reader.kinds,
                &mut reader.fields,
                points,
            )
        }
    }
}

// Reads a line whose head is walked, and keeps the head.
fn read_new<'a>(
    alloc: Global,
    line: &'a [u8],
    moment: Time,
    reader: &mut Reader<'a>,
    points: &mut BatchBuilder,
) -> Result<(), Refusal>
    requires { IsOneLine line.now }
    ensures ok { OnOk result ((added : List Point) × (points.new ≡ points.old ++ added) × LineIs (seen_of reader.old.kinds) moment line.now (Ok (record { points = added; seen = seen_of reader.new.kinds }))) }
    ensures refused { IfErr result (λ refusal. IsRefusal refusal (λ code. LineIs (seen_of reader.old.kinds) moment line.now (Err code))) }
{
    match walk_head(line) {
        Err(code) => Err(Refusal::Code(code)),
        Ok(walk) => {
            let text = without_spaces(walk.behind);
            if text.is_empty() {
                return Err(without_field(&walk, &mut reader.tags));
            }
            let series = read_series(alloc, &walk, &mut reader.tags)?;
            let known = Known {
                head: walk.head,
                measurement: walk.measurement,
                reserved: walk.reserved,
                marked: is_marked(&series),
                series,
                first: u32::try_from(points.columns().len()).unwrap_or(0),
            };
            let names = reader.last;
            reader.last = known.first;
            read_behind(
                alloc,
                &known,
                names,
                text,
                moment,
                &mut reader.kinds,
                &mut reader.fields,
                points,
            )?;
            reader.heads.keep(known)?;
            Ok(())
        }
    }
}

// Why a line without a field is refused.
fn without_field<'a>(walk: &Walk<'a>, tags: &mut Vec<Part<'a>>) -> Refusal
    requires one_line { IsOneLine walk.now.head.now }
    requires ascend { IsTrue walk.now.ascend → Ascend (tags_of walk.now.head.now) }
    ensures { IsRefusal result (λ code. ((code ≡ LineCode.DuplicateTag) × ¬ (KeysDiffer (tags_of walk.now.head.now))) ⊎ ((code ≡ LineCode.NoField) × KeysDiffer (tags_of walk.now.head.now))) }
{
    if walk.ascend {
        return Refusal::Code(LineCode::NoField);
    }
    match keys_differ(tags, walk.head) {
        Err(_) => Refusal::Memory,
        Ok(differ) => {
            if differ {
                return Refusal::Code(LineCode::NoField);
            }
            Refusal::Code(LineCode::DuplicateTag)
        }
    }
}

// Reads what stands behind the head and its spaces, and adds the points.
fn read_behind<'a>(
    alloc: Global,
    known: &Known<'a>,
    names: u32,
    text: &'a [u8],
    moment: Time,
    kinds: &mut Kinds<'a>,
    fields: &mut Vec<SpelledField<'a>>,
    points: &mut BatchBuilder,
) -> Result<(), Refusal>
    requires one_line { IsOneLine (front 32 false text.now) }
    ensures ok { OnOk result ((added : List Point) × (points.new ≡ points.old ++ added) × (rest_of (seen_of kinds.old) moment (unescaped measurement_ends_at known.now.measurement) known.now.reserved known.now.series (front 32 false text.now) (unspaced (part.rest 32 false text.now)) ≡ Ok (record { points = added; seen = seen_of kinds.new }))) }
    ensures refused { IfErr result (λ refusal. Refuses refusal (rest_of (seen_of kinds.old) moment (unescaped measurement_ends_at known.now.measurement) known.now.reserved known.now.series (front 32 false text.now) (unspaced (part.rest 32 false text.now)))) }
{
    let behind = read_fields(fields, text)?;
    let time = read_time(without_spaces(behind), moment)?;
    names_step(known.reserved, fields.as_slice())?;
    add_points(alloc, known, names, fields.as_slice(), time, points)?;
    kinds.note_all(known.measurement, fields.as_slice())?;
    Ok(())
}

// The time of a line, which is the moment where none is given.
fn read_time(text: &[u8], moment: Time) -> Result<Time, Refusal>
    ensures { Gives (λ time. time) result (time_of moment text.now) }
{
    if text.is_empty() {
        return Ok(moment);
    }
    let (negative, digits) = without_minus(text);
    if !is_digits(digits) {
        return Err(Refusal::Code(LineCode::BadTime));
    }
    match number_of(digits) {
        None => Err(Refusal::Code(LineCode::TimeRange)),
        Some(number) => match moment_of(negative, number) {
            None => Err(Refusal::Code(LineCode::TimeRange)),
            Some(time) => Ok(time),
        },
    }
}

fn moment_of(negative: bool, number: u64) -> Option<Time>
    ensures { result ≡ (if is_moment number then Some (signed_of negative number) else None) }
{
    if number > 9223372036854775806 {
        return None;
    }
    if negative {
        return Time::new(-(number as i64));
    }
    Time::new(number as i64)
}

fn names_step(reserved: bool, fields: &[SpelledField<'_>]) -> Result<(), Refusal>
    ensures { Gives (λ _. true) result (unless (reserved || has_time_field (fields_spelled fields.now)) LineCode.ReservedName) }
{
    if reserved || has_time(fields) {
        return Err(Refusal::Code(LineCode::ReservedName));
    }
    Ok(())
}

fn has_time(fields: &[SpelledField<'_>]) -> bool
    ensures { result ≡ has_time_field (fields_spelled fields.now) }
{
    for field in fields {
        if field.is_time() {
            return true;
        }
    }
    false
}
