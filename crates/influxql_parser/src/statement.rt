// DELETE, DROP SERIES and DROP MEASUREMENT, from their tokens to the parts that mean a deletion.
ghost use Rattle.std.specs.Prelude.{◌≡◌, ◌≤ℤ◌, IfOk, IfErr, IfSome, IfNone, None, Some, unwrap_or};
ghost use Rattle.tsdb_types.specs.Moments.{IsMoment};
ghost use Rattle.query_model.specs.Selected.{first_moment, last_moment};
ghost use Rattle.influxql_parser.specs.Bounds as bounds;
ghost use Rattle.influxql_parser.specs.GrammarDeletions.{IsDelete, IsDeletionCondition, IsDeletionStatement, IsDropMeasurement, IsDropSeries, IsOfMeasurement, IsWhere};
ghost use Rattle.influxql_parser.specs.Deletions.{HasNoReading};
ghost use Rattle.influxql_parser.specs.Reads.{HasNoCondition, IsFaultOf, IsMeantBy, IsNoneOf, IsOfPieces, IsReadFrom, IsReadMaybe, IsReadOf, IsReadWhere};

use crate::chain::{Asked, asked_by};
use crate::facts::{Facts, facts_of, has_room, nests_within};
use crate::fault::ReadFault;
use crate::keyword::{behind_keyword, behind_three, behind_two};
use crate::piece::Piece;
use crate::pieces::pieces_of;
use crate::token::Token;
use crate::word::{name_in, only_name};
use point_model::{Deletion, TagCond, TagTest};
use std::alloc::{AllocError, Global};
use tsdb_types::{Name, Time};

const FIRST: i128 = -9223372036854775806;

const LAST: i128 = 9223372036854775806;

// A condition, or none: what it asks of tags, what its pieces tell, and whether a log has room for it.
#[derive(Drop)]
pub struct Where {
    pub asked: Asked,
    pub facts: Facts,
    pub fits: bool,
}

// A deletion that was read, whatever it may be refused for.
#[derive(Drop)]
pub struct Parts {
    pub measurement: Name,
    pub condition: Where,
}

// The parts of the statement that these tokens are.
pub fn statement_in(
    alloc: Global,
    now: i64,
    tokens: &[Token<'_>],
) -> Result<Option<Parts>, AllocError>
    ensures found { IfOk result (λ found. IfSome found (IsReadFrom (IsDeletionStatement now tokens.now))) }
    ensures none { IfOk result (λ found. IfNone found (HasNoReading (IsDeletionStatement now tokens.now))) }
{
    if let Some(parts) = delete_in(alloc, now, tokens)? {
        return Ok(Some(parts));
    }
    if let Some(parts) = drop_series_in(alloc, now, tokens)? {
        return Ok(Some(parts));
    }
    match drop_measurement_in(alloc, tokens)? {
        None => Ok(None),
        Some(parts) => Ok(Some(parts)),
    }
}

// DELETE FROM, a name, and a condition or none.
fn delete_in(alloc: Global, now: i64, tokens: &[Token<'_>]) -> Result<Option<Parts>, AllocError>
    ensures found { IfOk result (λ found. IfSome found (IsReadFrom (IsDelete now tokens.now))) }
    ensures none { IfOk result (λ found. IfNone found (HasNoReading (IsDelete now tokens.now))) }
{
    match behind_two(b"delete", b"from", tokens) {
        None => Ok(None),
        Some(behind) => of_measurement(alloc, now, behind),
    }
}

// DROP SERIES FROM, a name, and a condition without a time or none.
fn drop_series_in(
    alloc: Global,
    now: i64,
    tokens: &[Token<'_>],
) -> Result<Option<Parts>, AllocError>
    ensures found { IfOk result (λ found. IfSome found (IsReadFrom (IsDropSeries now tokens.now))) }
    ensures none { IfOk result (λ found. IfNone found (HasNoReading (IsDropSeries now tokens.now))) }
{
    match behind_three(b"drop", b"series", b"from", tokens) {
        None => Ok(None),
        Some(behind) => match of_measurement(alloc, now, behind)? {
            None => Ok(None),
            Some(parts) => {
                if parts.condition.facts.timed {
                    return Ok(None);
                }
                Ok(Some(parts))
            }
        },
    }
}

// DROP MEASUREMENT and a name.
fn drop_measurement_in(alloc: Global, tokens: &[Token<'_>]) -> Result<Option<Parts>, AllocError>
    ensures found { IfOk result (λ found. IfSome found (IsReadFrom (IsDropMeasurement tokens.now))) }
    ensures none { IfOk result (λ found. IfNone found (HasNoReading (IsDropMeasurement tokens.now))) }
{
    match behind_two(b"drop", b"measurement", tokens) {
        None => Ok(None),
        Some(behind) => match only_name(alloc, behind)? {
            None => Ok(None),
            Some(measurement) => {
                let condition = no_condition(alloc)?;
                Ok(Some(Parts {
                    measurement,
                    condition,
                }))
            }
        },
    }
}

// A name, and a condition behind WHERE or none.
fn of_measurement(
    alloc: Global,
    now: i64,
    tokens: &[Token<'_>],
) -> Result<Option<Parts>, AllocError>
    ensures found { IfOk result (λ found. IfSome found (IsReadFrom (IsOfMeasurement now tokens.now))) }
    ensures none { IfOk result (λ found. IfNone found (HasNoReading (IsOfMeasurement now tokens.now))) }
{
    match tokens.split_first() {
        None => Ok(None),
        Some((named, behind)) => match name_in(alloc, named)? {
            None => Ok(None),
            Some(measurement) => match where_in(alloc, now, behind)? {
                None => Ok(None),
                Some(condition) => Ok(Some(Parts {
                    measurement,
                    condition,
                })),
            },
        },
    }
}

// A condition behind WHERE, or nothing.
fn where_in(alloc: Global, now: i64, tokens: &[Token<'_>]) -> Result<Option<Where>, AllocError>
    ensures found { IfOk result (λ found. IfSome found (IsReadMaybe (IsWhere now tokens.now))) }
    ensures none { IfOk result (λ found. IfNone found (IsNoneOf (IsWhere now tokens.now))) }
{
    if tokens.is_empty() {
        let condition = no_condition(alloc)?;
        return Ok(Some(condition));
    }
    match behind_keyword(b"where", tokens) {
        None => Ok(None),
        Some(behind) => match condition_in(alloc, now, behind)? {
            None => Ok(None),
            Some(condition) => Ok(Some(condition)),
        },
    }
}

// What is told where no condition stands.
fn no_condition(alloc: Global) -> Result<Where, AllocError>
    ensures { IfOk result (IsReadOf None) }
{
    let tags = TagCond::new(alloc, TagTest::True)?;
    Ok(Where {
        asked: Asked {
            tags,
            faulty: false,
        },
        facts: Facts {
            allowed: true,
            timed: false,
            out_of_range: false,
            lower: None,
            upper: None,
        },
        fits: true,
    })
}

// The condition that these tokens are.
fn condition_in(alloc: Global, now: i64, tokens: &[Token<'_>]) -> Result<Option<Where>, AllocError>
    ensures found { IfOk result (λ found. IfSome found (IsReadWhere (IsDeletionCondition now tokens.now))) }
    ensures none { IfOk result (λ found. IfNone found (HasNoCondition (IsDeletionCondition now tokens.now))) }
{
    match pieces_of(alloc, now, tokens)? {
        None => Ok(None),
        Some(pieces) => match condition_of(alloc, pieces)? {
            None => Ok(None),
            Some(condition) => Ok(Some(condition)),
        },
    }
}

// The condition that these pieces are.
fn condition_of(alloc: Global, pieces: Vec<Piece>) -> Result<Option<Where>, AllocError>
    ensures found { IfOk result (λ found. IfSome found (IsReadWhere (IsOfPieces pieces.items))) }
    ensures none { IfOk result (λ found. IfNone found (HasNoCondition (IsOfPieces pieces.items))) }
{
    let facts = facts_of(pieces.as_slice());
    if !facts.allowed {
        return Ok(None);
    }
    if !nests_within(pieces.as_slice()) {
        return Ok(None);
    }
    let fits = has_room(pieces.as_slice());
    match asked_by(alloc, pieces)? {
        None => Ok(None),
        Some(asked) => Ok(Some(Where { asked, facts, fits })),
    }
}

// The deletion that the parts mean, or what they are refused for.
pub fn meant(parts: Parts) -> Result<Deletion, ReadFault>
    ensures found { IfOk result (IsMeantBy parts) }
    ensures refused { IfErr result (IsFaultOf parts) }
{
    let Parts {
        measurement,
        condition,
    } = parts;
    if condition.asked.faulty {
        return Err(ReadFault::TimeInOr);
    }
    if condition.facts.out_of_range {
        return Err(ReadFault::NumberRange);
    }
    if !condition.fits || measurement.as_str().len() > 65535 {
        return Err(ReadFault::Memory);
    }
    let (from, to) = times_between(condition.facts.lower, condition.facts.upper);
    Ok(Deletion {
        measurement,
        tags: condition.asked.tags,
        from,
        to,
    })
}

// The first and the last time between two bounds.
fn times_between(lower: Option<i128>, upper: Option<i128>) -> (Time, Time)
    ensures { result ≡ bounds.times_between lower upper }
{
    let from = start_of(lower);
    let to = end_of(upper);
    if from <= to {
        return (time_of(from), time_of(to));
    }
    (time_of(LAST), time_of(FIRST))
}

fn start_of(lower: Option<i128>) -> i128
    ensures value { result ≡ unwrap_or (bounds.greater_of lower (Some first_moment)) first_moment }
    ensures least { first_moment ≤ℤ result }
{
    match lower {
        None => FIRST,
        Some(bound) => {
            if bound <= FIRST {
                return FIRST;
            }
            bound
        }
    }
}

fn end_of(upper: Option<i128>) -> i128
    ensures value { result ≡ unwrap_or (bounds.less_of upper (Some last_moment)) last_moment }
    ensures greatest { result ≤ℤ last_moment }
{
    match upper {
        None => LAST,
        Some(bound) => {
            if bound <= LAST {
                return bound;
            }
            LAST
        }
    }
}

fn time_of(nanoseconds: i128) -> Time
    requires { IsMoment nanoseconds }
    ensures { result ≡ nanoseconds }
{
    match Time::new(nanoseconds as i64) {
        Some(time) => time,
        None => Time::default(),
    }
}
