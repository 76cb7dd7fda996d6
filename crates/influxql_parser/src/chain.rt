// A condition is read piece by piece: each pair of parentheses that is open around the place has a chain of sides.
ghost use Rattle.std.specs.Prelude.{◌≡◌, IfOk, Some, ◌∷◌, []};
ghost use Rattle.point_model.specs.Flat.{condition_of};
ghost use Rattle.query_model.specs.declared.condition.Literal.TheVariants as literal;
ghost use Rattle.influxql_parser.specs.declared.piece.Test.TheVariants as test;
ghost use Rattle.influxql_parser.specs.Chains as spec;
ghost use Rattle.influxql_parser.specs.Chains.{asked, fresh, is_faulty, run, stack_of, stacks};
ghost use Rattle.influxql_parser.specs.DeletionTags.{deletion_test_tags};

use crate::facts::is_timed;
use crate::piece::{Piece, Test};
use point_model::{Join, TagCond, TagTest, TagText};
use query_model::{Literal, Op};
use std::alloc::{AllocError, Global};
use tsdb_types::Name;

// The sides of ORs that are closed, those of ANDs behind them, and the atom at the place, where each is there; whether a comparison of
// time stands in the chain, and whether one stands under an OR in parentheses of it.
#[derive(Drop)]
pub struct Chain {
    pub either: Option<TagCond>,
    pub before: Option<TagCond>,
    pub atom: Option<TagCond>,
    pub timed: bool,
    pub faulty: bool,
}

// The chains around the place, the innermost last, and the one at the place.
#[derive(Drop)]
pub struct Reading {
    pub outer: Vec<Chain>,
    pub here: Chain,
}

// What a condition asks of tags, and whether a comparison of time stands under an OR in it.
#[derive(Drop)]
pub struct Asked {
    pub tags: TagCond,
    pub faulty: bool,
}

// What these pieces ask, where they are those of one condition.
pub fn asked_by(alloc: Global, pieces: Vec<Piece>) -> Result<Option<Asked>, AllocError>
    ensures { IfOk result (λ found. found ≡ asked pieces.items) }
{
    let mut reading = Some(Reading {
        outer: Vec::new(alloc),
        here: nothing(),
    });
    for piece in pieces {
        reading = next(alloc, reading, piece)?;
    }
    match reading {
        None => Ok(None),
        Some(reading) => finished(alloc, reading),
    }
}

fn nothing() -> Chain
    ensures { result ≡ fresh }
{
    Chain {
        either: None,
        before: None,
        atom: None,
        timed: false,
        faulty: false,
    }
}

// One piece more, where all had a place.
fn next(
    alloc: Global,
    reading: Option<Reading>,
    piece: Piece,
) -> Result<Option<Reading>, AllocError>
    ensures { IfOk result (λ after. stacks after ≡ run (stacks reading) (piece ∷ [])) }
{
    match reading {
        None => Ok(None),
        Some(reading) => with_piece(alloc, reading, piece),
    }
}

fn with_piece(alloc: Global, reading: Reading, piece: Piece) -> Result<Option<Reading>, AllocError>
    ensures { IfOk result (λ after. stacks after ≡ spec.with_piece (stack_of reading) piece) }
{
    match piece {
        Piece::Open => opened(reading),
        Piece::Close => closed(alloc, reading),
        Piece::Join(join) => {
            let Reading { outer, here } = reading;
            match with_join(alloc, join, here)? {
                None => Ok(None),
                Some(here) => Ok(Some(Reading { outer, here })),
            }
        }
        Piece::Test(test) => {
            let Reading { outer, here } = reading;
            match with_test(alloc, test, here)? {
                None => Ok(None),
                Some(here) => Ok(Some(Reading { outer, here })),
            }
        }
    }
}

fn opened(reading: Reading) -> Result<Option<Reading>, AllocError>
    ensures { IfOk result (λ after. stacks after ≡ spec.opened (stack_of reading)) }
{
    let Reading { mut outer, here } = reading;
    if here.atom.is_some() {
        return Ok(None);
    }
    outer.push(here)?;
    Ok(Some(Reading {
        outer,
        here: nothing(),
    }))
}

// The chain at the place is an atom of the one around it.
fn closed(alloc: Global, reading: Reading) -> Result<Option<Reading>, AllocError>
    ensures { IfOk result (λ after. stacks after ≡ spec.closed (stack_of reading)) }
{
    let Reading { mut outer, here } = reading;
    match outer.pop() {
        None => Ok(None),
        Some(around) => match within(alloc, around, here)? {
            None => Ok(None),
            Some(here) => Ok(Some(Reading { outer, here })),
        },
    }
}

fn within(alloc: Global, around: Chain, here: Chain) -> Result<Option<Chain>, AllocError>
    ensures { IfOk result (λ chain. chain ≡ spec.within around here) }
{
    let timed = here.timed;
    let faulty = has_fault(&here);
    match whole(alloc, here)? {
        None => Ok(None),
        Some(atom) => Ok(Some(put(around, atom, timed, faulty))),
    }
}

fn has_fault(chain: &Chain) -> bool
    ensures { result ≡ is_faulty chain.now }
{
    if chain.either.is_some() {
        return chain.timed;
    }
    chain.faulty
}

// What the chain asks, where nothing is missing behind it.
fn whole(alloc: Global, chain: Chain) -> Result<Option<TagCond>, AllocError>
    ensures { IfOk result (λ tags. tags ≡ spec.whole chain) }
{
    let Chain {
        either,
        before,
        atom,
        timed: _,
        faulty: _,
    } = chain;
    match atom {
        None => Ok(None),
        Some(atom) => {
            let both = and_with(alloc, before, atom)?;
            let tags = or_with(alloc, either, both)?;
            Ok(Some(tags))
        }
    }
}

fn and_with(alloc: Global, before: Option<TagCond>, side: TagCond) -> Result<TagCond, AllocError>
    ensures { IfOk result (λ both. both ≡ spec.and_with before side) }
{
    match before {
        None => Ok(side),
        Some(before) => TagCond::and(alloc, before, side),
    }
}

fn or_with(alloc: Global, before: Option<TagCond>, side: TagCond) -> Result<TagCond, AllocError>
    ensures { IfOk result (λ either. either ≡ spec.or_with before side) }
{
    match before {
        None => Ok(side),
        Some(before) => TagCond::or(alloc, before, side),
    }
}

// An atom stands at the place.
fn put(chain: Chain, atom: TagCond, timed: bool, faulty: bool) -> Chain
    ensures { result ≡ spec.put chain atom timed faulty }
{
    Chain {
        either: chain.either,
        before: chain.before,
        atom: Some(atom),
        timed: chain.timed || timed,
        faulty: chain.faulty || faulty,
    }
}

fn with_join(alloc: Global, join: Join, chain: Chain) -> Result<Option<Chain>, AllocError>
    ensures { IfOk result (λ next. next ≡ spec.with_join join chain) }
{
    match join {
        Join::And => with_and(alloc, chain),
        Join::Or => with_or(alloc, chain),
    }
}

fn with_and(alloc: Global, chain: Chain) -> Result<Option<Chain>, AllocError>
    ensures { IfOk result (λ next. next ≡ spec.with_and chain) }
{
    let Chain {
        either,
        before,
        atom,
        timed,
        faulty,
    } = chain;
    match atom {
        None => Ok(None),
        Some(atom) => {
            let both = and_with(alloc, before, atom)?;
            Ok(Some(Chain {
                either,
                before: Some(both),
                atom: None,
                timed,
                faulty,
            }))
        }
    }
}

fn with_or(alloc: Global, chain: Chain) -> Result<Option<Chain>, AllocError>
    ensures { IfOk result (λ next. next ≡ spec.with_or chain) }
{
    let timed = chain.timed;
    let faulty = chain.faulty;
    match whole(alloc, chain)? {
        None => Ok(None),
        Some(either) => Ok(Some(Chain {
            either: Some(either),
            before: None,
            atom: None,
            timed,
            faulty,
        })),
    }
}

fn with_test(alloc: Global, test: Test, chain: Chain) -> Result<Option<Chain>, AllocError>
    ensures { IfOk result (λ next. next ≡ spec.with_test test chain) }
{
    if chain.atom.is_some() {
        return Ok(None);
    }
    let timed = is_timed(&test);
    let atom = tags_of(alloc, test)?;
    Ok(Some(put(chain, atom, timed, false)))
}

// What a comparison asks of tags.
fn tags_of(alloc: Global, test: Test) -> Result<TagCond, AllocError>
    ensures { IfOk result (λ tags. tags ≡ deletion_test_tags test) }
{
    match test {
        Test::Time { op: _, moment: _ } => TagCond::new(alloc, TagTest::True),
        Test::Compare { name, op, literal } => match literal {
            None => TagCond::new(alloc, TagTest::True),
            Some(Literal::Text(text)) => TagCond::new(alloc, text_test(name, op, text)),
            Some(Literal::Int(_)) => TagCond::new(alloc, TagTest::True),
            Some(Literal::Uint(_)) => TagCond::new(alloc, TagTest::True),
            Some(Literal::Bool(_)) => TagCond::new(alloc, TagTest::True),
        },
    }
}

// The test of a tag with a text for equality.
fn text_test(name: Name, op: Op, text: TagText) -> TagTest
    ensures { condition_of result ≡ deletion_test_tags (test.Compare name op (Some (literal.Text text))) }
{
    match op {
        Op::Eq => TagTest::Eq(name, text),
        Op::Ne => TagTest::Ne(name, text),
        Op::Lt => TagTest::True,
        Op::Le => TagTest::True,
        Op::Gt => TagTest::True,
        Op::Ge => TagTest::True,
    }
}

fn finished(alloc: Global, reading: Reading) -> Result<Option<Asked>, AllocError>
    ensures { IfOk result (λ found. found ≡ spec.finished (stack_of reading)) }
{
    if !reading.outer.is_empty() {
        return Ok(None);
    }
    let faulty = has_fault(&reading.here);
    match whole(alloc, reading.here)? {
        None => Ok(None),
        Some(tags) => Ok(Some(Asked { tags, faulty })),
    }
}
