// What the pieces of a condition tell by themselves.
ghost use Rattle.std.specs.Prelude.{◌≡◌, ◌≤◌, ◌+◌, IsTrue, IfSome, length};
ghost use Rattle.influxql_parser.specs.Bounds as bounds;
ghost use Rattle.influxql_parser.specs.Facts as spec;
ghost use Rattle.influxql_parser.specs.Facts.{facts_from, HasRoom, nothing_told};
ghost use Rattle.influxql_parser.specs.GrammarConditions as grammar;
ghost use Rattle.influxql_parser.specs.GrammarDeletions as deletions;
ghost use Rattle.influxql_parser.specs.Deletions as meaning;

use crate::piece::{Piece, Test};
use query_model::{Literal, Op};

// Whether all comparisons are those of a deletion, one is of time, one is out of range; the greatest lower bound and the least upper
// bound of time.
#[derive(Clone, Copy)]
pub struct Facts {
    pub allowed: bool,
    pub timed: bool,
    pub out_of_range: bool,
    pub lower: Option<i128>,
    pub upper: Option<i128>,
}

// What the pieces tell together.
pub fn facts_of(pieces: &[Piece]) -> Facts
    ensures { result ≡ facts_from pieces.now nothing_told }
{
    let mut facts = Facts {
        allowed: true,
        timed: false,
        out_of_range: false,
        lower: None,
        upper: None,
    };
    let mut left = pieces;
    while let Some((last, front)) = left.split_last() {
        facts = with_piece(last, facts);
        left = front;
    }
    facts
}

fn with_piece(piece: &Piece, facts: Facts) -> Facts
    ensures { result ≡ spec.with_piece piece.now facts }
{
    match piece {
        Piece::Open => facts,
        Piece::Close => facts,
        Piece::Join(_) => facts,
        Piece::Test(test) => with_test(test, facts),
    }
}

fn with_test(test: &Test, facts: Facts) -> Facts
    ensures { result ≡ spec.with_test test.now facts }
{
    Facts {
        allowed: is_of_tag_or_time(test) && facts.allowed,
        timed: is_timed(test) || facts.timed,
        out_of_range: is_out_of_range(test) || facts.out_of_range,
        lower: greater_of(lower_bound_of(test), facts.lower),
        upper: less_of(upper_bound_of(test), facts.upper),
    }
}

// Whether a deletion may have the comparison.
fn is_of_tag_or_time(test: &Test) -> bool
    ensures { result ≡ deletions.is_of_tag_or_time test.now }
{
    match test {
        Test::Time { op: _, moment: _ } => true,
        Test::Compare {
            name: _,
            op,
            literal,
        } => match literal {
            None => false,
            Some(Literal::Text(_)) => is_equality(*op),
            Some(Literal::Int(_)) => false,
            Some(Literal::Uint(_)) => false,
            Some(Literal::Bool(_)) => false,
        },
    }
}

fn is_equality(op: Op) -> bool
    ensures { result ≡ spec.is_equality op }
{
    match op {
        Op::Eq => true,
        Op::Ne => true,
        Op::Lt => false,
        Op::Le => false,
        Op::Gt => false,
        Op::Ge => false,
    }
}

// Whether the comparison is one of time.
pub fn is_timed(test: &Test) -> bool
    ensures { result ≡ grammar.is_of_time test.now }
{
    match test {
        Test::Time { op: _, moment: _ } => true,
        Test::Compare {
            name: _,
            op: _,
            literal: _,
        } => false,
    }
}

fn is_out_of_range(test: &Test) -> bool
    ensures { result ≡ meaning.is_out_of_range test.now }
{
    match test {
        Test::Time { op: _, moment } => moment.is_none(),
        Test::Compare {
            name: _,
            op: _,
            literal,
        } => literal.is_none(),
    }
}

fn lower_bound_of(test: &Test) -> Option<i128>
    ensures { result ≡ bounds.lower_bound_of test.now }
{
    match test {
        Test::Time { op, moment } => match moment {
            None => None,
            Some(moment) => least_passing(*op, *moment),
        },
        Test::Compare {
            name: _,
            op: _,
            literal: _,
        } => None,
    }
}

fn upper_bound_of(test: &Test) -> Option<i128>
    ensures { result ≡ bounds.upper_bound_of test.now }
{
    match test {
        Test::Time { op, moment } => match moment {
            None => None,
            Some(moment) => greatest_passing(*op, *moment),
        },
        Test::Compare {
            name: _,
            op: _,
            literal: _,
        } => None,
    }
}

// The least time that passes a comparison by itself, where it gives one.
fn least_passing(op: Op, moment: i64) -> Option<i128>
    ensures { result ≡ bounds.least_passing op moment }
{
    match op {
        Op::Eq => Some(moment as i128),
        Op::Ge => Some(moment as i128),
        Op::Gt => Some(moment as i128 + 1),
        Op::Ne => None,
        Op::Lt => None,
        Op::Le => None,
    }
}

fn greatest_passing(op: Op, moment: i64) -> Option<i128>
    ensures { result ≡ bounds.greatest_passing op moment }
{
    match op {
        Op::Eq => Some(moment as i128),
        Op::Le => Some(moment as i128),
        Op::Lt => Some(moment as i128 - 1),
        Op::Ne => None,
        Op::Gt => None,
        Op::Ge => None,
    }
}

pub fn greater_of(a: Option<i128>, b: Option<i128>) -> Option<i128>
    ensures { result ≡ bounds.greater_of a b }
{
    match a {
        None => b,
        Some(first) => match b {
            None => a,
            Some(second) => {
                if first <= second {
                    return b;
                }
                a
            }
        },
    }
}

pub fn less_of(a: Option<i128>, b: Option<i128>) -> Option<i128>
    ensures { result ≡ bounds.less_of a b }
{
    match a {
        None => b,
        Some(first) => match b {
            None => a,
            Some(second) => {
                if first <= second {
                    return a;
                }
                b
            }
        },
    }
}

// Whether parentheses are nested at most 64 deep.
pub fn nests_within(pieces: &[Piece]) -> bool
    ensures { result ≡ grammar.nests_within 0 pieces.now }
{
    let mut depth: usize = 0;
    let mut left = pieces;
    while let Some((first, behind)) = left.split_first() {
        match depth_behind(depth, first) {
            None => return false,
            Some(next) => depth = next,
        }
        left = behind;
    }
    true
}

// How many parentheses are open behind the piece, where those are at most 64.
fn depth_behind(depth: usize, piece: &Piece) -> Option<usize>
    requires { depth ≤ 64 }
    ensures depth { result ≡ spec.depth_behind depth piece.now }
    ensures within { IfSome result (λ next. next ≤ 64) }
{
    match piece {
        Piece::Open => {
            if depth < 64 {
                return Some(depth + 1);
            }
            None
        }
        Piece::Close => Some(depth.saturating_sub(1)),
        Piece::Join(_) => Some(depth),
        Piece::Test(_) => Some(depth),
    }
}

// Whether a log has room for what the pieces may ask.
pub fn has_room(pieces: &[Piece]) -> bool
    ensures { IsTrue result → HasRoom pieces.now }
{
    if pieces.len() > 65536 {
        return false;
    }
    let mut room: u64 = 1_073_676_258;
    let mut left = pieces;
    while let Some((first, behind)) = left.split_first() {
        match room_behind(room, first) {
            None => return false,
            Some(next) => room = next,
        }
        left = behind;
    }
    true
}

// What room is left behind the piece, where its texts aren't too long and there is some.
fn room_behind(room: u64, piece: &Piece) -> Option<u64>
    ensures { IfSome result (λ next. spec.IsShort piece.now × (next + spec.size_of piece.now ≤ room)) }
{
    match piece {
        Piece::Open => Some(room),
        Piece::Close => Some(room),
        Piece::Join(_) => room.checked_sub(1),
        Piece::Test(test) => room_behind_test(room, test),
    }
}

fn room_behind_test(room: u64, test: &Test) -> Option<u64>
    ensures { IfSome result (λ next. spec.IsShortTest test.now × (next + spec.size_of_test test.now ≤ room)) }
{
    match test {
        Test::Time { op: _, moment: _ } => room.checked_sub(5),
        Test::Compare {
            name,
            op: _,
            literal,
        } => match literal {
            None => room.checked_sub(5),
            Some(Literal::Text(text)) => {
                room_behind_texts(room, name.as_str().as_bytes(), text.as_str().as_bytes())
            }
            Some(Literal::Int(_)) => room.checked_sub(5),
            Some(Literal::Uint(_)) => room.checked_sub(5),
            Some(Literal::Bool(_)) => room.checked_sub(5),
        },
    }
}

fn room_behind_texts(room: u64, key: &[u8], text: &[u8]) -> Option<u64>
    ensures { IfSome result (λ next. (length key.now ≤ 65535) × (length text.now ≤ 65535) × (next + (5 + (length key.now + length text.now)) ≤ room)) }
{
    if key.len() > 65535 || text.len() > 65535 {
        return None;
    }
    room.checked_sub(5 + (key.len() as u64 + text.len() as u64))
}
