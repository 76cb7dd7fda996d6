// A small engine behind a turn: a counter that adds up what it is given, and lends one view at a time.
ghost use Rattle.std.specs.Prelude.{◌≡◌, ◌+◌, ◌<◌, ◌≤◌, ◌++◌, ◌∷◌, [], length, sum, List, ℕ, Some, None, IfSome, IfNone, IfOk, All, Contains, slice_index_or, nat_eq, false};
ghost use Rattle.history_turn.specs.Histories.{StartsWith, listed};
ghost use Rattle.history_turn.specs.Owned.{without};

use history_turn::{Counted, News, Nothing, Pass, Turn};
use std::alloc::{AllocError, Global};
use std::sync::Wait;
use std::test::Fail;
use std::thread;
use std::thread::Threads;

struct Start {
    number: u64,
    total: u64,
    faults: u64,
}

#[derive(Drop)]
struct Engine {
    works: bool,
    number: u64,
    total: u64,
    faults: u64,
    out: Option<u64>,
    ghost room: { faults < 18446744073709551615 },
}

impl Engine {
    /// Adds an entry, unless the device fails or a number has no room.
    fn write(&mut self, n: u64) -> Option<u64>
        ensures some { IfSome result (λ k. (self.new.number ≡ self.old.number + 1) × (k ≡ self.new.number) × (self.new.total ≡ self.old.total + n)) }
        ensures none { IfNone result ((self.new.number ≡ self.old.number) × (self.new.total ≡ self.old.total)) }
        ensures faults { self.old.faults ≤ self.new.faults }
        ensures out { self.new.out ≡ self.old.out }
    {
        if self.number == u64::MAX || n > u64::MAX - self.total {
            return None;
        }
        if !self.works {
            if self.faults < u64::MAX - 1 {
                self.faults += 1;
            }
            return None;
        }
        self.number += 1;
        self.total += n;
        Some(self.number)
    }

    /// Lends a view, unless one is out.
    fn begin(&mut self) -> Option<u64>
        ensures some { IfSome result (λ no. (self.old.out ≡ None) × (self.new.out ≡ Some no)) }
        ensures none { IfNone result (self.new.out ≡ self.old.out) }
        ensures same { (self.new.number ≡ self.old.number) × (self.new.total ≡ self.old.total) × (self.new.faults ≡ self.old.faults) }
    {
        if self.out.is_some() {
            return None;
        }
        self.out = Some(self.number);
        self.out
    }

    /// Takes the view back that is out.
    fn end(&mut self, no: u64)
        requires { self.old.out ≡ Some no }
        ensures { (self.new.out ≡ None) × (self.new.number ≡ self.old.number) × (self.new.total ≡ self.old.total) × (self.new.faults ≡ self.old.faults) }
    {
        let _ = no;
        self.out = None;
    }
}

impl Counted for Engine {
    type Facts = u64;

    type Start = Start;

    type Entry = u64;

    type Loan = u64;

    ghost start = { λ x. record { number = x.number; total = x.total; faults = x.faults } };

    ghost nowhere = { record { number = 0; total = 0; faults = 0 } };

    ghost first = { λ s. s.number };

    ghost first_faults = { λ s. s.faults };

    ghost stands = { λ x s es. (x.number ≡ s.number + length es) × (x.total ≡ s.total + sum es) };

    ghost faults_of = { λ x. x.faults };

    ghost loans_of = { λ x. listed x.out };

    ghost facts_of = { λ x. x.total };

    fn number(&self) -> u64 {
        self.number
    }

    fn faults(&self) -> u64 {
        self.faults
    }

    fn facts(&self) -> u64 {
        self.total
    }
}

/// An entry was added.
#[derive(Drop)]
struct Wrote(u64);

impl News<Engine> for Wrote {
    ghost entry = { λ news _. Some news.0 };

    ghost loans = { λ _ _ ls. ls };
}

/// A view was lent.
#[derive(Drop)]
struct Began(u64);

impl News<Engine> for Began {
    ghost entry = { λ _ _. None };

    ghost loans = { λ news _ ls. news.0 ∷ ls };
}

/// A view came back.
#[derive(Drop)]
struct Ended(u64);

impl News<Engine> for Ended {
    ghost entry = { λ _ _. None };

    ghost loans = { λ news _ ls. without (nat_eq news.0) ls };
}

/// The number that comes back is the pass's own, and its entry is the last that the pass then knows.
fn add<R: Wait>(rt: &R, turn: &Turn<Engine>, pass: &mut Pass<Engine>, n: u64) -> Option<u64>
    requires turn { pass.old.turn ≡ turn.now }
    requires without_turn { pass.old.view.has_turn ≡ false }
    ensures same { (pass.new.turn ≡ pass.old.turn) × (pass.new.view.has_turn ≡ false) × (pass.new.view.start ≡ pass.old.view.start) × (pass.new.view.parts ≡ pass.old.view.parts) }
    ensures some { IfSome result (λ k. (es : List ℕ) × (pass.new.view.seen ≡ es ++ n ∷ []) × StartsWith es pass.old.view.seen × (pass.new.view.own ≡ k ∷ pass.old.view.own)) }
    ensures none { IfNone result (pass.new.view.own ≡ pass.old.view.own) }
{
    let mut held = turn.take(rt, pass);
    let engine = held.value();
    match engine.write(n) {
        Some(k) => {
            turn.give(pass, held, &Wrote(n));
            Some(k)
        }
        None => {
            turn.give(pass, held, &Nothing);
            None
        }
    }
}

fn begin_view<R: Wait>(rt: &R, turn: &Turn<Engine>, pass: &mut Pass<Engine>) -> Option<u64>
    requires turn { pass.old.turn ≡ turn.now }
    requires without_turn { pass.old.view.has_turn ≡ false }
    ensures same { (pass.new.turn ≡ pass.old.turn) × (pass.new.view.has_turn ≡ false) × (pass.new.view.parts ≡ pass.old.view.parts) }
    ensures some { IfSome result (λ no. pass.new.view.loans ≡ no ∷ pass.old.view.loans) }
    ensures none { IfNone result (pass.new.view.loans ≡ pass.old.view.loans) }
{
    let mut held = turn.take(rt, pass);
    let engine = held.value();
    match engine.begin() {
        Some(no) => {
            turn.give(pass, held, &Began(no));
            Some(no)
        }
        None => {
            turn.give(pass, held, &Nothing);
            None
        }
    }
}

/// The view is this engine's, since it is one of the pass's loans.
fn end_view<R: Wait>(rt: &R, turn: &Turn<Engine>, pass: &mut Pass<Engine>, no: u64)
    requires turn { pass.old.turn ≡ turn.now }
    requires without_turn { pass.old.view.has_turn ≡ false }
    requires loan { Contains pass.old.view.loans no }
    ensures same { (pass.new.turn ≡ pass.old.turn) × (pass.new.view.has_turn ≡ false) × (pass.new.view.parts ≡ pass.old.view.parts) }
    ensures loans { pass.new.view.loans ≡ without (nat_eq no) pass.old.view.loans }
{
    let mut held = turn.take(rt, pass);
    let engine = held.value();
    engine.end(no);
    turn.give(pass, held, &Ended(no));
}

fn counted<R: Wait>(rt: &R, turn: &Turn<Engine>, pass: &mut Pass<Engine>, n: u64) -> Option<u64>
    requires turn { pass.old.turn ≡ turn.now }
    requires without_turn { pass.old.view.has_turn ≡ false }
    ensures same { (pass.new.turn ≡ pass.old.turn) × (pass.new.view.has_turn ≡ false) × (pass.new.view.start ≡ pass.old.view.start) × (pass.new.view.parts ≡ pass.old.view.parts) }
    ensures own { length pass.new.view.own ≡ length pass.old.view.own + length (listed result) }
{
    add(rt, turn, pass, n)
}

/// A client, and what came of its call.
struct Client {
    pass: Pass<Engine>,
    n: u64,
    added: Option<u64>,
}

fn serve<R: Wait>(rt: &R, turn: &Turn<Engine>, client: &mut Client)
    requires pass { (client.old.pass.turn ≡ turn.now) × (client.old.pass.view.has_turn ≡ false) }
    ensures same { (client.new.pass.turn ≡ client.old.pass.turn) × (client.new.pass.view.has_turn ≡ false) × (client.new.pass.view.start ≡ client.old.pass.view.start) × (client.new.pass.view.parts ≡ client.old.pass.view.parts) }
    ensures own { length client.new.pass.view.own ≡ length client.old.pass.view.own + length (listed client.new.added) }
{
    client.added = counted(rt, turn, &mut client.pass, client.n);
}

fn serve_all<R: Threads + Wait + Sync>(rt: &R, turn: &Turn<Engine>, clients: &mut [Client])
    requires some { 0 < length clients.old }
    requires passes { All (λ c. (c.pass.turn ≡ turn.now) × (c.pass.view.has_turn ≡ false)) clients.old }
    ensures { (k : ℕ) (d : _) → k < length clients.old
        → ((slice_index_or clients.new k d).pass.turn ≡ (slice_index_or clients.old k d).pass.turn) × ((slice_index_or clients.new k d).pass.view.has_turn ≡ false) × ((slice_index_or clients.new k d).pass.view.start ≡ (slice_index_or clients.old k d).pass.view.start) × ((slice_index_or clients.new k d).pass.view.parts ≡ (slice_index_or clients.old k d).pass.view.parts)
        × (length (slice_index_or clients.new k d).pass.view.own ≡ length (slice_index_or clients.old k d).pass.view.own + length (listed (slice_index_or clients.new k d).added)) }
{
    thread::for_each_mut(
        rt,
        clients,
        clients.len(),
        &|_, client: &mut Client|
            requires { (client.old.pass.turn ≡ turn.now) × (client.old.pass.view.has_turn ≡ false) }
            ensures { (client.new.pass.turn ≡ client.old.pass.turn) × (client.new.pass.view.has_turn ≡ false) × (client.new.pass.view.start ≡ client.old.pass.view.start) × (client.new.pass.view.parts ≡ client.old.pass.view.parts)
                × (length client.new.pass.view.own ≡ length client.old.pass.view.own + length (listed client.new.added)) }
        { serve(rt, turn, client) },
    );
}

fn close_two(turn: Turn<Engine>, first: Pass<Engine>, second: Pass<Engine>) -> Engine
    requires first { (first.turn ≡ turn) × (first.view.has_turn ≡ false) }
    requires second { (second.turn ≡ turn) × (second.view.has_turn ≡ false) }
    requires whole { first.view.parts + second.view.parts ≡ 4294967296 }
    ensures { result.number ≡ first.view.start.number + (length first.view.own + length second.view.own) }
{
    let mut first = first;
    turn.join(&mut first, second);
    turn.close(first)
}

/// Two threads add an entry each: the number rises by as many as were added.
fn both<R: Threads + Wait + Sync>(
    rt: &R,
    alloc: Global,
    engine: Engine,
    a: u64,
    b: u64,
) -> Result<(Engine, Option<u64>, Option<u64>), (Engine, AllocError)>
    requires { engine.out ≡ None }
    ensures { IfOk result (λ r. r.0.number ≡ engine.number + (length (listed r.1) + length (listed r.2))) }
{
    let (turn, mut first) = Turn::new(alloc, engine)?;
    let second = turn.split(&mut first, 1);
    let mut clients = [
        Client {
            pass: first,
            n: a,
            added: None,
        },
        Client {
            pass: second,
            n: b,
            added: None,
        },
    ];
    serve_all(rt, &turn, &mut clients);
    let [one, other] = clients;
    let Client {
        pass: first,
        n: _,
        added: left,
    } = one;
    let Client {
        pass: second,
        n: _,
        added: right,
    } = other;
    Ok((close_two(turn, first, second), left, right))
}

fn new_engine(works: bool) -> Engine
    ensures { result.out ≡ None }
{
    Engine {
        works,
        number: 5,
        total: 0,
        faults: 0,
        out: None,
    }
}

fn figures(engine: Engine) -> (u64, u64, u64) {
    (engine.number, engine.total, engine.faults)
}

// Over a device that works, and over one that doesn't.
#[test]
fn two_threads_add(rt: HostRuntime) -> Result<(), Fail> {
    for (works, left_behind) in [(true, (7, 7, 0)), (false, (5, 0, 2))] {
        match both(&rt, rt.alloc(), new_engine(works), 3, 4) {
            Ok((engine, left, right)) => {
                assert_eq!(rt; (left.is_some(), right.is_some()), (works, works));
                assert_eq!(rt; figures(engine), left_behind);
            }
            Err(_) => assert!(rt; false),
        }
    }
    Ok(())
}

#[test]
fn a_note_is_learned(rt: HostRuntime) -> Result<(), Fail> {
    match Turn::new(rt.alloc(), new_engine(true)) {
        Ok((turn, mut first)) => {
            let mut second = turn.split(&mut first, 9);
            assert_eq!(rt; add(&rt, &turn, &mut first, 3), Some(6));
            let note = turn.note(&mut first);
            turn.learn(&mut second, note);
            assert_eq!(rt; turn.number(&mut second), 6);
            assert_eq!(rt; second.parts(), 10);
            assert_eq!(rt; first.before(), Some(0));
            assert_eq!(rt; second.before(), None);
            assert!(rt; !turn.is_whole(&first));
            turn.join(&mut first, second);
            assert!(rt; turn.is_whole(&first));
            assert_eq!(rt; first.faults(), 0);
            assert_eq!(rt; figures(turn.close(first)), (6, 3, 0));
        }
        Err(_) => assert!(rt; false),
    }
    Ok(())
}

#[test]
fn a_view_is_lent_and_comes_back(rt: HostRuntime) -> Result<(), Fail> {
    match Turn::new(rt.alloc(), new_engine(true)) {
        Ok((turn, mut pass)) => {
            if let Some(no) = begin_view(&rt, &turn, &mut pass) {
                assert_eq!(rt; no, 5);
                assert_eq!(rt; begin_view(&rt, &turn, &mut pass), None);
                end_view(&rt, &turn, &mut pass, no);
            }
            assert_eq!(rt; begin_view(&rt, &turn, &mut pass), Some(5));
            assert_eq!(rt; turn.close(pass).out, Some(5));
        }
        Err(_) => assert!(rt; false),
    }
    Ok(())
}
