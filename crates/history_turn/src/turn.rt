// The turn: the words and the slot that passes step on, and the calls that a pass makes.
ghost use Rattle.std.specs.Prelude.{◌≡◌, ◌+◌, ◌<◌, ◌≤◌, ◌++◌, ◌↔◌, [], ◌∷◌, length, Some, None, IfOk, IfErr, IfSome, IfNone, IsTrue, true, false};
ghost use Rattle.history_turn.specs.Histories.{listed};
ghost use Rattle.history_turn.specs.Owned.{SameChange};
ghost use Rattle.history_turn.specs.Views.{newcomer, adding, resting, cut, part_of};
ghost use Rattle.history_turn.specs.Steps.{Looked, TookValue};
ghost use Rattle.history_turn.specs.Passes.{viewing, fresh, IsSameSeat};
ghost use Rattle.history_turn.specs.Calls.{Numbered, Joined, Taken, Closed};

use crate::counted::{Counted, News};
use crate::note::Note;
use crate::pass::{Held, Pass};
use crate::steps::{Advance, Cut, Free, Glue, Listed, Look, OneTurn, Portion, Take};
use crate::view::PassView;
use atomic_table::{Refused, Seat, Table};
use crossbeam_utils::Backoff;
use std::alloc::{AllocError, AllocFailed, Global};
use std::marker::{Brand, Model};
use std::snapshot::Snapshot;
use std::sync::Wait;
use std::time::Duration;

/// The word that is `HELD` while a pass has the turn, and else the faults of the value.
const TURN: usize = 0;

/// The word that is the first number and the number of entries.
const COUNT: usize = 1;

const HELD: u64 = 18446744073709551615;

/// The low bits of `HELD`, by which a sleeper sees whether the turn is held.
const HELD_BITS: u32 = 4294967295;

/// A count of faults may have these low bits too: then a sleeper looks again after so many milliseconds.
const LONGEST_SLEEP: u64 = 10;

const ALL_PARTS: u64 = 4294967296;

/// One value that passes take turns with. Threads share it by reference.
#[derive(Drop)]
pub struct Turn<V: Counted> {
    table: Table<Option<V>, PassView<V::Start, V::Entry, V::Loan>, Snapshot<V>, OneTurn, Global>,
}

impl<V: Counted> Model for Turn<V> {
    ghost use Rattle.std.specs.Prelude.{◌≡◌};
    ghost use Rattle.atomic_table.specs.Seated.{TableId, table_id_coded};

    ghost Value = { TableId };

    ghost coded = { table_id_coded };

    ghost view = { λ t. t.table.shared.table_id };

    ghost invariant = { λ t. (t.table.shared.table_id.words ≡ 2) × (t.table.shared.table_id.slots ≡ 1) };
}

impl<V: Counted> Turn<V> {
    /// A turn over a value with no loan, and the first pass, which has all 4294967296 parts. Where memory is
    /// wanting the value comes back.
    pub fn new(alloc: Global, value: V) -> Result<(Turn<V>, Pass<V>), (V, AllocError)>
        requires stands { V.stands value (V.start value) [] }
        requires loans { V.loans_of value ≡ [] }
        requires faults { V.first_faults (V.start value) ≡ V.faults_of value }
        ensures ok { IfOk result (λ r. r.1 ≡ record { turn = r.0; view = newcomer (V.start value); before = None }) }
        ensures err { IfErr result (λ e. e.0 ≡ value) }
    {
        let about = Snapshot::of(&value);
        let words = [value.faults(), value.number()];
        let mut slots: Vec<Option<V>> = Vec::new(alloc);
        if let Err(failed) = slots.push(Some(value)) {
            let AllocFailed { value } = failed;
            match value {
                Some(value) => {
                    slots.destroy_empty();
                    return Err((value, AllocError));
                }
                None => unreachable!(),
            }
        }
        match Table::new(alloc, &words, slots, &about) {
            Ok((table, seat)) => {
                let pass = Pass {
                    seat,
                    parts: ALL_PARTS,
                    faults: 0,
                    faults_found: 0,
                    before: None,
                };
                Ok((Turn { table }, pass))
            }
            Err(Refused { mut slots }) => match slots.pop() {
                Some(Some(value)) => {
                    slots.destroy_empty();
                    Err((value, AllocError))
                }
                _ => unreachable!(),
            },
        }
    }

    /// The first number and the number of entries, as loaded in this call.
    pub fn number(&self, pass: &mut Pass<V>) -> u64
        requires { pass.old.turn ≡ self.now }
        ensures { Numbered V.first pass.old result pass.new }
    {
        self.look(&mut pass.seat)
    }

    /// Splits a pass off with so many parts, which are 1 or more and fewer than the pass has. It has seen what the
    /// pass has, and owns nothing.
    pub fn split(&self, pass: &mut Pass<V>, parts: u64) -> Pass<V>
        requires turn { pass.old.turn ≡ self.now }
        requires without_turn { pass.old.view.has_turn ≡ false }
        requires parts { (0 < parts) × (parts < pass.old.view.parts) }
        ensures old { pass.new ≡ viewing pass.old (cut pass.old.view parts) }
        ensures new { result ≡ fresh pass.old (part_of pass.old.view parts) }
    {
        let seat = self.cut_off::<Brand>(&mut pass.seat, parts);
        pass.parts -= parts;
        Pass {
            seat,
            parts,
            faults: 0,
            faults_found: 0,
            before: None,
        }
    }

    /// Takes another pass in, with its parts and all that it owns. The pass then knows what either had seen.
    pub fn join(&self, pass: &mut Pass<V>, other: Pass<V>)
        requires turn { pass.old.turn ≡ self.now }
        requires other { (other.turn ≡ self.now) × (other.view.has_turn ≡ false) }
        ensures { Joined V.first pass.old other pass.new }
    {
        let Pass {
            seat,
            parts,
            faults,
            faults_found: _,
            before: _,
        } = other;
        self.table.shared.join_seat::<Glue<V>>(&mut pass.seat, seat);
        self.look(&mut pass.seat);
        pass.parts += parts;
        pass.faults += faults;
    }

    /// Waits for the turn and takes the value, which `give` has to be handed. It looks a few times and then sleeps until a turn is given
    /// back, for ten milliseconds at most before it looks again.
    pub fn take<R: Wait>(&self, rt: &R, pass: &mut Pass<V>) -> Held<V>
        requires turn { pass.old.turn ≡ self.now }
        requires without_turn { pass.old.view.has_turn ≡ false }
        ensures { Taken V.stands V.first V.first_faults V.faults_of V.loans_of pass.old result (V.facts_of result) pass.new }
    {
        let backoff = Backoff::new();
        for _ in rt.forever() {
            if let Some(held) = self.try_take(pass) {
                return held;
            }
            if backoff.is_completed() {
                let longest = Duration::from_millis(LONGEST_SLEEP);
                self.table.shared.park_timeout(rt, TURN, HELD_BITS, longest);
            } else {
                backoff.snooze();
            }
        }
        unreachable!()
    }

    /// Gives the value back, and with it the turn. The news tell the entry, if one was added, and the loans.
    pub fn give<N: News<V>>(&self, pass: &mut Pass<V>, held: Held<V>, news: &N)
        requires turn { pass.old.turn ≡ self.now }
        requires with_turn { pass.old.view.has_turn ≡ true }
        requires stands { V.stands held pass.old.view.start (pass.old.view.seen ++ listed (N.entry news.now held)) }
        requires faults { pass.old.view.faults_found ≤ V.faults_of held }
        requires loans { SameChange pass.old.view.loans_found (V.loans_of held) pass.old.view.loans (N.loans news.now held pass.old.view.loans) }
        ensures { pass.new ≡ viewing pass.old (resting (adding (V.first pass.old.view.start) pass.old.view (listed (N.entry news.now held))) (V.faults_of held) (N.loans news.now held pass.old.view.loans)) }
    {
        let Held { value } = held;
        self.give_back::<N, Brand, Brand>(pass, value, news);
    }

    /// Splits a note off with one part, so the pass has two or more.
    pub fn note(&self, pass: &mut Pass<V>) -> Note<V>
        requires turn { pass.old.turn ≡ self.now }
        requires without_turn { pass.old.view.has_turn ≡ false }
        requires parts { 2 ≤ pass.old.view.parts }
        ensures old { pass.new ≡ viewing pass.old (cut pass.old.view 1) }
        ensures note { result ≡ fresh pass.old (part_of pass.old.view 1) }
    {
        Note {
            pass: self.split(pass, 1),
        }
    }

    /// Takes a note in: from now on the pass knows what the note's pass had seen.
    pub fn learn(&self, pass: &mut Pass<V>, note: Note<V>)
        requires turn { pass.old.turn ≡ self.now }
        requires note { (note.turn ≡ self.now) × (note.view.has_turn ≡ false) }
        ensures { Joined V.first pass.old note pass.new }
    {
        let Note { pass: other } = note;
        self.join(pass, other);
    }

    /// All passes and notes were joined into this one.
    pub fn is_whole(&self, pass: &Pass<V>) -> bool
        ensures { IsTrue result ↔ (pass.now.view.parts ≡ 4294967296) }
    {
        pass.parts == ALL_PARTS
    }

    /// Ends the turn, by a pass that `is_whole`, and hands the value out.
    pub fn close(self, pass: Pass<V>) -> V
        requires turn { pass.turn ≡ self }
        requires without_turn { pass.view.has_turn ≡ false }
        requires whole { pass.view.parts ≡ 4294967296 }
        ensures { Closed V.stands V.first V.first_faults V.faults_of V.loans_of pass.view result }
    {
        let Turn { table } = self;
        let Pass {
            seat,
            parts: _,
            faults: _,
            faults_found: _,
            before: _,
        } = pass;
        let mut closed = table.close_with(seat);
        let value = closed.take(0);
        closed.free();
        match value {
            Some(value) => value,
            None => unreachable!(),
        }
    }

    fn look(&self, seat: &mut Seat<Option<V>, PassView<V::Start, V::Entry, V::Loan>>) -> u64
        requires seat { seat.old.table_id ≡ self.now }
        requires part { 0 < seat.old.me.0.parts }
        ensures seat { IsSameSeat seat.old seat.new }
        ensures looked { Looked V.first seat.old.me result seat.new.me }
    {
        self.table.shared.load::<Look>(seat, COUNT)
    }

    fn cut_off<W: Portion>(
        &self,
        seat: &mut Seat<Option<V>, PassView<V::Start, V::Entry, V::Loan>>,
        parts: u64,
    ) -> Seat<Option<V>, PassView<V::Start, V::Entry, V::Loan>>
        requires seat { seat.old.table_id ≡ self.now }
        requires size { W.size ≡ parts }
        requires parts { (0 < parts) × (parts < seat.old.me.0.parts) }
        requires without_turn { seat.old.me.0.has_turn ≡ false }
        ensures seat { IsSameSeat seat.old seat.new × (seat.new.me ≡ (cut seat.old.me.0 parts, seat.old.me.1)) }
        ensures new { (result.table_id ≡ seat.old.table_id) × (result.me ≡ (part_of seat.old.me.0 parts, [])) }
    {
        self.table.shared.split_seat::<Cut<W>>(seat)
    }

    // Takes the turn where it is free, and the value out of its slot.
    fn lift(&self, seat: &mut Seat<Option<V>, PassView<V::Start, V::Entry, V::Loan>>) -> Option<V>
        requires seat { seat.old.table_id ≡ self.now }
        requires part { 0 < seat.old.me.0.parts }
        requires empty { seat.old.me.1 ≡ [] }
        ensures seat { IsSameSeat seat.old seat.new }
        ensures none { IfNone result (seat.new.me ≡ seat.old.me) }
        ensures some { IfSome result (λ x. TookValue V.stands V.first V.first_faults V.faults_of V.loans_of seat.old.me x ((0, None) ∷ []) seat.new.me) }
    {
        if self.table.shared.swap::<Take>(seat, TURN, HELD) == HELD {
            return None;
        }
        self.table.shared.exchange(seat, 0, None)
    }

    fn try_take(&self, pass: &mut Pass<V>) -> Option<Held<V>>
        requires turn { pass.old.turn ≡ self.now }
        requires without_turn { pass.old.view.has_turn ≡ false }
        ensures none { IfNone result (pass.new ≡ pass.old) }
        ensures some { IfSome result (λ h. Taken V.stands V.first V.first_faults V.faults_of V.loans_of pass.old h (V.facts_of h) pass.new) }
    {
        let value = self.lift(&mut pass.seat)?;
        pass.faults_found = value.faults();
        pass.before = Some(value.facts());
        Some(Held { value })
    }

    // Writes the number of entries, of which there may be more.
    fn advance<W: Listed<V::Entry>>(
        &self,
        seat: &mut Seat<Option<V>, PassView<V::Start, V::Entry, V::Loan>>,
        number: u64,
    )
        requires seat { seat.old.table_id ≡ self.now }
        requires with_turn { (0 < seat.old.me.0.parts) × (seat.old.me.0.has_turn ≡ true) }
        requires number { number ≡ V.first seat.old.me.0.start + length (seat.old.me.0.seen ++ W.list) }
        ensures seat { IsSameSeat seat.old seat.new }
        ensures view { seat.new.me ≡ (adding (V.first seat.old.me.0.start) seat.old.me.0 W.list, seat.old.me.1) }
    {
        self.table.shared.store::<Advance<W>>(seat, COUNT, number);
    }

    // Gives the slot and the turn back.
    fn free<W: Listed<V::Loan>>(
        &self,
        seat: &mut Seat<Option<V>, PassView<V::Start, V::Entry, V::Loan>>,
        faults: u64,
    )
        requires seat { seat.old.table_id ≡ self.now }
        requires with_turn { (0 < seat.old.me.0.parts) × (seat.old.me.0.has_turn ≡ true) }
        requires value { (x : V) × (seat.old.me.1 ≡ (0, Some x) ∷ []) × V.stands x seat.old.me.0.start seat.old.me.0.seen × (V.faults_of x ≡ faults) × SameChange seat.old.me.0.loans_found (V.loans_of x) seat.old.me.0.loans W.list }
        requires faults { (seat.old.me.0.faults_found ≤ faults) × (faults < 18446744073709551615) }
        ensures seat { IsSameSeat seat.old seat.new }
        ensures view { seat.new.me ≡ (resting seat.old.me.0 faults W.list, []) }
    {
        self.table.shared.swap::<Free<W>>(seat, TURN, faults);
    }

    // Gives the value back, with the entry and the loans that the news tell.
    fn give_back<N: News<V>, W: Listed<V::Entry>, Z: Listed<V::Loan>>(
        &self,
        pass: &mut Pass<V>,
        value: V,
        news: &N,
    )
        requires turn { pass.old.turn ≡ self.now }
        requires with_turn { pass.old.view.has_turn ≡ true }
        requires entry { W.list ≡ listed (N.entry news.now value) }
        requires kept { Z.list ≡ N.loans news.now value pass.old.view.loans }
        requires stands { V.stands value pass.old.view.start (pass.old.view.seen ++ W.list) }
        requires faults { pass.old.view.faults_found ≤ V.faults_of value }
        requires loans { SameChange pass.old.view.loans_found (V.loans_of value) pass.old.view.loans Z.list }
        ensures { pass.new ≡ viewing pass.old (resting (adding (V.first pass.old.view.start) pass.old.view W.list) (V.faults_of value) Z.list) }
    {
        let (number, faults) = (value.number(), value.faults());
        match self.table.shared.exchange(&mut pass.seat, 0, Some(value)) {
            None => {}
            Some(_) => unreachable!(),
        }
        self.advance::<W>(&mut pass.seat, number);
        self.free::<Z>(&mut pass.seat, faults);
        self.table.shared.wake_one(TURN);
        if faults > pass.faults_found {
            pass.faults += 1;
        }
        pass.faults_found = 0;
    }
}
