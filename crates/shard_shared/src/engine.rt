// An engine as a value that passes take turns with.
ghost use Rattle.std.specs.Prelude.{◌≡◌, ◌<◌, ◌+◌, ◌++◌, [], ◌∷◌, IfOk, IfErr, OnOk, OnErr, IsTrue, vec_len, vec_capacity};

use history_turn::Counted;
use point_model::Entry;
use shard_calls::EngineDisk;
use shard_steps::{Facts, Shard};
use std::alloc::Global;
use std::snapshot::Snapshot;
use store_trait::EntryNote;

/// The last count of faults.
pub(crate) const LAST_FAULTS: u64 = 18446744073709551614;

/// An accepted entry of an engine. No value of it is made.
pub struct Entered {
    pub entry: Entry,
    /// The moment of the disk as the step ended that logged it.
    pub moment: u64,
}

/// What a client has of an engine. No value of it is made.
pub enum Lent {
    /// A view that is out.
    View,
    /// An answer that told a fault. It stays with the client, so that all clients together have told exactly the faults that the
    /// engine counts.
    Fault,
    /// A refused write or deletion, with what it found and tried. It stays with the client, so that no client is told of more series
    /// than the engine comes to hold, and each entry that a crash may leave is one that a client was refused.
    Found(Refusal),
}

/// A refused write or deletion.
#[derive(Drop)]
pub struct Refusal {
    pub client: u32,
    /// How many series were held.
    pub series: u64,
    /// The number of the last entry then.
    pub number: u64,
    /// What was asked for, where a fault or want of memory refused it: a crash may leave it.
    pub tried: Option<EntryNote>,
}

/// An engine, how many of its answers told a fault, at most 18446744073709551614, and its refused writes and deletions. These are
/// noted for the proofs alone and take no bytes.
pub struct Engine<D> {
    pub(crate) shard: Shard<D>,
    pub(crate) faults: u64,
    pub(crate) found: Vec<Snapshot<Refusal>>,
    ghost room: { faults < 18446744073709551615 },
}

impl<D> Engine<D> {
    /// An engine that has refused nothing.
    pub fn new(alloc: Global, shard: Shard<D>) -> Engine<D>
        ensures shard { result.shard ≡ shard }
        ensures faults { result.faults ≡ 0 }
        ensures found { result.found.items ≡ [] }
    {
        Engine {
            shard,
            faults: 0,
            found: Vec::new(alloc),
        }
    }

    pub fn into_shard(self) -> Shard<D>
        ensures { result ≡ self.shard }
    {
        let Engine {
            shard,
            faults: _,
            found: _found,
        } = self;
        shard
    }

    /// Whether one refusal more can be counted and noted.
    pub(crate) fn has_room(&mut self) -> bool
        ensures shard { self.new.shard ≡ self.old.shard }
        ensures faults { self.new.faults ≡ self.old.faults }
        ensures found { self.new.found.items ≡ self.old.found.items }
        ensures room { IsTrue result → self.new.faults < 18446744073709551614 }
        ensures noted { IsTrue result → vec_len self.new.found < vec_capacity self.new.found }
    {
        if self.faults >= LAST_FAULTS {
            return false;
        }
        match self.found.reserve(1) {
            Ok(()) => true,
            Err(_) => false,
        }
    }
}

/// Notes a refusal where the room for it is there.
pub(crate) fn note(found: &mut Vec<Snapshot<Refusal>>, refusal: Snapshot<Refusal>)
    requires { vec_len found.old < vec_capacity found.old }
    ensures { found.new.items ≡ found.old.items ++ refusal ∷ [] }
{
    let _ = found.push(refusal);
}

/// The start of a history is the engine as it was then.
impl<D: EngineDisk> Counted for Engine<D> {
    ghost use Rattle.std.specs.Prelude.{length, Some, None};
    ghost use Rattle.shard_shared.specs.Entries.{lent_by, refusals_in};
    ghost use Rattle.shard_shared.specs.Reaching.{Stands};
    ghost use Rattle.shard_shared.specs.Told.{number_at};

    type Facts = Facts;

    type Start = Option<Shard<D>>;

    type Entry = Entered;

    type Loan = Lent;

    ghost start = { λ x. Some x.shard };

    ghost nowhere = { None };

    ghost first = { number_at };

    ghost first_faults = { λ _. 0 };

    ghost stands = { λ x s es. Stands D.Disk s es x };

    ghost faults_of = { λ x. x.faults };

    ghost loans_of = { λ x. lent_by x.shard.views x.faults (refusals_in x.found.items) };

    ghost facts_of = { λ x. record { cached = length x.shard.live.points; series = length x.shard.logs.series.keys } };

    fn number(&self) -> u64 {
        self.shard.number()
    }

    fn faults(&self) -> u64 {
        self.faults
    }

    fn facts(&self) -> Facts {
        self.shard.facts()
    }
}
