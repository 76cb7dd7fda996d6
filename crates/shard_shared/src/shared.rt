// One client's store of an engine that others share.
ghost use Rattle.std.specs.Prelude.{◌≡◌, false};
ghost use Rattle.shard_shared.specs.Told.{is_deletion_fault, is_fault};

use crate::engine::note;
use crate::news::{Began, Deleted, Ended, Failed, Refused, Wrote};
use crate::{Engine, Place, Refusal};
use crossbeam_utils::Backoff;
use history_turn::{Nothing, Pass, Turn};
use point_model::{Deletion, Need};
use shard_calls::{EngineDisk, attempt, deletion_attempt};
use shard_steps::{begin_view, end_view};
use std::marker::PhantomData;
use std::snapshot::Snapshot;
use std::sync::Wait;
use store_trait::{DeleteFault, EntryNote, ListView, Store, ViewFault, WriteFault};
use tsdb_types::Batch;

/// What one client has of an engine behind a turn. The pass hasn't the turn between calls, and keeps its parts.
pub struct Shared<'t, D: EngineDisk, R: Wait, P: Place> {
    pub(crate) rt: &'t R,
    pub(crate) turn: &'t Turn<Engine<D>>,
    pub(crate) pass: Pass<Engine<D>>,
    pub(crate) client: u32,
    pub(crate) place: PhantomData<P>,
    ghost at_turn: { turn.now ≡ P.turn },
    ghost of_turn: { pass.turn ≡ P.turn },
    ghost without_turn: { pass.view.has_turn ≡ false },
    ghost of_parts: { pass.view.parts ≡ P.parts },
}

impl<'t, D: EngineDisk, R: Wait, P: Place> Shared<'t, D, R, P> {
    /// The store of a client over its pass.
    pub fn new(
        rt: &'t R,
        turn: &'t Turn<Engine<D>>,
        pass: Pass<Engine<D>>,
        client: u32,
    ) -> Shared<'t, D, R, P>
        requires turn { turn.now ≡ P.turn }
        requires pass { pass.turn ≡ P.turn }
        requires without_turn { pass.view.has_turn ≡ false }
        requires parts { pass.view.parts ≡ P.parts }
        ensures pass { result.pass ≡ pass }
        ensures client { result.client ≡ client }
    {
        Shared {
            rt,
            turn,
            pass,
            client,
            place: PhantomData,
        }
    }

    /// Gives the pass back, which is of the same turn, has the same parts and hasn't the turn.
    pub fn into_pass(self) -> Pass<Engine<D>>
        ensures pass { result ≡ self.entry.pass }
        ensures turn { result.turn ≡ P.turn }
        ensures without_turn { result.view.has_turn ≡ false }
        ensures parts { result.view.parts ≡ P.parts }
    {
        let Shared {
            rt: _,
            turn: _,
            pass,
            client: _,
            place: _,
        } = self;
        pass
    }
}

impl<'t, D: EngineDisk, R: Wait, P: Place> Store for Shared<'t, D, R, P> {
    ghost use Rattle.shard_shared.specs.Told.{told_over, health_by};

    type View = ListView;

    ghost told = { λ s. told_over s.client s.pass.view };

    ghost health = { λ s. health_by D.Disk s.pass.view };

    /// Where no further refusal could be counted and noted, the batch is refused for want of memory before anything is done.
    fn write(&mut self, batch: &Batch) -> Result<u64, WriteFault> {
        let mut held = self.turn.take(self.rt, &mut self.pass);
        let engine = held.value();
        if !engine.has_room() {
            self.turn.give(&mut self.pass, held, &Nothing);
            return Err(WriteFault::Memory);
        }
        match D::write(&mut engine.shard, self.client, batch) {
            Ok(number) => {
                let news = Wrote {
                    client: self.client,
                    batch,
                };
                self.turn.give(&mut self.pass, held, &news);
                Ok(number)
            }
            Err(fault) => {
                let refusal = Refusal {
                    client: self.client,
                    series: engine.shard.facts().series,
                    number: engine.shard.number(),
                    tried: attempt(&fault, EntryNote::Written(Snapshot::of(batch))),
                };
                note(&mut engine.found, Snapshot::of(&refusal));
                if tells_fault(&fault) {
                    engine.faults += 1;
                    self.turn
                        .give(&mut self.pass, held, &Failed { refusal: &refusal });
                    return Err(fault);
                }
                self.turn
                    .give(&mut self.pass, held, &Refused { refusal: &refusal });
                Err(fault)
            }
        }
    }

    /// Where no further refusal could be counted and noted, the deletion is refused for want of memory before anything is done.
    fn delete(&mut self, deletion: &Deletion) -> Result<u64, DeleteFault> {
        let mut held = self.turn.take(self.rt, &mut self.pass);
        let engine = held.value();
        if !engine.has_room() {
            self.turn.give(&mut self.pass, held, &Nothing);
            return Err(DeleteFault::Memory);
        }
        match D::delete(&mut engine.shard, self.client, deletion) {
            Ok(number) => {
                let news = Deleted {
                    client: self.client,
                    deletion,
                };
                self.turn.give(&mut self.pass, held, &news);
                Ok(number)
            }
            Err(fault) => {
                let refusal = Refusal {
                    client: self.client,
                    series: engine.shard.facts().series,
                    number: engine.shard.number(),
                    tried: deletion_attempt(&fault, EntryNote::Deleted(Snapshot::of(deletion))),
                };
                note(&mut engine.found, Snapshot::of(&refusal));
                if tells_deletion_fault(&fault) {
                    engine.faults += 1;
                    self.turn
                        .give(&mut self.pass, held, &Failed { refusal: &refusal });
                    return Err(fault);
                }
                self.turn
                    .give(&mut self.pass, held, &Refused { refusal: &refusal });
                Err(fault)
            }
        }
    }

    /// It waits while as many views are out as may be, and so never answers `TooManyViews`.
    fn begin_view(&mut self, need: &Need) -> Result<ListView, ViewFault> {
        let backoff = Backoff::new();
        for _ in self.rt.forever() {
            let mut held = self.turn.take(self.rt, &mut self.pass);
            let engine = held.value();
            match begin_view(&mut engine.shard, need) {
                Ok(view) => {
                    self.turn.give(&mut self.pass, held, &Began);
                    return Ok(view);
                }
                Err(ViewFault::TooManyViews { out: _ }) => {
                    self.turn.give(&mut self.pass, held, &Nothing);
                    backoff.snooze();
                }
                Err(ViewFault::Memory) => {
                    self.turn.give(&mut self.pass, held, &Nothing);
                    return Err(ViewFault::Memory);
                }
                // The points are in memory.
                Err(ViewFault::Fault) => unreachable!(),
            }
        }
        unreachable!()
    }

    fn end_view(&mut self, view: ListView) {
        let mut held = self.turn.take(self.rt, &mut self.pass);
        let engine = held.value();
        end_view(&mut engine.shard, view);
        self.turn.give(&mut self.pass, held, &Ended);
    }

    fn number(&mut self) -> u64 {
        self.turn.number(&mut self.pass)
    }
}

// Each variant by name, so that a new one is placed here.
fn tells_fault(fault: &WriteFault) -> bool
    ensures { result ≡ is_fault fault.now }
{
    match fault {
        WriteFault::TypeConflict {
            field: _,
            held: _,
            number: _,
        } => false,
        WriteFault::HistoryFull => false,
        WriteFault::SeriesFull { held: _ } => false,
        WriteFault::CacheFull { held: _ } => false,
        WriteFault::Memory => false,
        WriteFault::Fault => true,
    }
}

fn tells_deletion_fault(fault: &DeleteFault) -> bool
    ensures { result ≡ is_deletion_fault fault.now }
{
    match fault {
        DeleteFault::HistoryFull => false,
        DeleteFault::Memory => false,
        DeleteFault::Fault => true,
    }
}
