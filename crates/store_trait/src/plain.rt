// A store in memory.
ghost use Rattle.std.specs.Prelude.{◌≡◌, ◌<◌, ◌≤◌, [], ◌∷◌, All, Contains, IfOk, OnOk, OnErr};

use crate::gather::gather;
use crate::names::{fields_of, heading_of};
use crate::removal::{put_samples, removal_of, take_away};
use crate::room::make_room;
use crate::samples::{Samples, find_conflict};
use crate::slots::{Slots, set_values};
use crate::tags::tag_keys_of;
use crate::{DeleteFault, EntryNote, ListView, Store, ViewFault, WriteFault, add_note};
use point_model::{Deletion, Fields, Names, Need, TagKeys};
use std::alloc::{AllocError, Global};
use std::collections::BTreeMap;
use std::marker::Model;
use std::snapshot::Snapshot;
use tsdb_types::{Batch, Kind, Name, Point, reads_once};

/// The greatest number that an entry may have.
const LAST_NUMBER: u64 = 9_223_372_036_854_775_807;

/// The points of one client, in memory. A contract sees what it tells.
#[derive(Drop)]
pub struct PlainStore {
    alloc: Global,
    client: u32,
    number: u64,
    notes: Vec<EntryNote>,
    slots: Slots,
    samples: Samples,
    views: u64,
}

impl Model for PlainStore {
    ghost use Rattle.store_trait.specs.Told.{Told};
    ghost use Rattle.store_trait.specs.Plain.{told_of, Holds};
    ghost use Rattle.point_model.specs.ConditionCode.{condition_code};
    ghost use Rattle.std.specs.Coded.{codes};

    ghost Value = { Told };

    ghost coded = { Prim.hlevel (codes, condition_code) };

    ghost view = { λ s. told_of s.client s.notes.items s.views };

    ghost invariant = { λ s. Holds s.client s.notes.items s.number s.slots s.samples };
}

impl PlainStore {
    ghost use Rattle.std.specs.Option.{option_map};
    ghost use Rattle.tsdb_types.specs.Moments.{IsMoment};
    ghost use Rattle.point_model.specs.Acceptance.{conflict, IsAccepted, IsSound, IsWritable};
    ghost use Rattle.point_model.specs.Cursors.{Gives};
    ghost use Rattle.point_model.specs.declared.entry.Entry.TheVariants.{Write, Delete};
    ghost use Rattle.store_trait.specs.Calls.Entry.{Accepts};
    ghost use Rattle.store_trait.specs.Calls.View.{without};
    ghost use Rattle.store_trait.specs.Plain.{told_of, conflict_of};
    ghost use Rattle.store_trait.specs.Told.{Keeps, state_now, last_number};

    /// A store without points, whose writes are of this client.
    pub fn new(alloc: Global, client: u32) -> PlainStore
        ensures { result ≡ told_of client [] 0 }
    {
        PlainStore {
            alloc,
            client,
            number: 0,
            notes: Vec::new(alloc),
            slots: BTreeMap::new(alloc),
            samples: BTreeMap::new(alloc),
            views: 0,
        }
    }

    // The number of the last entry.
    fn last(&self) -> u64
        ensures number { result ≡ (state_now self.now).number }
        ensures limit { result ≤ last_number }
    {
        self.number
    }

    // What holds of its points.
    fn look(&self)
        ensures sound { IsSound (state_now self.now).points }
        ensures timed { All (λ point. IsMoment point.0.time) (state_now self.now).points }
    {
        let _ = &self.slots;
    }

    // The first field with another kind than the points', and the kind that it has.
    fn conflict(&self, points: &[Point]) -> Result<Option<(Name, Kind)>, AllocError>
        ensures { IfOk result (λ found. option_map conflict_of found ≡ conflict (state_now self.now).points points.now) }
    {
        find_conflict(self.alloc, &self.slots, &self.samples, points)
    }

    // One view more is out.
    fn begin(&mut self) -> Result<(), AllocError>
        ensures ok { OnOk result (self.new ≡ record self.old { out = 0 ∷ self.old.out }) }
        ensures err { OnErr result (self.new ≡ self.old) }
    {
        match self.views.checked_add(1) {
            None => Err(AllocError),
            Some(views) => {
                self.views = views;
                Ok(())
            }
        }
    }

    // One view less is out.
    fn end(&mut self)
        requires { Contains self.old.out 0 }
        ensures { self.new ≡ record self.old { out = without 0 self.old.out } }
    {
        self.views -= 1;
    }

    // A copy of what a need asks for.
    fn list(&self, need: &Need) -> Result<ListView, AllocError>
        ensures number { IfOk result (λ view. view.number ≡ (state_now self.now).number) }
        ensures gives { IfOk result (λ view. Gives (state_now self.now).points need.now view) }
    {
        let heading = heading_of(self.alloc, &need.measurement)?;
        let fields = fields_of(self.alloc, &self.slots, &self.samples, &heading)?;
        let mut keys = Vec::new(self.alloc);
        let mut rows = Vec::new(self.alloc);
        gather(self.alloc, &self.slots, need, &mut keys, &mut rows)?;
        // By this law a series is of one measurement.
        reads_once();
        let tag_keys = tag_keys_of(self.alloc, &self.slots, need)?;
        let names = Names {
            fields: Fields::new(fields),
            tag_keys: TagKeys::new(tag_keys),
        };
        Ok(ListView::new(self.number, names, keys, rows))
    }

    // Makes an entry of a batch without a conflict.
    fn accept(&mut self, batch: &Batch) -> Result<u64, AllocError>
        requires writable { IsWritable batch.now }
        requires accepted { IsAccepted (state_now self.old).points batch.now }
        requires number { (state_now self.old).number < last_number }
        ensures ok { IfOk result (λ number. Accepts (Write self.old.client batch.now) number self.old self.new) }
        ensures kept { Keeps self.old self.new }
        ensures err { OnErr result (self.new ≡ self.old) }
    {
        let points = batch.points();
        make_room(self.alloc, &mut self.slots, &mut self.samples, points)?;
        self.notes.reserve(1)?;
        // Nothing is refused from here on.
        set_values(&mut self.slots, points);
        add_note(&mut self.notes, EntryNote::Written(Snapshot::of(batch)));
        self.number += 1;
        Ok(self.number)
    }

    // Makes an entry of a deletion.
    fn remove(&mut self, deletion: &Deletion) -> Result<u64, AllocError>
        requires { (state_now self.old).number < last_number }
        ensures ok { IfOk result (λ number. Accepts (Delete self.old.client deletion.now) number self.old self.new) }
        ensures kept { Keeps self.old self.new }
        ensures err { OnErr result (self.new ≡ self.old) }
    {
        let removal = removal_of(self.alloc, &self.slots, deletion)?;
        self.notes.reserve(1)?;
        // Nothing is refused from here on.
        take_away(&mut self.slots, deletion);
        put_samples(&mut self.samples, removal);
        add_note(&mut self.notes, EntryNote::Deleted(Snapshot::of(deletion)));
        self.number += 1;
        Ok(self.number)
    }
}

impl Store for PlainStore {
    type View = ListView;

    ghost use Rattle.std.specs.Prelude.{true};

    ghost told = { λ s. s };

    ghost health = { λ _. record { faults = 0; is_steady = true } };

    fn write(&mut self, batch: &Batch) -> Result<u64, WriteFault> {
        if let Some((field, held)) = self.conflict(batch.points())? {
            let number = self.last();
            return Err(WriteFault::TypeConflict {
                field,
                held,
                number,
            });
        }
        if self.last() >= LAST_NUMBER {
            return Err(WriteFault::HistoryFull);
        }
        let number = self.accept(batch)?;
        Ok(number)
    }

    fn delete(&mut self, deletion: &Deletion) -> Result<u64, DeleteFault> {
        let last = self.last();
        if last >= LAST_NUMBER {
            return Err(DeleteFault::HistoryFull);
        }
        let number = self.remove(deletion)?;
        Ok(number)
    }

    fn begin_view(&mut self, need: &Need) -> Result<ListView, ViewFault> {
        self.look();
        let view = self.list(need)?;
        self.begin()?;
        Ok(view)
    }

    fn end_view(&mut self, view: ListView) {
        let _ = view;
        self.end();
    }

    fn number(&mut self) -> u64 {
        self.last()
    }
}
