// What a client did while it had the turn, for the proof alone.
ghost use Rattle.std.specs.Prelude.{◌∷◌, Some, None};
ghost use Rattle.point_model.specs.declared.entry.Entry.TheVariants.{Write, Delete};
ghost use Rattle.shard_shared.specs.declared.engine.Lent.TheVariants.{View, Fault, Found};
ghost use Rattle.shard_shared.specs.Entries.{without_view};

use crate::{Engine, Refusal};
use history_turn::News;
use point_model::Deletion;
use shard_calls::EngineDisk;
use tsdb_types::Batch;

/// A batch was accepted from a client.
#[derive(Drop)]
pub(crate) struct Wrote<'a> {
    pub(crate) client: u32,
    pub(crate) batch: &'a Batch,
}

impl<'a, D: EngineDisk> News<Engine<D>> for Wrote<'a> {
    ghost entry = { λ news x. Some (record { entry = Write news.client news.batch.now; moment = (D.Disk.crashes x.shard.logs.disk).moment }) };

    ghost loans = { λ _ _ loans. loans };
}

/// A deletion was accepted from a client.
#[derive(Drop)]
pub(crate) struct Deleted<'a> {
    pub(crate) client: u32,
    pub(crate) deletion: &'a Deletion,
}

impl<'a, D: EngineDisk> News<Engine<D>> for Deleted<'a> {
    ghost entry = { λ news x. Some (record { entry = Delete news.client news.deletion.now; moment = (D.Disk.crashes x.shard.logs.disk).moment }) };

    ghost loans = { λ _ _ loans. loans };
}

/// A batch or a deletion was refused, by no fault.
#[derive(Drop)]
pub(crate) struct Refused<'a> {
    pub(crate) refusal: &'a Refusal,
}

impl<'a, D: EngineDisk> News<Engine<D>> for Refused<'a> {
    ghost entry = { λ _ _. None };

    ghost loans = { λ news _ loans. Found news.refusal.now ∷ loans };
}

/// A batch or a deletion was refused by a fault.
#[derive(Drop)]
pub(crate) struct Failed<'a> {
    pub(crate) refusal: &'a Refusal,
}

impl<'a, D: EngineDisk> News<Engine<D>> for Failed<'a> {
    ghost entry = { λ _ _. None };

    ghost loans = { λ news _ loans. Fault ∷ Found news.refusal.now ∷ loans };
}

/// A view was lent.
#[derive(Drop)]
pub(crate) struct Began;

impl<D: EngineDisk> News<Engine<D>> for Began {
    ghost entry = { λ _ _. None };

    ghost loans = { λ _ _ loans. View ∷ loans };
}

/// A view came back.
#[derive(Drop)]
pub(crate) struct Ended;

impl<D: EngineDisk> News<Engine<D>> for Ended {
    ghost entry = { λ _ _. None };

    ghost loans = { λ _ _ loans. without_view loans };
}
