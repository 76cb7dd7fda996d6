ghost use Rattle.std.specs.Prelude.{◌≡◌, ◌≤◌, ◌^◌, length, IfOk};
ghost use Rattle.std.specs.List.{AllByRecursion};
ghost use Rattle.series_store.specs.Format.{HasRoom, IsKey, record_bytes};

use crate::put::record_of;
use gate_log::Frame;
use std::alloc::{AllocError, Global};
use std::marker::Model;
use tsdb_types::SeriesKey;

/// Series that are ready to be added, and their record. A contract sees the series.
#[derive(Drop)]
pub struct NewSeries {
    keys: Vec<SeriesKey>,
    frame: Frame,
}

impl Model for NewSeries {
    ghost use Rattle.std.specs.Prelude.{◌≡◌, ℕ, List};
    ghost use Rattle.std.specs.List.{AllByRecursion};
    ghost use Rattle.series_store.specs.Format.{IsKey, record_bytes};

    ghost Value = { List (List ℕ) };

    ghost view = { λ n. n.keys.items };

    ghost invariant = { λ n. (n.frame ≡ record_bytes n.keys.items) × AllByRecursion IsKey n.keys.items };
}

impl NewSeries {
    pub(crate) fn new(alloc: Global, keys: &[SeriesKey]) -> Result<NewSeries, AllocError>
        requires room { AllByRecursion HasRoom keys.now }
        requires short { length (record_bytes keys.now) ≤ 2 ^ 30 }
        ensures { IfOk result (λ new. new ≡ keys.now) }
    {
        let body = record_of(alloc, keys)?;
        let frame = Frame::new(alloc, &body)?;
        let keys = carried(alloc, keys)?;
        Ok(NewSeries { keys, frame })
    }

    pub(crate) fn frame(&self) -> &Frame
        ensures frame { result.now ≡ record_bytes self.now }
        ensures each { AllByRecursion IsKey self.now }
    {
        &self.frame
    }

    pub(crate) fn into_keys(self) -> Vec<SeriesKey>
        ensures { result.items ≡ self }
    {
        self.keys
    }
}

fn carried(alloc: Global, keys: &[SeriesKey]) -> Result<Vec<SeriesKey>, AllocError>
    ensures { IfOk result (λ copies. copies.items ≡ keys.now) }
{
    let mut copies = Vec::with_capacity(alloc, keys.len())?;
    for key in keys {
        copies.push(key.carry()?)?;
    }
    Ok(copies)
}
