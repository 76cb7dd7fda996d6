// Which series of a batch are new.
ghost use Rattle.std.specs.Prelude.{◌≡◌, IfOk, OnOk};
ghost use Rattle.shard_steps.specs.Series.{AreUnheld, noted};

use indexmap::IndexSet;
use series_store::Series;
use std::alloc::{AllocError, Global};
use tsdb_types::{Batch, Seed, SeriesKey};

/// The series of the batch that aren't held, each once, in the order of their first points. It takes a look-up for each column of
/// the batch.
pub(crate) fn unheld(
    alloc: Global,
    seed: Seed,
    series: &Series,
    batch: &Batch,
) -> Result<IndexSet<SeriesKey, Seed>, AllocError>
    ensures { IfOk result (λ new. AreUnheld series.now.keys batch.now new.keys) }
{
    let mut new = IndexSet::with_hasher(alloc, seed);
    for column in batch.columns() {
        note(series, &column.series, &mut new)?;
    }
    Ok(new)
}

/// The series is among the new ones where it isn't held.
fn note(
    series: &Series,
    key: &SeriesKey,
    new: &mut IndexSet<SeriesKey, Seed>,
) -> Result<(), AllocError>
    ensures { OnOk result (new.new.keys ≡ noted series.now.keys key.now new.old.keys) }
{
    match series.id(key) {
        Some(_) => Ok(()),
        None => {
            new.insert(key.carry()?)?;
            Ok(())
        }
    }
}
