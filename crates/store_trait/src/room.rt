// The room for a batch in a store in memory.
ghost use Rattle.std.specs.Prelude.{IsSome, OnOk};
ghost use Rattle.tsdb_types.specs.Moments.{IsMoment};
ghost use Rattle.tsdb_types.specs.declared.point.Point.{Point};
ghost use Rattle.point_model.specs.Points.{Points};
ghost use Rattle.store_trait.specs.Slots.{slot_at};
ghost use Rattle.store_trait.specs.Plain.{Fits, IsIn, IsSampled};

use crate::samples::{Samples, take_samples};
use crate::slots::{Slots, make_slots};
use std::alloc::{AllocError, Global};
use tsdb_types::Point;

// Makes all the room that the points take. It changes none, also where memory is wanting in the middle.
pub(crate) fn make_room(
    alloc: Global,
    slots: &mut Slots,
    samples: &mut Samples,
    points: &[Point],
) -> Result<(), AllocError>
    ensures kept { (stored : Points) → Fits slots.old samples.old stored → Fits slots.new samples.new stored }
    ensures slots { OnOk result ((point : Point) → IsIn points.now point → IsSome (slot_at slots.new point.cell)) }
    ensures sampled { OnOk result ((point : Point) → IsIn points.now point → IsSampled slots.new points.now samples.new point) }
    ensures timed { OnOk result ((point : Point) → IsIn points.now point → IsMoment point.cell.time) }
{
    make_slots(alloc, slots, points)?;
    take_samples(alloc, slots, samples, points)?;
    Ok(())
}
