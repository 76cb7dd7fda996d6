// Whether each field of a batch has one kind.
ghost use Rattle.std.specs.Prelude.{◌≡◌, ◌≢◌, false, IsTrue, IfOk};
ghost use Rattle.point_model.specs.Acceptance.{HasOneKind};
ghost use Rattle.shard_opening.specs.Kinds.{Notes};

use std::alloc::{AllocError, Global};
use std::collections::BTreeMap;
use store_trait::Heading;
use tsdb_types::{Kind, Name, Point};

type Kinds = BTreeMap<(Heading, Name), Kind>;

/// Whether each field of a measurement has one kind in these points.
pub(crate) fn has_one_kind(alloc: Global, points: &[Point]) -> Result<bool, AllocError>
    ensures one { IfOk result (λ one. IsTrue one → HasOneKind points.now) }
    ensures several { IfOk result (λ one. one ≡ false → HasOneKind points.now → ⊥) }
{
    let mut kinds = BTreeMap::new(alloc);
    for point in points {
        if !note_kind(alloc, &mut kinds, point)? {
            return Ok(false);
        }
    }
    Ok(true)
}

/// Notes the kind of the point's field, and whether the field had no other.
fn note_kind(alloc: Global, kinds: &mut Kinds, point: &Point) -> Result<bool, AllocError>
    ensures { IfOk result (λ alike. Notes point.now alike kinds.old kinds.new) }
{
    let mut heading = Heading::new(alloc);
    heading.read(&point.cell.series)?;
    let key = (heading, point.cell.field.carry()?);
    let kind = point.value.kind();
    match kinds.get(&key).copied() {
        Some(held) => Ok(is_same(held, kind)),
        None => {
            kinds.insert(key, kind)?;
            Ok(true)
        }
    }
}

fn is_same(one: Kind, other: Kind) -> bool
    ensures same { IsTrue result → one ≡ other }
    ensures different { result ≡ false → one ≢ other }
{
    one == other
}
