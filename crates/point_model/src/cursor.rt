ghost use Rattle.std.specs.Prelude.{◌≡◌, ℕ, ◌<◌, Bool, false, length, IfOk, OnOk};
ghost use Rattle.shard_disk.specs.Health.{Health};
ghost use Rattle.point_model.specs.Cursors.{Shown, Advances};
ghost use Rattle.point_model.specs.Troubles.{CursorHasCause};

use crate::{CursorFault, Names};
use tsdb_types::{Name, SeriesKey, Time, Value};

/// The points of a query, key by key, as they were at one moment.
pub trait PointCursor {
    /// The number, the names, the keys, and the points that are left of each key, where it tells them.
    ghost shown: { Self → Shown };

    /// A call was refused: the cursor may only be ended.
    ghost is_spent: { Self → Bool };

    /// Whether it may meet bytes that are wrong.
    ghost can_be_damaged: { Self → Bool };

    ghost health: { Self → Health };

    /// By which number the store that handed it out counts it among those that are out.
    ghost loan: { Self → ℕ };

    /// The number of the last entry that the cursor sees.
    fn number(&self) -> u64
        ensures { result ≡ (shown self.now).number };

    /// The fields with their kinds, and the tag keys, of the measurement.
    fn names(&self) -> &Names
        ensures { result.now ≡ (shown self.now).names };

    /// The series and fields that have points, by the text of the series, then by field.
    fn keys(&self) -> &[(SeriesKey, Name)]
        ensures { result.now ≡ (shown self.now).keys };

    /// Takes the first point that is left of the key at this place; `None` where none is left. After a refusal the cursor
    /// may only be ended.
    fn next(&mut self, key: usize) -> Result<Option<(Time, Value)>, CursorFault>
        requires place { key < length (shown self.old).keys }
        requires usable { is_spent self.old ≡ false }
        ensures ok { IfOk result (λ point. Advances key point (shown self.old) (shown self.new)) }
        ensures usable { OnOk result (is_spent self.new ≡ false) }
        ensures fault { CursorHasCause result (can_be_damaged self.old) (health self.old) (health self.new) }
        ensures can_be_damaged { can_be_damaged self.new ≡ can_be_damaged self.old }
        ensures loan { loan self.new ≡ loan self.old };
}
