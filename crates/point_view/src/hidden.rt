// Whether a point of a key is deleted.
ghost use Rattle.std.specs.Prelude.{◌≡◌, ◌↔◌, IsTrue, ◌≤◌, ◌≤ℤ◌, ◌<ℤ◌, length, take, drop};
ghost use Rattle.std.specs.List.{AllByRecursion};
ghost use Rattle.tombstones.specs.Ranges.{AreApart};
ghost use Rattle.point_view.specs.Sources.{is_covered};

use tombstones::TombRange;
use tsdb_types::Time;

// Whether some range has the time.
pub(crate) fn is_hidden(ranges: &[TombRange], time: Time) -> bool
    requires { AreApart ranges.now }
    ensures { result ≡ is_covered ranges.now time }
{
    let place = ended_before(ranges, time.get());
    if place >= ranges.len() {
        return false;
    }
    begins_by(ranges[place], time)
}

fn begins_by(range: TombRange, time: Time) -> bool
    ensures { IsTrue result ↔ (range.from ≤ℤ time) }
{
    range.from <= time
}

// How many ranges end before the time.
fn ended_before(ranges: &[TombRange], time: i64) -> usize
    requires { AreApart ranges.now }
    ensures bound { result ≤ length ranges.now }
    ensures ended { AllByRecursion (λ r. r.to <ℤ time) (take result ranges.now) }
    ensures others { AllByRecursion (λ r. time ≤ℤ r.to) (drop result ranges.now) }
{
    ranges.partition_point(|range| range.to.get() < time)
}
