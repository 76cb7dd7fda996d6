// Where the points from one time to another stand.
ghost use Rattle.std.specs.Prelude.{◌≡◌, ◌≤◌, ◌≤ℤ◌, ◌<ℤ◌, length, take, drop};
ghost use Rattle.std.specs.List.{AllByRecursion};
ghost use Rattle.point_cache.specs.Cached.{AreAscending, rows_within};

use tsdb_types::{Time, Value};

// The place of the first of them, and the place behind the last, by binary search.
pub(crate) fn range_of(points: &[(Time, Value)], from: Time, to: Time) -> (usize, usize)
    requires { AreAscending points.now }
    ensures order { result.0 ≤ result.1 }
    ensures end { result.1 ≤ length points.now }
    ensures within { drop result.0 (take result.1 points.now) ≡ rows_within from to points.now }
{
    let first = before(points, from);
    let end = up_to(points, to);
    if first <= end {
        (first, end)
    } else {
        (first, first)
    }
}

// How many points are before the time.
fn before(points: &[(Time, Value)], time: Time) -> usize
    requires { AreAscending points.now }
    ensures bound { result ≤ length points.now }
    ensures before { AllByRecursion (λ row. row.0 <ℤ time) (take result points.now) }
    ensures behind { AllByRecursion (λ row. time ≤ℤ row.0) (drop result points.now) }
{
    points.partition_point(|point| point.0.get() < time.get())
}

// How many points are at the time or before it.
fn up_to(points: &[(Time, Value)], time: Time) -> usize
    requires { AreAscending points.now }
    ensures bound { result ≤ length points.now }
    ensures before { AllByRecursion (λ row. row.0 ≤ℤ time) (take result points.now) }
    ensures behind { AllByRecursion (λ row. time <ℤ row.0) (drop result points.now) }
{
    points.partition_point(|point| point.0.get() <= time.get())
}
