// A condition is met as its parts are passed, one after another.
ghost use Rattle.std.specs.Prelude.{◌≡◌, ◌<◌, ◌+◌, ◌^◌};
ghost use Rattle.point_model.specs.Conditions.{meets};
ghost use Rattle.point_model.specs.Flat as spec;

use crate::tags::has_tag_text;
use crate::{Join, Part, TagTest};
use tsdb_types::SeriesKey;

// The answer behind a part, and how many sides whose answer counts no more are still to be passed.
pub(crate) fn step(
    series: &SeriesKey,
    met: bool,
    passing: usize,
    of: Option<Join>,
    part: &Part,
) -> (bool, usize)
    requires { passing + 2 < 2 ^ 64 }
    ensures { result ≡ spec.step series.now (met, passing) (of, part.now) }
{
    if passing > 0 {
        return (met, passed(passing - 1, part));
    }
    if decides(of, met) {
        return (met, passed(0, part));
    }
    (answered(series, met, part), 0)
}

// Past one part of a side that counts no more, with so many sides behind it.
fn passed(behind: usize, part: &Part) -> usize
    requires { behind + 2 < 2 ^ 64 }
    ensures { result ≡ spec.passed behind part.now }
{
    match part {
        Part::Test(_) => behind,
        Part::Join(_) => behind + 2,
    }
}

// Whether the answer of the first side decides the join.
fn decides(of: Option<Join>, met: bool) -> bool
    ensures { result ≡ spec.decides of met }
{
    match of {
        None => false,
        Some(Join::And) => !met,
        Some(Join::Or) => met,
    }
}

fn answered(series: &SeriesKey, met: bool, part: &Part) -> bool
    ensures { result ≡ spec.answered series.now met part.now }
{
    match part {
        Part::Test(test) => is_met(series, test),
        Part::Join(_) => met,
    }
}

fn is_met(series: &SeriesKey, test: &TagTest) -> bool
    ensures { result ≡ meets (spec.condition_of test.now) series.now }
{
    match test {
        TagTest::True => true,
        TagTest::Eq(key, text) => has_tag_text(series, key, text.as_str().as_bytes()),
        TagTest::Ne(key, text) => !has_tag_text(series, key, text.as_str().as_bytes()),
    }
}
