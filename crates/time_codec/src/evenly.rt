ghost use Rattle.std.specs.Prelude.{◌≡◌, ◌+◌, ◌*◌, ◌^◌, ◌<◌, pos, replicate};
ghost use Rattle.time_codec.specs.Reading.{times_behind};

use super::offset::early_moment;
use tsdb_types::Time;

/// Early times of which each is as far behind the one before.
#[derive(Drop)]
pub struct Evenly {
    before: u64,
    distance: u64,
    left: usize,
    ghost early: { before + left * distance < 2 ^ 62 },
}

impl Evenly {
    /// So many times behind one.
    pub fn behind(start: u64, distance: u64, left: usize) -> Evenly
        requires { start + left * distance < 2 ^ 62 }
        ensures { times_behind (pos result.before) (replicate result.left result.distance) ≡ times_behind (pos start) (replicate left distance) }
    {
        Evenly {
            before: start,
            distance,
            left,
        }
    }
}

impl Iterator for Evenly {
    ghost use Rattle.std.specs.Iterator.{YieldsFirst, item_count};

    type Item = Time;

    ghost next_gives = { YieldsFirst (λ even. times_behind (pos even.before) (replicate even.left even.distance)) };

    ghost remaining = { item_count (λ even. times_behind (pos even.before) (replicate even.left even.distance)) };

    fn next(&mut self) -> Option<Time> {
        if self.left == 0 {
            return None;
        }
        self.left -= 1;
        self.before += self.distance;
        Some(early_moment(self.before))
    }
}
