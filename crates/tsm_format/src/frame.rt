ghost use Rattle.std.specs.Prelude.{◌≡◌, ◌≤◌, ◌<◌, ◌^◌, ◌↔◌, ℕ, length, IsTrue, IfSome, IfNone};
ghost use Rattle.tsm_format.specs.Frame.{FrameOf, IsPlace, header};

use fixed_width::take_u64;
use shard_disk::{Damage, Why};

/// The first bytes of a file: the mark `16 D1 16 D1` and the version `01`.
pub const HEADER: [u8; 5] = [0x16, 0xD1, 0x16, 0xD1, 0x01];

/// Where the index begins in a file of this length, whose first five and last eight bytes are given.
pub fn index_place(head: &[u8], foot: &[u8], len: u64, file: u32) -> Result<u64, Damage>
    requires foot { length foot.now ≡ 8 }
    requires long { 13 ≤ len }
    ensures { FrameOf file len head.now foot.now result }
{
    if !is_header(head) {
        return Err(Damage {
            file,
            offset: 0,
            why: Why::Head,
        });
    }
    match place_in(foot, len) {
        Some(place) => Ok(place),
        None => Err(Damage {
            file,
            offset: len - 8,
            why: Why::Foot,
        }),
    }
}

fn is_header(head: &[u8]) -> bool
    ensures { IsTrue result ↔ (head.now ≡ header) }
{
    head == HEADER.as_slice()
}

fn place_in(foot: &[u8], len: u64) -> Option<u64>
    requires foot { length foot.now ≡ 8 }
    requires long { 13 ≤ len }
    ensures found { IfSome result (IsPlace len foot.now) }
    ensures none { IfNone result ((place : ℕ) → place < 2 ^ 64 → ¬ IsPlace len foot.now place) }
{
    let (place, _) = take_u64(foot)?;
    if place < 5 || place > len - 8 {
        return None;
    }
    Some(place)
}
