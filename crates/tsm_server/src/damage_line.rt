//! The line that names a damage.
ghost use Rattle.std.specs.Prelude.{◌≡◌, ◌+◌, ◌≤◌, ◌++◌, length};
ghost use Rattle.arrayvec.specs.ArrayVec.{array_vec_len};
ghost use Rattle.tsm_server.specs.Printing.{damage_text};

use arrayvec::ArrayVec;
use itoa::Buffer;
use shard_disk::Damage;

/// The longest line that names a damage.
const LONGEST: usize = 128;

/// The line of a damage, with its newline. It takes no memory.
pub(crate) fn damage_line(damage: &Damage) -> ArrayVec<u8, LONGEST>
    ensures { result.items ≡ damage_text damage.now }
{
    let mut line = ArrayVec::new();
    let mut file = Buffer::new();
    let mut offset = Buffer::new();
    add(&mut line, b"damaged ");
    add(&mut line, file.format(damage.file).as_bytes());
    add(&mut line, b" ");
    add(&mut line, offset.format(damage.offset).as_bytes());
    add(&mut line, b" ");
    add(&mut line, damage.why.name().as_bytes());
    add(&mut line, b"\n");
    line
}

fn add(line: &mut ArrayVec<u8, LONGEST>, bytes: &[u8])
    requires { array_vec_len line.old + length bytes.now ≤ 128 }
    ensures items { line.new.items ≡ line.old.items ++ bytes.now }
    ensures len { array_vec_len line.new ≡ array_vec_len line.old + length bytes.now }
{
    let _ = line.try_extend_from_slice(bytes);
}
