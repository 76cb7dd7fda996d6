ghost use Rattle.std.specs.Prelude.{◌≡◌, ◌<◌, length, map};
ghost use Rattle.value_codec.specs.Booleans.{byte_of};
ghost use Rattle.value_codec.specs.Coding.{truth_of, AreOf};

use tsdb_types::{Kind, Value};

const NO: Value = Value::Bool(false);

const YES: Value = Value::Bool(true);

/// The Booleans of four bits, the highest first.
static HALVES: [[Value; 4]; 16] = [
    [NO, NO, NO, NO],
    [NO, NO, NO, YES],
    [NO, NO, YES, NO],
    [NO, NO, YES, YES],
    [NO, YES, NO, NO],
    [NO, YES, NO, YES],
    [NO, YES, YES, NO],
    [NO, YES, YES, YES],
    [YES, NO, NO, NO],
    [YES, NO, NO, YES],
    [YES, NO, YES, NO],
    [YES, NO, YES, YES],
    [YES, YES, NO, NO],
    [YES, YES, NO, YES],
    [YES, YES, YES, NO],
    [YES, YES, YES, YES],
];

/// The Booleans of four bits, the highest first.
#[inline(always)]
pub fn half(bits: u8) -> &'static [Value]
    requires { bits < 16 }
    ensures size { length result.now ≡ 4 }
    ensures kind { AreOf Kind.Boolean result.now }
    ensures spelled { byte_of 8 (map truth_of result.now) ≡ bits }
{
    &HALVES[bits as usize]
}
