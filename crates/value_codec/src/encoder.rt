ghost use Rattle.std.specs.Prelude.{◌≡◌, ◌≤◌, ◌∷◌, ◌++◌, IfOk, length};
ghost use Rattle.tsdb_types.specs.declared.value.Kind.{Kind};
ghost use Rattle.value_codec.specs.Coding.{AreOf, coded_as};

use crate::bits::encode_booleans;
use crate::integers::encode_steps;
use crate::numbers::steps_to;
use std::alloc::{AllocError, Global};
use tsdb_types::Value;

/// The bytes of 1 to 1,000 values of one kind.
pub fn encode(alloc: Global, values: &[Value]) -> Result<Vec<u8>, AllocError>
    requires some { 1 ≤ length values.now }
    requires most { length values.now ≤ 1000 }
    requires one_kind { (kind : Kind) × AreOf kind values.now }
    ensures ok { (kind : Kind) → AreOf kind values.now → IfOk result (λ bytes. bytes.items ≡ coded_as kind values.now) }
{
    if let Value::Bool(_) = values[0] {
        return encode_booleans(alloc, values);
    }
    let steps = steps_to(alloc, values)?;
    encode_steps(alloc, steps.as_slice())
}
