ghost use Rattle.std.specs.Prelude.{◌≡◌, ◌≢◌, ◌≤◌, ◌+◌, ℕ, List, All, IfOk, length};
ghost use Rattle.tsdb_types.specs.declared.value.Value.{Value};
ghost use Rattle.value_codec.specs.Coding.{IsSpelled, IsInRange};

use crate::bits::decode_booleans;
use crate::integers::decode_steps;
use crate::numbers::values_with;
use std::alloc::Global;
use tsdb_types::{BlockFault, Kind, Value};

/// The `n` values of a kind whose bytes these are. No more than 1,000 have any.
pub fn decode(alloc: Global, kind: Kind, bytes: &[u8], n: usize) -> Result<Vec<Value>, BlockFault>
    ensures found { IfOk result (λ values. IsSpelled kind n bytes.now values.items) }
    ensures range { IfOk result (λ values. All IsInRange values.items) }
    ensures bad_block { result ≡ Err BlockFault.BadBlock → (values : List Value) → ¬ (IsSpelled kind n bytes.now values) }
    ensures no_kind { (byte : ℕ) → result ≢ Err (BlockFault.BadKind byte) }
{
    if n == 0 || n > 1000 {
        return Err(BlockFault::BadBlock);
    }
    match kind {
        Kind::Boolean => decode_booleans(alloc, bytes, n),
        _ => decode_numbers(alloc, kind, bytes, n),
    }
}

/// So many numbers of a kind.
fn decode_numbers(
    alloc: Global,
    kind: Kind,
    bytes: &[u8],
    n: usize,
) -> Result<Vec<Value>, BlockFault>
    requires some { 1 ≤ n }
    requires most { n ≤ 1000 }
    requires numbers { kind ≢ Kind.Boolean }
    ensures found { IfOk result (λ values. IsSpelled kind n bytes.now values.items) }
    ensures range { IfOk result (λ values. All IsInRange values.items) }
    ensures bad_block { result ≡ Err BlockFault.BadBlock → (values : List Value) → ¬ (IsSpelled kind n bytes.now values) }
    ensures no_kind { (byte : ℕ) → result ≢ Err (BlockFault.BadKind byte) }
{
    let (first, rest) = decode_steps(alloc, bytes, n - 1)?;
    let values = values_with(alloc, kind, first, rest.as_slice())?;
    Ok(values)
}
