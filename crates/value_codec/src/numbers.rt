ghost use Rattle.std.specs.Prelude.{◌≡◌, ◌≢◌, ◌+◌, ◌∷◌, All, IfOk, length, map};
ghost use Rattle.tsdb_types.specs.Values.{kind_of};
ghost use Rattle.value_codec.specs.Steps.{step_of, steps_from};
ghost use Rattle.value_codec.specs.Coding.{number_of, AreOf, IsInRange};

use std::alloc::{AllocError, Global};
use tsdb_types::{Kind, Value};
use word_codec::{unzigzag, zigzag};

/// The steps to each number of the list, the first from 0.
pub fn steps_to(alloc: Global, values: &[Value]) -> Result<Vec<u64>, AllocError>
    ensures { IfOk result (λ steps. steps.items ≡ steps_from 0 (map number_of values.now)) }
{
    let mut steps = vec![in alloc; 0; values.len()]?;
    tell_steps(steps.as_mut_slice(), values);
    Ok(steps)
}

/// Writes the steps to each number of the list, the first from 0.
fn tell_steps(steps: &mut [u64], values: &[Value])
    requires { length steps.old ≡ length values.now }
    ensures { steps.new ≡ steps_from 0 (map number_of values.now) }
{
    let mut before = 0;
    for k in 0..values.len() {
        let number = bits_of(values[k]);
        steps[k] = step_between(before, number);
        before = number;
    }
}

/// The values of a kind of numbers with these steps.
// Which kind it is, is told before the values are written and not at each.
pub fn values_with(
    alloc: Global,
    kind: Kind,
    first: u64,
    rest: &[u64],
) -> Result<Vec<Value>, AllocError>
    requires { kind ≢ Kind.Boolean }
    ensures steps { IfOk result (λ values. steps_from 0 (map number_of values.items) ≡ first ∷ rest.now) }
    ensures kind { IfOk result (λ values. AreOf kind values.items) }
    ensures range { IfOk result (λ values. All IsInRange values.items) }
{
    match kind {
        Kind::Integer => values_of_kind(alloc, Kind::Integer, first, rest),
        _ => values_of_kind(alloc, Kind::Unsigned, first, rest),
    }
}

#[inline(always)]
fn values_of_kind(
    alloc: Global,
    kind: Kind,
    first: u64,
    rest: &[u64],
) -> Result<Vec<Value>, AllocError>
    requires { kind ≢ Kind.Boolean }
    ensures steps { IfOk result (λ values. steps_from 0 (map number_of values.items) ≡ first ∷ rest.now) }
    ensures kind { IfOk result (λ values. AreOf kind values.items) }
    ensures range { IfOk result (λ values. All IsInRange values.items) }
{
    let mut values = Vec::with_capacity(alloc, rest.len() + 1)?;
    let mut number = number_after(0, first);
    values.push_reserved(value_with(kind, number));
    for k in 0..rest.len() {
        number = number_after(number, rest[k]);
        values.push_reserved(value_with(kind, number));
    }
    Ok(values)
}

/// The unsigned number with the bits of a number.
fn bits_of(value: Value) -> u64
    ensures { result ≡ number_of value }
{
    match value {
        Value::Int(number) => number.cast_unsigned(),
        Value::Uint(number) => number,
        Value::Bool(_) => 0,
    }
}

/// The number of a kind with these bits.
#[inline(always)]
pub fn value_with(kind: Kind, bits: u64) -> Value
    requires { kind ≢ Kind.Boolean }
    ensures kind { kind_of result ≡ kind }
    ensures bits { number_of result ≡ bits }
    ensures range { IsInRange result }
{
    match kind {
        Kind::Integer => Value::Int(bits.cast_signed()),
        _ => Value::Uint(bits),
    }
}

/// The step from one number to the next.
fn step_between(before: u64, number: u64) -> u64
    ensures { result ≡ step_of before number }
{
    zigzag(number.wrapping_sub(before).cast_signed())
}

/// The number to which a step leads.
#[inline(always)]
pub fn number_after(before: u64, step: u64) -> u64
    ensures { step_of before result ≡ step }
{
    before.wrapping_add(unzigzag(step).cast_unsigned())
}
