ghost use Rattle.std.specs.Prelude.{◌≡◌, ◌≢◌, ◌+◌, ◌<◌, ◌^◌, List, [], length, Result, Ok, Err, IfOk, OnOk, IfSome, IfNone, ◌++◌};
ghost use Rattle.std.specs.List.{flat_map, AllByRecursion};
ghost use Rattle.shard_disk.specs.declared.damage.Damage.{Damage};
ghost use Rattle.tombstones.specs.Covered.{Tomb, HideSame};
ghost use Rattle.tombstones.specs.Format.{head, HasOtherHead, Reads, Answers, BeginsNone, IsWritable, IsCutTombs, tomb_bytes};
ghost use Rattle.tombstones.specs.Raw.{tomb_of, HidesAlsoWithin};

use crate::TombSet;
use crate::moment::{first_moment, last_moment};
use crate::raw::{Raw, take_tomb};
use crate::write::HEAD;
use shard_disk::{Damage, FormatFault, Why};
use std::alloc::{AllocError, Global};

/// The set of a file with this number. Its tombstones may come in any order and overlap; times that are no moments
/// count as far as they reach into those.
pub fn read_v2(alloc: Global, bytes: &[u8], file: u32) -> Result<TombSet, FormatFault>
    ensures found { IfOk result (λ set. (tombs : List Tomb) × Reads file bytes.now (Ok tombs) × HideSame tombs set) }
    ensures damaged { (damage : Damage) → result ≡ Err (FormatFault.Damaged damage) → Reads file bytes.now (Err damage) }
    // There is one answer, but for want of memory.
    ensures only { (answer : Result (List Tomb) Damage) → Reads file bytes.now answer → Answers result answer }
{
    match behind_head(bytes) {
        Some(tombs) => read_tombs(alloc, tombs, file),
        None => Err(damage(file, 0, Why::Head)),
    }
}

fn behind_head(bytes: &[u8]) -> Option<&[u8]>
    ensures found { IfSome result (λ tombs. bytes.now ≡ head ++ tombs.now) }
    ensures other { IfNone result (HasOtherHead bytes.now) }
{
    bytes.strip_prefix(&HEAD)
}

fn damage(file: u32, offset: u64, why: Why) -> FormatFault
    ensures { result ≡ FormatFault.Damaged (record { file = file; offset = offset; why = why }) }
{
    FormatFault::Damaged(Damage { file, offset, why })
}

// The tombstones behind the head.
fn read_tombs(alloc: Global, tombs: &[u8], file: u32) -> Result<TombSet, FormatFault>
    requires { 4 + length tombs.now < 2 ^ 64 }
    ensures found { IfOk result (λ set. (read : List Tomb) × AllByRecursion IsWritable read × (tombs.now ≡ flat_map tomb_bytes read) × HideSame read set) }
    ensures damaged { (damage : Damage) → result ≡ Err (FormatFault.Damaged damage) → IsCutTombs file tombs.now damage }
{
    let mut set = TombSet::new(alloc);
    let mut rest = tombs;
    while !rest.is_empty() {
        let Some(tomb) = take_tomb(rest) else {
            return Err(damage(file, 4 + (tombs.len() - rest.len()) as u64, Why::Body));
        };
        rest = tomb.behind;
        add_within(&mut set, tomb)?;
    }
    Ok(set)
}

// Hides the moments of a range of any numbers.
fn add_within(set: &mut TombSet, tomb: Raw<'_>) -> Result<(), AllocError>
    requires { length tomb.key.now < 2 ^ 32 }
    ensures { OnOk result (HidesAlsoWithin set.old (tomb_of tomb.entry) set.new) }
{
    match (first_moment(tomb.from), last_moment(tomb.to)) {
        (Some(from), Some(to)) => set.add(tomb.key, from, to),
        _ => Ok(()),
    }
}
