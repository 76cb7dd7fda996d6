ghost use Rattle.std.specs.Prelude.{◌≡◌, ◌+◌, ◌-◌, ◌≤◌, ◌<◌, ◌^◌, List, ℕ, length, Result, Ok, Err, IfOk};
ghost use Rattle.std.specs.List.{flat_map};
ghost use Rattle.shard_disk.specs.declared.damage.Damage.{Damage};
ghost use Rattle.index_file.specs.declared.content.Content.{Content};
ghost use Rattle.index_file.specs.Contents.{IsContent};
ghost use Rattle.index_file.specs.Faults.{Answers, IsDamagedBody, Reads};
ghost use Rattle.index_file.specs.Format.{measurement_bytes};

use crate::frame::framed;
use crate::measurement::take_measurement;
use crate::rest::Rest;
use crate::{Content, Measurements, Stop};
use shard_disk::{Damage, FormatFault, Why};
use std::alloc::Global;
use word_codec::crc32;

/// The content of a file with this number.
pub fn read(alloc: Global, bytes: &[u8], file: u32) -> Result<Content, FormatFault>
    ensures found { IfOk result (λ content. Reads file bytes.now (Ok content)) }
    ensures damaged { (damage : Damage) → result ≡ Err (FormatFault.Damaged damage) → Reads file bytes.now (Err damage) }
    // There is one answer, but for want of memory.
    ensures only { (answer : Result Content Damage) → Reads file bytes.now answer → Answers result answer }
{
    read_framed(alloc, bytes, file)
}

fn read_framed(alloc: Global, bytes: &[u8], file: u32) -> Result<Content, FormatFault>
    ensures found { IfOk result (λ content. Reads file bytes.now (Ok content)) }
    ensures damaged { (damage : Damage) → result ≡ Err (FormatFault.Damaged damage) → Reads file bytes.now (Err damage) }
{
    let Some(frame) = framed(bytes) else {
        return Err(damage(file, 0, Why::Head));
    };
    let stored = frame.stored;
    let computed = crc32(frame.front);
    if stored != computed {
        return Err(damage(
            file,
            frame.front.len() as u64,
            Why::Sum { stored, computed },
        ));
    }
    read_body(alloc, frame.count, frame.body, file)
}

// So many measurements, of which these are the bytes and nothing else.
fn read_body(alloc: Global, count: u32, body: &[u8], file: u32) -> Result<Content, FormatFault>
    requires { 9 + length body.now < 2 ^ 64 }
    ensures found { IfOk result (λ content. IsContent content) }
    ensures count { IfOk result (λ content. length content.measurements ≡ count) }
    ensures whole { IfOk result (λ content. body.now ≡ flat_map measurement_bytes content.measurements) }
    ensures damaged { (damage : Damage) → result ≡ Err (FormatFault.Damaged damage) → IsDamagedBody file count body.now damage }
{
    let mut rest = Rest::new(body);
    let mut measurements = Vec::new(alloc);
    let mut last = None;
    for _ in 0..count {
        let at = place_of(body, &rest);
        match take_measurement(alloc, &mut rest, &last) {
            Ok(measurement) => {
                last = Some(measurement.name.carry()?);
                measurements.push(measurement)?;
            }
            Err(Stop::Wrong) => return Err(damage(file, at, Why::Body)),
            Err(Stop::Memory) => return Err(FormatFault::Memory),
        }
    }
    if rest.len() > 0 {
        return Err(damage(file, place_of(body, &rest), Why::Body));
    }
    Ok(Content {
        measurements: Measurements::new(measurements),
    })
}

// Where what is left of the measurements begins in the file.
fn place_of(body: &[u8], rest: &Rest<'_>) -> u64
    requires within { length rest.now ≤ length body.now }
    requires fits { 9 + length body.now < 2 ^ 64 }
    ensures { result ≡ 9 + (length body.now - length rest.now) }
{
    9 + (body.len() - rest.len()) as u64
}

fn damage(file: u32, offset: u64, why: Why) -> FormatFault
    ensures { result ≡ FormatFault.Damaged (record { file = file; offset = offset; why = why }) }
{
    FormatFault::Damaged(Damage { file, offset, why })
}
