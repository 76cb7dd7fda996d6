ghost use Rattle.std.specs.Prelude.{◌≡◌, ◌++◌, ◌^◌, ◌<◌, ◌≤◌, List, ℕ, drop, length, IfOk, IfErr, IsErrOf};
ghost use Rattle.gate_log.specs.Damage.{IsEnd, IsFlaw, TellsOf, bodies};
ghost use Rattle.gate_log.specs.Records.{AllFit, IsGated, framed, spelled};

use crate::LogFault;
use shard_disk::{Damage, Why};
use std::alloc::Global;
use word_codec::crc32;

/// What is wrong behind an open gate.
#[derive(Clone, Copy, Debug, PartialEq, Eq)]
pub enum Flaw {
    /// The record runs past the end.
    Cut,
    /// Its checksum, as it is stored and as it is computed.
    WrongSum(u32, u32),
}

/// The body of the record behind an open gate, and what stands behind the record.
pub fn body_of(behind: &[u8]) -> Result<(&[u8], &[u8]), Flaw>
    ensures found { IfOk result (λ found. behind.now ≡ framed found.0.now ++ found.1.now) }
    ensures fits { IfOk result (λ found. length found.0.now < 2 ^ 32) }
    ensures shorter { IfOk result (λ found. length found.1.now < length behind.now) }
    ensures flaw { IfErr result (λ flaw. IsFlaw flaw behind.now) }
{
    if behind.len() < 8 {
        return Err(Flaw::Cut);
    }
    let (head, rest) = behind.split_at(8);
    let size = u32::from_be_bytes([head[0], head[1], head[2], head[3]]);
    let stored = u32::from_be_bytes([head[4], head[5], head[6], head[7]]);
    if rest.len() < size as usize {
        return Err(Flaw::Cut);
    }
    let (body, rest) = rest.split_at(size as usize);
    let computed = crc32(body);
    if computed != stored {
        return Err(Flaw::WrongSum(stored, computed));
    }
    Ok((body, rest))
}

/// The records of the bytes of a file, and where they end.
pub fn decode(alloc: Global, no: u32, bytes: &[u8]) -> Result<(Vec<Vec<u8>>, usize), LogFault>
    ensures records { IfOk result (λ decoded. bytes.now ≡ spelled (bodies decoded.0.items) ++ drop decoded.1 bytes.now) }
    ensures fit { IfOk result (λ decoded. AllFit (bodies decoded.0.items)) }
    ensures place { IfOk result (λ decoded. decoded.1 ≡ length (spelled (bodies decoded.0.items))) }
    ensures within { IfOk result (λ decoded. decoded.1 ≤ length bytes.now) }
    ensures end { IfOk result (λ decoded. IsEnd (drop decoded.1 bytes.now)) }
    ensures refused { IfErr result (λ fault. TellsOf fault no bytes.now) }
    ensures no_fault { IsErrOf result LogFault.Fault → ⊥ }
{
    let mut records = Vec::new(alloc);
    let mut rest = bytes;
    while let [1, behind @ ..] = rest {
        let at = (bytes.len() - rest.len()) as u64;
        let (body, after) = match body_of(behind) {
            Ok(found) => found,
            Err(Flaw::Cut) => {
                return Err(LogFault::Damaged(Damage {
                    file: no,
                    offset: at,
                    why: Why::Body,
                }));
            }
            Err(Flaw::WrongSum(stored, computed)) => {
                return Err(LogFault::Damaged(Damage {
                    file: no,
                    offset: at + 5,
                    why: Why::Sum { stored, computed },
                }));
            }
        };
        records.push(body.to_vec(alloc)?)?;
        rest = after;
    }
    Ok((records, bytes.len() - rest.len()))
}
