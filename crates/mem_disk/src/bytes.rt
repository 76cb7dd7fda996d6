ghost use Rattle.std.specs.Prelude.{◌≡◌, ◌+◌, ◌≤◌, length, OnOk, OnErr};
ghost use Rattle.shard_disk.specs.Directory.{spliced, Overwritten, Torn};

use crate::picks::Picks;
use std::alloc::{AllocError, Global};

/// Writes bytes over those at a place, and past the end. A refusal leaves all as it was.
pub(crate) fn overwrite(file: &mut Vec<u8>, at: usize, bytes: &[u8]) -> Result<(), AllocError>
    requires { at ≤ length file.old.items }
    ensures ok { OnOk result (file.new.items ≡ spliced file.old.items at (length bytes.now) bytes.now) }
    ensures err { OnErr result (file.new.items ≡ file.old.items) }
{
    let inside = bytes.len().min(file.len() - at);
    let (front, beyond) = bytes.split_at(inside);
    file.extend_from_slice(beyond)?;
    put(file.as_mut_slice(), at, front);
    Ok(())
}

/// Writes bytes over those at a place.
fn put(file: &mut [u8], at: usize, bytes: &[u8])
    requires { at + length bytes.now ≤ length file.old }
    ensures { file.new ≡ spliced file.old at (length bytes.now) bytes.now }
{
    file[at..at + bytes.len()].copy_from_slice(bytes);
}

/// The same at any place. One past the end counts as the end.
pub(crate) fn write_over(file: &mut Vec<u8>, at: u64, bytes: &[u8]) -> Result<(), AllocError>
    ensures { OnOk result (Overwritten at bytes.now file.old.items file.new.items) }
{
    let start = (at as usize).min(file.len());
    overwrite(file, start, bytes)?;
    Ok(())
}

/// Leaves of a write of so many bytes what is picked: any bytes in its range, and some or none of those past the old end.
pub(crate) fn tear(
    alloc: Global,
    file: &mut Vec<u8>,
    at: u64,
    len: usize,
    picks: &mut Picks,
) -> Result<(), AllocError>
    ensures { OnOk result (Torn at len file.old.items file.new.items) }
{
    let inside = len.min(file.len().saturating_sub(at as usize));
    let beyond = (len - inside).saturating_sub(picks.lost());
    let part = picks.bytes(alloc, inside + beyond)?;
    write_over(file, at, &part)?;
    Ok(())
}
