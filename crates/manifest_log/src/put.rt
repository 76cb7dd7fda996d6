ghost use Rattle.std.specs.Prelude.{◌≡◌, ◌++◌, ◌∷◌, ◌<◌, ◌^◌, OnOk, IfOk};
ghost use Rattle.fixed_width.specs.Fields.{bytes_of_u32, bytes_of_u64};
ghost use Rattle.manifest_log.specs.Format.{HasRoom, IsWritable, number_of, change_bytes, edit_bytes};

use crate::Change;
use fixed_width::{put_u32, put_u64};
use std::alloc::{AllocError, Global};

/// The bytes of an edit.
pub fn edit_of(alloc: Global, changes: &[Change]) -> Result<Vec<u8>, AllocError>
    requires { IsWritable changes.now }
    ensures { IfOk result (λ bytes. bytes.items ≡ edit_bytes changes.now) }
{
    let mut out = Vec::new(alloc);
    put_u32(&mut out, changes.len() as u32)?;
    for change in changes {
        put_change(&mut out, change)?;
    }
    Ok(out)
}

fn put_change(out: &mut Vec<u8>, change: &Change) -> Result<(), AllocError>
    requires { HasRoom change.now }
    ensures { OnOk result (out.new.items ≡ out.old.items ++ change_bytes change.now) }
{
    match *change {
        Change::AddSegment { no } => put_one(out, 1, no),
        Change::ForgetSegment { no } => put_one(out, 2, no),
        Change::AddFile {
            no,
            generation,
            sequence,
            level,
            points,
            most_entries,
            tomb,
        } => {
            put_one(out, 3, no)?;
            put_u64(out, generation)?;
            put_u32(out, sequence)?;
            out.push(level)?;
            put_u64(out, points)?;
            put_u32(out, most_entries)?;
            put_u32(out, plus_one(tomb))
        }
        Change::RemoveFile { no } => put_one(out, 4, no),
        Change::NameTombs { no, tomb } => put_two(out, 5, no, tomb),
        Change::SetFloor { number } => {
            out.push(6)?;
            put_u64(out, number)
        }
        Change::NameSeries { no } => put_one(out, 7, no),
        Change::NameIndex { log, file } => put_two(out, 8, log, plus_one(file)),
    }
}

fn put_one(out: &mut Vec<u8>, kind: u8, number: u32) -> Result<(), AllocError>
    ensures { OnOk result (out.new.items ≡ out.old.items ++ kind ∷ bytes_of_u32 number) }
{
    out.push(kind)?;
    put_u32(out, number)
}

fn put_two(out: &mut Vec<u8>, kind: u8, first: u32, second: u32) -> Result<(), AllocError>
    ensures { OnOk result (out.new.items ≡ out.old.items ++ kind ∷ (bytes_of_u32 first ++ bytes_of_u32 second)) }
{
    put_one(out, kind, first)?;
    put_u32(out, second)
}

/// A file that may be missing, as one number.
fn plus_one(file: Option<u32>) -> u32
    requires { number_of file < 2 ^ 32 }
    ensures { result ≡ number_of file }
{
    match file {
        Some(file) => file + 1,
        None => 0,
    }
}
