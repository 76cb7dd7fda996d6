// Bytes of a file.
ghost use Rattle.std.specs.Prelude.{◌≡◌, ◌+◌, ◌≤◌, length, vec_len, Err, IsTrue, IfOk, IsErrOf};
ghost use Rattle.shard_disk.specs.Directory.{bytes_at};
ghost use Rattle.shard_disk.specs.Health.{Ages, Failed};
ghost use Rattle.shard_disk.specs.declared.damage.Damage.{Damage};

use point_model::CursorFault;
use shard_disk::Reader;
use std::alloc::Global;

/// So many bytes from a place on.
pub fn bytes_of<R: Reader>(
    alloc: Global,
    reader: &mut R,
    at: u64,
    size: usize,
) -> Result<Vec<u8>, CursorFault>
    requires { IsTrue R.tells → at + size ≤ length (R.content reader.old) }
    ensures read { IfOk result (λ bytes. IsTrue R.tells → bytes.items ≡ bytes_at (R.content reader.old) at size) }
    ensures size { IfOk result (λ bytes. vec_len bytes ≡ size) }
    ensures undamaged { (damage : Damage) → ¬ (result ≡ Err (CursorFault.Damaged damage)) }
    ensures fault { IsErrOf result CursorFault.Fault → Failed (R.health reader.old) (R.health reader.new) }
    ensures content { R.content reader.new ≡ R.content reader.old }
    ensures file { R.file reader.new ≡ R.file reader.old }
    ensures ages { Ages (R.health reader.old) (R.health reader.new) }
{
    let mut bytes = vec![in alloc; 0; size]?;
    reader.read_at(at, bytes.as_mut_slice())?;
    Ok(bytes)
}
