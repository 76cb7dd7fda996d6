ghost use Rattle.std.specs.Prelude.{◌≡◌, ℕ, List, Result};
ghost use Rattle.shard_disk.specs.declared.damage.Damage.{Damage};
ghost use Rattle.index_file.specs.declared.content.Content.{Content};
ghost use Rattle.index_file.specs.Contents.{IsContent};
ghost use Rattle.index_file.specs.Faults.{Reads};
ghost use Rattle.index_file.specs.Format.{file_of};

/// Bytes are read as one content, or one thing is wrong with them, at one place; and contents with one file are one.
pub fn one_reading()
    ensures reading { (file : ℕ) (bytes : List ℕ) (one other : Result Content Damage) → Reads file bytes one → Reads file bytes other → one ≡ other }
    ensures file { (one other : Content) → IsContent one → IsContent other → file_of one ≡ file_of other → one ≡ other }
{}
