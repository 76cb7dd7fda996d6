ghost use Rattle.std.specs.Prelude.{◌≢◌, ℕ, List, [], All, Ok};
ghost use Rattle.tsm_format.specs.Rows.{first_block};
ghost use Rattle.tsm_file.specs.ReadBlocks.{KeyHas};
ghost use Rattle.tsm_file.specs.ReadIndex.{ReadsFile};
ghost use Rattle.tsm_file.specs.Written.{IsFile, KeyBlocks, joined, rows_of};

/// A file of keys and their blocks is read as the index of these keys, under whatever number, and each key has the points
/// of its blocks. So what is written is read back, and so is every other cut of it into blocks.
pub fn files_are_read_back()
    ensures index { (bytes : List ℕ) (keys : List KeyBlocks) (file : ℕ) → IsFile bytes keys
        → ReadsFile file bytes (Ok (record { file = file; rows = rows_of first_block keys })) }
    ensures points { (bytes : List ℕ) (keys : List KeyBlocks) → IsFile bytes keys
        → All (λ one. KeyHas bytes (rows_of first_block keys) one.key (joined one.blocks)) keys }
    ensures no_others { (bytes : List ℕ) (keys : List KeyBlocks) (key : List ℕ) → IsFile bytes keys → All (λ one. one.key ≢ key) keys
        → KeyHas bytes (rows_of first_block keys) key [] }
{}
