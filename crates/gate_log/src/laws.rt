ghost use Rattle.std.specs.Prelude.{◌≡◌, ℕ, List};
ghost use Rattle.shard_disk.specs.declared.damage.Damage.{Damage};
ghost use Rattle.gate_log.specs.Damage.{IsDamaged, IsLog};
ghost use Rattle.gate_log.specs.Records.{AllFit, IsGated};

/// Bytes are a log of one list of records at most. Then they aren't damaged, and else one damage is named at most.
pub fn one_list()
    ensures gated { (a b : List (List ℕ)) (bytes : List ℕ) → AllFit a → AllFit b → IsGated a bytes → IsGated b bytes → a ≡ b }
    ensures log { (a b : List (List ℕ)) (bytes : List ℕ) → IsLog a bytes → IsLog b bytes → a ≡ b }
    ensures undamaged { (records : List (List ℕ)) (bytes : List ℕ) (damage : Damage) (number : ℕ) → IsLog records bytes → IsDamaged damage number bytes → ⊥ }
    ensures one_damage { (bytes : List ℕ) (some other : Damage) (number : ℕ) → IsDamaged some number bytes → IsDamaged other number bytes → some ≡ other }
{}
