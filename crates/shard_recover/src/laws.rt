ghost use Rattle.std.specs.Prelude.{◌≡◌, ℕ, List};
ghost use Rattle.shard_disk.specs.Directory.{Directory};
ghost use Rattle.shard_disk.specs.declared.damage.Damage.{Damage};
ghost use Rattle.point_model.specs.Histories.{State};
ghost use Rattle.shard_state.specs.Opening.{IsSoundAtOpening};
ghost use Rattle.shard_recover.specs.Damage.{IsFirstDamage};
ghost use Rattle.shard_recover.specs.Standing.{Stood};

use shard_disk::Disk;

/// A directory has one first damage at most, and none where its files stand for a state. They stand for one state, with its series.
pub fn one_damage()
    ensures one { (files : Directory) (some other : Damage) → IsFirstDamage some files → IsFirstDamage other files → some ≡ other }
    ensures none { (files : Directory) (state : State) (series : List (List ℕ)) (damage : Damage) → Stood files state series → IsFirstDamage damage files → ⊥ }
    ensures one_state { (files : Directory) (some other : State) (series others : List (List ℕ)) → Stood files some series → Stood files other others
        → (some ≡ other) × (series ≡ others) }
{}

/// The files of a disk that is sound as it is opened stand for its state, so nothing is wrong with them.
pub fn sound_directories_are_undamaged<D: Disk>()
    ensures stood { (disk : D) (state : State) → IsSoundAtOpening D.Disk disk state → (series : List (List ℕ)) × Stood (D.files disk) state series }
    ensures none { (disk : D) (state : State) (damage : Damage) → IsSoundAtOpening D.Disk disk state → IsFirstDamage damage (D.files disk) → ⊥ }
{}
