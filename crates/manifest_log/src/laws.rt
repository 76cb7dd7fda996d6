ghost use Rattle.std.specs.Prelude.{◌≡◌, ◌≢◌, ◌++◌, ◌∷◌, [], ℕ, List, Option, Result};
ghost use Rattle.shard_disk.specs.Directory.{Directory as Disk};
ghost use Rattle.shard_disk.specs.declared.damage.Damage.{Damage};
ghost use Rattle.gate_log.specs.Records.{AllFit, IsGated};
ghost use Rattle.manifest_log.specs.declared.change.Change.{Change};
ghost use Rattle.manifest_log.specs.declared.directory.Directory.{Directory};
ghost use Rattle.manifest_log.specs.Edits.{Follows};
ghost use Rattle.manifest_log.specs.Format.{IsWritable};
ghost use Rattle.manifest_log.specs.Reading.{IsManifest, IsWrong, Lead, Reads, bodies_of};

/// A disk is read in one way: as a disk without an edit, as one directory, or with one damage.
pub fn one_reading()
    ensures { (files : Disk) (some other : Result (Option Directory) Damage) → Reads files some → Reads files other → some ≡ other }
{}

/// A file is the manifest of one directory at most, and then nothing is wrong with it. Else at most one thing is, at one place.
pub fn one_manifest()
    ensures one { (bytes : List ℕ) (some other : Directory) → IsManifest some bytes → IsManifest other bytes → some ≡ other }
    ensures never_wrong { (bytes : List ℕ) (directory : Directory) (damage : Damage) → IsManifest directory bytes → IsWrong damage bytes → ⊥ }
    ensures one_wrong { (bytes : List ℕ) (some other : Damage) → IsWrong some bytes → IsWrong other bytes → some ≡ other }
{}

/// Edits that leave a directory are its manifest behind their gates, where it names a segment, and one more that follows them
/// leaves the next directory.
pub fn edits_lead()
    ensures file { (bytes : List ℕ) (edits : List (List Change)) (directory : Directory) → edits ≢ [] → Lead edits directory → directory.segments ≢ []
        → IsGated (bodies_of edits) bytes → IsManifest directory bytes }
    ensures fit { (edits : List (List Change)) (directory : Directory) → Lead edits directory → AllFit (bodies_of edits) }
    ensures more { (edits : List (List Change)) (changes : List Change) (directory next : Directory) → Lead edits directory → IsWritable changes → Follows directory changes next
        → Lead (edits ++ changes ∷ []) next }
{}
