ghost use Rattle.std.specs.Prelude.{◌≡◌, ◌++◌, ◌∷◌, [], ℕ, List, length};
ghost use Rattle.gate_log.specs.Records.{AllFit, IsGated};
ghost use Rattle.shard_disk.specs.declared.damage.Damage.{Damage};
ghost use Rattle.tsdb_types.specs.declared.point.Point.{Point};
ghost use Rattle.point_model.specs.Acceptance as acceptance;
ghost use Rattle.point_model.specs.Deletions.{IsLoggable};
ghost use Rattle.point_model.specs.Sizes.{deletion_length, write_length};
ghost use Rattle.point_model.specs.declared.deletion.Deletion.{Deletion};
ghost use Rattle.point_model.specs.declared.entry.Entry.TheVariants.{Write, Delete};
ghost use Rattle.wal_store.specs.Replay.{AreCounted, AreRecords, IsSegment, IsWrongSegment, Logged};
ghost use Rattle.wal_store.specs.Runs.{IsWritable};
ghost use Rattle.wal_store.specs.Segments.{SpellsRecord, record_bytes};

/// Records of entries are a segment of these, and with a record behind them of these and its entry.
pub fn records_hold()
    ensures segment { (logged : List Logged) (records : List (List ℕ)) (bytes : List ℕ) → AreRecords logged records → IsGated records bytes → IsSegment logged bytes }
    ensures fit { (logged : List Logged) (records : List (List ℕ)) → AreRecords logged records → AllFit records }
    ensures more { (logged : List Logged) (records : List (List ℕ)) (one : Logged) (body : List ℕ) → AreRecords logged records → SpellsRecord one.number one.entry body
        → AreRecords (logged ++ one ∷ []) (records ++ body ∷ []) }
{}

/// A file is a segment of one list of entries at most. Where these are counted behind others nothing is wrong with it, and else one
/// thing at most is, at one place.
pub fn one_segment_read()
    ensures one { (some other : List Logged) (bytes : List ℕ) → IsSegment some bytes → IsSegment other bytes → some ≡ other }
    ensures never_wrong { (damage : Damage) (file floor : ℕ) (before logged : List Logged) (bytes : List ℕ) → IsSegment logged bytes → AreCounted floor (before ++ logged)
        → IsWrongSegment damage file floor before bytes → ⊥ }
    ensures one_wrong { (some other : Damage) (file floor : ℕ) (before : List Logged) (bytes : List ℕ) → IsWrongSegment some file floor before bytes → IsWrongSegment other file floor before bytes
        → some ≡ other }
{}

/// A record is as long as is counted, so what may be handed to a store, and each deletion that a log takes, can be written.
pub fn records_fit()
    ensures write { (number client : ℕ) (points : List Point) → length (record_bytes number (Write client points)) ≡ write_length points }
    ensures delete { (number client : ℕ) (deletion : Deletion) → length (record_bytes number (Delete client deletion)) ≡ deletion_length deletion }
    ensures batch { (client : ℕ) (points : List Point) → acceptance.IsWritable points → IsWritable (Write client points) }
    ensures deletion { (client : ℕ) (deletion : Deletion) → IsLoggable deletion → IsWritable (Delete client deletion) }
{}
