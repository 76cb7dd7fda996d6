ghost use Rattle.std.specs.Prelude.{◌≡◌, ◌≤◌, ◌^◌, ◌++◌, ◌∷◌, [], ℕ, List, length, nat_eq};
ghost use Rattle.std.specs.Cmp.Lexicographic.{pointwise};
ghost use Rattle.std.specs.List.{AllByRecursion, IsDistinct};
ghost use Rattle.gate_log.specs.Records.{AllFit, IsGated};
ghost use Rattle.shard_disk.specs.declared.damage.Damage.{Damage};
ghost use Rattle.point_model.specs.Acceptance.{IsWritable};
ghost use Rattle.tsdb_types.specs.declared.point.Point.{Point};
ghost use Rattle.series_store.specs.Format.{HasRoom, IsKey, record_bytes};
ghost use Rattle.series_store.specs.Lists.{Hold, IsSeriesOf, MayAdd};
ghost use Rattle.series_store.specs.Reading.{IsSeriesFile, IsWrong};

/// Records are a file of the series that they hold, and with the record behind them that adds series they hold these too.
pub fn records_hold()
    ensures file { (bytes : List ℕ) (records : List (List ℕ)) (series : List (List ℕ)) → Hold records series → IsGated records bytes → IsSeriesFile series bytes }
    ensures fit { (records : List (List ℕ)) (series : List (List ℕ)) → Hold records series → AllFit records }
    ensures more { (records : List (List ℕ)) (held more : List (List ℕ)) → Hold records held → AllByRecursion IsKey more → MayAdd held more
        → Hold (records ++ record_bytes more ∷ []) (held ++ more) }
{}

/// A file is of one list of series at most, and then nothing is wrong with it. Else at most one thing is, at one place.
pub fn one_file()
    ensures one { (bytes : List ℕ) (some other : List (List ℕ)) → IsSeriesFile some bytes → IsSeriesFile other bytes → some ≡ other }
    ensures never_wrong { (bytes : List ℕ) (number : ℕ) (series : List (List ℕ)) (damage : Damage) → IsSeriesFile series bytes → IsWrong number damage bytes → ⊥ }
    ensures one_wrong { (bytes : List ℕ) (number : ℕ) (some other : Damage) → IsWrong number some bytes → IsWrong number other bytes → some ≡ other }
{}

/// Series of a batch that may be handed to a store have room in a record: each for itself, and those that differ together.
pub fn batch_has_room()
    ensures room { (points : List Point) (series : List (List ℕ)) → IsWritable points → AllByRecursion (IsSeriesOf points) series → AllByRecursion HasRoom series }
    ensures short { (points : List Point) (series : List (List ℕ)) → IsWritable points → AllByRecursion (IsSeriesOf points) series → IsDistinct (pointwise nat_eq) series
        → length (record_bytes series) ≤ 2 ^ 30 }
{}
