ghost use Rattle.std.specs.Prelude.{◌≡◌, List, All};
ghost use Rattle.tsdb_types.specs.declared.value.Kind.{Kind};
ghost use Rattle.tsdb_types.specs.declared.value.Value.{Value};
ghost use Rattle.value_codec.specs.Coding.{AreOf, IsInRange, coded_as};

/// No two lists of a kind have the same bytes, whatever their lengths.
pub fn one_spelling()
    ensures { (kind : Kind) (one two : List Value) → AreOf kind one → AreOf kind two → All IsInRange one → All IsInRange two
        → coded_as kind one ≡ coded_as kind two → one ≡ two }
{}
