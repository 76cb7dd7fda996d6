ghost use Rattle.std.specs.Prelude.{◌≡◌, ℤ, ℕ, List, ◌↔◌};
ghost use Rattle.tombstones.specs.Covered.{Tomb, Hides, AreFewest};
ghost use Rattle.tombstones.specs.Laws.{HidingIsTested};

/// Two lists of fewest tombstones that hide the same are one list. So sets that hide the same are written alike.
pub fn one_form()
    ensures { (some others : List Tomb) → AreFewest some → AreFewest others
        → ((key : List ℕ) (time : ℤ) → Hides some key time ↔ Hides others key time) → some ≡ others }
{}

/// What is hidden is told by a test, and so is what hiding a range besides adds to it.
pub fn hiding_is_tested()
    ensures { HidingIsTested }
{}
