// What the value behind a turn has to tell, and what a step tells of its change.
ghost use Rattle.std.specs.Prelude.{◌≡◌, ℕ, ◌+◌, ◌<◌, List, length, Option, None};

/// A value that stands for a start and the list of entries since. Its calls take no memory.
pub trait Counted {
    /// What a pass remembers of the value that it took last.
    type Facts: Copy;

    /// The start of a history. No value of it is made.
    type Start;

    /// One accepted change. No value of it is made.
    type Entry;

    /// Something that is out of the value and has to come back. No value of it is made.
    type Loan;

    /// The start of a history that begins with this value.
    ghost start: { Self → Self.Start };

    /// Any start. Nothing is said of it.
    ghost nowhere: { Self.Start };

    /// The number before that of the first entry.
    ghost first: { Self.Start → ℕ };

    /// The faults of the value at the start.
    ghost first_faults: { Self.Start → ℕ };

    /// The value stands for this start and these entries since. Several lists may fit one value.
    ghost stands: { Self → Self.Start → List Self.Entry → Type 0 };

    ghost faults_of: { Self → ℕ };

    /// The loans that are out.
    ghost loans_of: { Self → List Self.Loan };

    ghost facts_of: { Self → Self.Facts };

    /// The number of the last entry, or the first number where there is none.
    fn number(&self) -> u64
        ensures { (s : Self.Start) (es : List Self.Entry) → stands self.now s es → result ≡ first s + length es };

    /// The count of faults. It stays at its last value, 18446744073709551614.
    fn faults(&self) -> u64
        ensures value { result ≡ faults_of self.now }
        ensures room { result < 18446744073709551615 };

    fn facts(&self) -> Self::Facts
        ensures { result ≡ facts_of self.now };
}

/// What was done to a value while its turn was held. It is for the proof alone, and `give` is told it.
pub trait News<V: Counted> {
    /// The entry that was added, if one was, by the value that is given back.
    ghost entry: { Self → V → Option V.Entry };

    /// The loans of the pass afterwards, by the value that is given back and the loans of before.
    ghost loans: { Self → V → List V.Loan → List V.Loan };
}

/// No entry was added, and no loan was begun or ended.
#[derive(Drop)]
pub struct Nothing;

impl<V: Counted> News<V> for Nothing {
    ghost entry = { λ _ _. None };

    ghost loans = { λ _ _ ls. ls };
}
