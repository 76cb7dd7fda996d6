// A pass, by which one thread takes turns, and the value while it is out.
ghost use Rattle.std.specs.Prelude.{◌≡◌};

use crate::counted::Counted;
use crate::view::PassView;
use atomic_table::Seat;
use std::marker::Model;

/// What one thread knows and owns of a turn. It ends by `Turn::join` or `Turn::close` alone.
pub struct Pass<V: Counted> {
    pub(crate) seat: Seat<Option<V>, PassView<V::Start, V::Entry, V::Loan>>,
    pub(crate) parts: u64,
    pub(crate) faults: u64,
    /// The faults of the value as it was taken, and 0 without the turn.
    pub(crate) faults_found: u64,
    pub(crate) before: Option<V::Facts>,
}

impl<V: Counted> Model for Pass<V> {
    ghost use Rattle.history_turn.specs.Passes.{Known, IsSound};

    ghost Value = { Known V.Start V.Entry V.Loan V.Facts };

    ghost view = { λ p. record { turn = p.seat.table_id; view = p.seat.me.0; before = p.before } };

    ghost invariant = { λ p. IsSound p.seat p.parts p.faults p.faults_found };
}

impl<V: Counted> Pass<V> {
    /// Between 1 and 4294967296, which is all.
    pub fn parts(&self) -> u64
        ensures { result ≡ self.now.view.parts }
    {
        self.parts
    }

    /// How many gives under this pass put back a value whose faults had risen since it was taken.
    pub fn faults(&self) -> u64
        ensures { result ≡ self.now.view.faults }
    {
        self.faults
    }

    /// The facts of the value as the last `take` found it; none where there was no `take`.
    pub fn before(&self) -> Option<V::Facts>
        ensures { result ≡ self.now.before }
    {
        self.before
    }
}

/// The value while a pass has the turn. It ends by `Turn::give` alone.
pub struct Held<V> {
    pub(crate) value: V,
}

impl<V> Model for Held<V> {
    ghost Value = { V };

    ghost coded = { V.code };

    ghost view = { λ h. h.value };
}

impl<V> Held<V> {
    ghost use Rattle.std.specs.Borrow.{sem};
    ghost use Rattle.history_turn.specs.Lending.{LendsValue};

    /// Lends the value, which ends as it was last written.
    pub fn value(&mut self) -> &mut V
        ensures* writes_back { sem 𝓛 (LendsValue V.row self.entry result) }
        ensures value { result.now ≡ self.old }
    {
        &mut self.value
    }
}
