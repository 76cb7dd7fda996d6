// The rule of a turn, and what each of its six kinds of step tells. These types are for the proofs alone.
use crate::counted::Counted;
use crate::view::PassView;
use atomic_table::{Join, Play, Split, TableRule};
use std::marker::{Brand, PhantomData};
use std::snapshot::Snapshot;

/// What a step puts in, for the proof alone.
pub(crate) trait Listed<T> {
    ghost use Rattle.std.specs.Prelude.{List};

    ghost list: { List T };
}

impl<T> Listed<T> for Brand {
    ghost use Rattle.std.specs.Prelude.{[]};

    ghost list = { [] };
}

/// How many parts a step moves, for the proof alone.
pub(crate) trait Portion {
    ghost use Rattle.std.specs.Prelude.{ℕ};

    ghost size: { ℕ };
}

impl Portion for Brand {
    ghost size = { 1 };
}

pub struct OneTurn;

impl<V: Counted> TableRule<Option<V>, PassView<V::Start, V::Entry, V::Loan>, Snapshot<V>>
    for OneTurn {
    ghost use Rattle.history_turn.specs.Rule.{Kept};
    ghost use Rattle.history_turn.specs.Views.{newcomer};

    ghost holds = { λ _. Kept V.stands V.first V.first_faults V.faults_of V.loans_of };

    ghost first = { λ key. newcomer (V.start key.value) };
}

pub(crate) struct Look;

impl<V: Counted> Play<Option<V>, PassView<V::Start, V::Entry, V::Loan>> for Look {
    ghost use Rattle.history_turn.specs.Steps.{looked};

    ghost then = { looked V.first };
}

pub(crate) struct Take;

impl<V: Counted> Play<Option<V>, PassView<V::Start, V::Entry, V::Loan>> for Take {
    ghost use Rattle.history_turn.specs.Steps.{took};

    ghost then = { took V.stands V.first V.first_faults V.faults_of V.loans_of };
}

pub(crate) struct Advance<W> {
    marker: PhantomData<W>,
}

impl<V: Counted, W: Listed<V::Entry>> Play<Option<V>, PassView<V::Start, V::Entry, V::Loan>>
    for Advance<W> {
    ghost use Rattle.history_turn.specs.Steps.{advanced};

    ghost then = { advanced V.first W.list };
}

pub(crate) struct Free<W> {
    marker: PhantomData<W>,
}

impl<S, E, L, X, W: Listed<L>> Play<Option<X>, PassView<S, E, L>> for Free<W> {
    ghost use Rattle.history_turn.specs.Steps.{freed};

    ghost then = { freed W.list };
}

pub(crate) struct Cut<W> {
    marker: PhantomData<W>,
}

impl<S, E, L, W: Portion> Split<PassView<S, E, L>> for Cut<W> {
    ghost use Rattle.history_turn.specs.Views.{cut, part_of};

    ghost left = { λ v. cut v W.size };

    ghost right = { λ v. part_of v W.size };
}

pub(crate) struct Glue<V> {
    marker: PhantomData<V>,
}

impl<V: Counted> Join<PassView<V::Start, V::Entry, V::Loan>> for Glue<V> {
    ghost use Rattle.history_turn.specs.Views.{joined, spent};

    ghost both = { joined };

    ghost spent = { spent V.nowhere };
}
