// A note, by which one pass tells another what it has seen.
use crate::counted::Counted;
use crate::pass::Pass;
use std::marker::Model;

/// One part of a pass, with what the pass had seen. It ends by `Turn::learn` alone.
pub struct Note<V: Counted> {
    pub(crate) pass: Pass<V>,
}

impl<V: Counted> Model for Note<V> {
    ghost use Rattle.history_turn.specs.Passes.{Known};

    ghost Value = { Known V.Start V.Entry V.Loan V.Facts };

    ghost view = { λ n. n.pass };
}
