use crate::IndexChange;
use std::marker::Model;

/// A change that is ready to be made. A contract sees it and the places of its terms.
#[derive(Debug, Drop)]
pub struct Staged {
    pub(crate) change: IndexChange,
    pub(crate) places: Vec<usize>,
}

impl Model for Staged {
    ghost use Rattle.index_lists.specs.Ready.{Prepared};

    ghost Value = { Prepared };

    ghost view = { λ s. record { change = s.change; places = s.places.items } };
}
