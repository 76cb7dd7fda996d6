use std::marker::Brand;

/// Which turn the pass of a store is of, and how many parts it has. It is for the proofs alone: who lends the store out knows by
/// its type that the pass which comes back is of the same turn.
pub trait Place {
    ghost use Rattle.std.specs.Prelude.{ℕ};
    ghost use Rattle.atomic_table.specs.Seated.{TableId};

    ghost turn: { TableId };

    ghost parts: { ℕ };
}

impl Place for Brand {
    ghost use Rattle.std.specs.Prelude.{[]};

    ghost turn = { record { words = 0; slots = 0; views_name = 0; atom = 0; block = 0; offset = 0; slot_names = [] } };

    ghost parts = { 1 };
}
