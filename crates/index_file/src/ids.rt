ghost use Rattle.std.specs.Prelude.{◌≡◌};

use std::marker::Model;

/// Ids of series. A contract sees the list.
#[derive(Debug, Drop)]
pub struct Ids {
    list: Vec<u32>,
}

impl Model for Ids {
    ghost use Rattle.std.specs.Prelude.{ℕ, List};

    ghost Value = { List ℕ };

    ghost view = { λ i. i.list.items };
}

impl Ids {
    pub fn new(list: Vec<u32>) -> Ids
        ensures { result ≡ list.items }
    {
        Ids { list }
    }

    pub fn as_slice(&self) -> &[u32]
        ensures { result.now ≡ self.now }
    {
        &self.list
    }

    /// The list itself. Takes no memory.
    pub fn into_vec(self) -> Vec<u32>
        ensures { result.items ≡ self }
    {
        self.list
    }
}
