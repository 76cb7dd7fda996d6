use std::marker::Model;

/// A file is in use. A hold must be given back, by `FileTable::unhold`. A contract sees it as the file's number.
#[derive(Debug)]
pub struct Hold {
    pub(crate) no: u32,
}

impl Model for Hold {
    ghost use Rattle.std.specs.Prelude.{ℕ};

    ghost Value = { ℕ };

    ghost view = { λ hold. hold.no };
}

impl Hold {
    ghost use Rattle.std.specs.Prelude.{◌≡◌};

    /// The number of the file.
    pub fn file(&self) -> u32
        ensures { result ≡ self.now }
    {
        self.no
    }
}
