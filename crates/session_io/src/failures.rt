ghost use Rattle.std.specs.Prelude.{◌≡◌, ◌≤◌, false, IsTrue};
ghost use Rattle.shard_disk.specs.Health.{Health, Ages, Failed, Rose};
ghost use Rattle.session_io.specs.Failing.{none_to_come};

use std::marker::Model;

/// Which calls of a device in memory fail, and how many have failed. A contract sees it as the health of the device.
#[derive(Drop)]
pub(crate) struct Failures {
    places: Vec<u64>,
    calls: u64,
    faults: u64,
}

impl Model for Failures {
    ghost Value = { Health };

    ghost view = { λ f. record { faults = f.faults; is_steady = none_to_come f.places.items f.calls } };
}

impl Failures {
    /// The calls at these places fail, counted from 0.
    pub(crate) fn new(places: Vec<u64>) -> Self
        ensures { result ≡ record { faults = 0; is_steady = none_to_come places.items 0 } }
    {
        Failures {
            places,
            calls: 0,
            faults: 0,
        }
    }

    /// Whether the next call fails. It counts as made.
    pub(crate) fn next_fails(&mut self) -> bool
        ensures fails { IsTrue result → Failed self.old self.new }
        ensures works { result ≡ false → self.new ≡ self.old }
        ensures ages { Ages self.old self.new }
    {
        let place = self.calls;
        self.calls = self.calls.saturating_add(1);
        if !self.places.contains(&place) {
            return false;
        }
        self.faults = self.faults.saturating_add(1);
        true
    }

    /// Counts a fault of another cause.
    pub(crate) fn note_fault(&mut self)
        ensures later { self.old.faults ≤ self.new.faults }
        ensures rose { Rose self.old.faults self.new.faults }
        ensures steady { self.new.is_steady ≡ self.old.is_steady }
    {
        self.faults = self.faults.saturating_add(1);
    }
}
