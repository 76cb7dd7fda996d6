// The frozen form of a cache: what a snapshot is.
use std::alloc::Global;
use std::marker::Model;
use tsdb_types::{Time, Value};

/// The bytes of a composite key. A contract sees their list.
#[derive(Drop)]
pub struct Key {
    bytes: Vec<u8>,
}

impl Model for Key {
    ghost use Rattle.std.specs.Prelude.{ℕ, List};

    ghost Value = { List ℕ };

    ghost view = { λ k. k.bytes.items };
}

impl Key {
    ghost use Rattle.std.specs.Prelude.{◌≡◌};

    pub(crate) fn new(bytes: Vec<u8>) -> Key
        ensures { result ≡ bytes.items }
    {
        Key { bytes }
    }

    pub fn as_bytes(&self) -> &[u8]
        ensures { result.now ≡ self.now }
    {
        self.bytes.as_slice()
    }
}

/// Points of one key. A contract sees their list.
#[derive(Drop)]
pub struct RunPoints {
    list: Vec<(Time, Value)>,
}

impl Model for RunPoints {
    ghost use Rattle.std.specs.Prelude.{List};
    ghost use Rattle.point_model.specs.Rows.{Row};

    ghost Value = { List Row };

    ghost view = { λ p. p.list.items };
}

impl RunPoints {
    ghost use Rattle.std.specs.Prelude.{◌≡◌};

    pub(crate) fn new(list: Vec<(Time, Value)>) -> RunPoints
        ensures { result ≡ list.items }
    {
        RunPoints { list }
    }

    pub fn as_slice(&self) -> &[(Time, Value)]
        ensures { result.now ≡ self.now }
    {
        self.list.as_slice()
    }
}

/// A key with its points.
#[derive(Drop)]
pub struct KeyRun {
    /// The composite key.
    pub key: Key,
    /// Its points, by ascending time.
    pub points: RunPoints,
}

/// Keys with their points. A contract sees their list.
#[derive(Drop)]
pub struct KeyRuns {
    list: Vec<KeyRun>,
}

impl Model for KeyRuns {
    ghost use Rattle.std.specs.Prelude.{List};
    ghost use Rattle.point_cache.specs.declared.key_points.KeyRun.{KeyRun};

    ghost Value = { List KeyRun };

    ghost view = { λ r. r.list.items };
}

impl KeyRuns {
    ghost use Rattle.std.specs.Prelude.{◌≡◌};

    pub(crate) fn new(list: Vec<KeyRun>) -> KeyRuns
        ensures { result ≡ list.items }
    {
        KeyRuns { list }
    }

    pub fn as_slice(&self) -> &[KeyRun]
        ensures { result.now ≡ self.now }
    {
        self.list.as_slice()
    }
}

/// The points of a cache when its snapshot began.
#[derive(Drop)]
pub struct KeyPoints {
    /// Its keys, ascending by their bytes, each with its points by ascending time.
    pub rows: KeyRuns,
}

impl KeyPoints {
    ghost use Rattle.std.specs.Prelude.{◌≡◌, []};

    pub(crate) fn new(alloc: Global) -> KeyPoints
        ensures { result.rows ≡ [] }
    {
        KeyPoints {
            rows: KeyRuns::new(Vec::new(alloc)),
        }
    }
}
