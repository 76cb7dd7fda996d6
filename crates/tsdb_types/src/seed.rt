use std::hash::{BuildHasher, FoldHasher, Hasher};

/// What the hashes of texts begin with that clients choose. Who doesn't know it when he chooses them can't choose texts of one hash.
#[derive(Clone, Copy, Drop)]
pub struct Seed {
    hasher: FoldHasher,
}

impl Seed {
    /// Any number that a client doesn't know beforehand, as the time in nanoseconds.
    pub fn new(number: u64) -> Seed {
        let mut hasher = FoldHasher::default();
        hasher.write_u64(number);
        Seed { hasher }
    }
}

impl BuildHasher for Seed {
    type Hasher = FoldHasher;

    ghost build_hasher = { λ seed. seed.hasher };

    fn build_hasher(&self) -> FoldHasher {
        self.hasher
    }
}
