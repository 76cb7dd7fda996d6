ghost use Rattle.std.specs.Prelude.{◌≡◌, IfSome, IsTrue};

use crate::known::Known;
use std::alloc::{AllocError, AllocFailed, Global};
use std::collections::HashMap;
use std::hash::{BuildHasher, Hasher};
use tsdb_types::Seed;

// The heads of the lines so far. Hashes only lead to them: a head is found where it is the same, byte for byte.
#[derive(Drop)]
pub struct Heads<'a> {
    known: Vec<Known<'a>>,
    places: HashMap<u64, u32, Seed>,
    seed: Seed,
}

impl<'a> Heads<'a> {
    pub fn new(alloc: Global, seed: Seed) -> Heads<'a> {
        Heads {
            known: Vec::new(alloc),
            places: HashMap::with_hasher(alloc, seed),
            seed,
        }
    }

    // The head as it stood in an earlier line.
    pub fn find(&self, head: &[u8]) -> Option<&Known<'a>>
        ensures { IfSome result (λ known. known.now.head ≡ head.now) }
    {
        let place = *self.places.get(&self.hash(head))?;
        let known = self.known.get(place as usize)?;
        if !is_text(known.head, head) {
            return None;
        }
        Some(known)
    }

    // Keeps the head of a line, in place of one with the same hash.
    pub fn keep(&mut self, known: Known<'a>) -> Result<(), AllocError> {
        let place = u32::try_from(self.known.len()).unwrap_or(0);
        let hash = self.hash(known.head);
        self.places.insert(hash, place)?;
        self.known.push(known)?;
        Ok(())
    }

    fn hash(&self, head: &[u8]) -> u64 {
        let mut hasher = self.seed.build_hasher();
        hasher.write(head);
        hasher.finish()
    }
}

pub fn is_text(text: &[u8], other: &[u8]) -> bool
    ensures { IsTrue result → text.now ≡ other.now }
{
    text == other
}
