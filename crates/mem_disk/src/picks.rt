ghost use Rattle.std.specs.Prelude.{◌≡◌, length, IfOk};

use std::alloc::{AllocError, Global};

/// Picks what a crash leaves open, by bytes that are taken in turn. After the last the first comes again, and where
/// there is none each is 0.
#[derive(Drop)]
pub(crate) struct Picks<'a> {
    choice: &'a [u8],
    next: usize,
}

impl<'a> Picks<'a> {
    pub(crate) fn new(choice: &'a [u8]) -> Picks<'a> {
        Picks { choice, next: 0 }
    }

    fn byte(&mut self) -> u8 {
        if self.next >= self.choice.len() {
            self.next = 0;
        }
        match self.choice.get(self.next) {
            Some(byte) => {
                self.next += 1;
                *byte
            }
            None => 0,
        }
    }

    /// Whether a file is there that a crash may leave or not: where the next byte is odd.
    pub(crate) fn leaves_it(&mut self) -> bool {
        self.byte() & 1 == 1
    }

    /// How many bytes past the old end of a file are lost: half of the next byte, so none where it is 0 or 1.
    pub(crate) fn lost(&mut self) -> usize {
        (self.byte() >> 1) as usize
    }

    /// The bytes of a range of this length.
    pub(crate) fn bytes(&mut self, alloc: Global, len: usize) -> Result<Vec<u8>, AllocError>
        ensures { IfOk result (λ bytes. length bytes.items ≡ len) }
    {
        let mut bytes = Vec::with_capacity(alloc, len)?;
        for _ in 0..len {
            bytes.push(self.byte())?;
        }
        Ok(bytes)
    }
}
