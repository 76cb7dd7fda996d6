// What is left of bytes that are read.
ghost use Rattle.std.specs.Prelude.{◌≡◌, ◌++◌, ◌<◌, ◌≤◌, ◌^◌, length, IfOk, IsErrOf, IfErr};
ghost use Rattle.fixed_width.specs.Fields.{bytes_of_u16, bytes_of_u32};
ghost use Rattle.index_file.specs.Taking.{Takes};

use crate::Stop;
use fixed_width::{take_u16, take_u32};
use std::cmp::min;
use std::marker::Model;

/// The bytes that are still to be read. A contract sees them.
#[derive(Drop)]
pub struct Rest<'a> {
    bytes: &'a [u8],
}

impl<'a> Model for Rest<'a> {
    ghost use Rattle.std.specs.Prelude.{ℕ, List};

    ghost Value = { List ℕ };

    ghost view = { λ r. r.bytes.now };
}

impl<'a> Rest<'a> {
    pub fn new(bytes: &'a [u8]) -> Rest<'a>
        ensures { result ≡ bytes.now }
    {
        Rest { bytes }
    }

    pub fn len(&self) -> usize
        ensures { result ≡ length self.now }
    {
        self.bytes.len()
    }

    /// So many numbers of four bytes, or as many as there are room for.
    pub fn count_of_u32(&self, count: u32) -> usize {
        min(count as usize, self.bytes.len() / 4)
    }

    /// The number in the first four bytes.
    pub fn take_u32(&mut self) -> Result<u32, Stop>
        ensures { Takes (λ n. n < 2 ^ 32) bytes_of_u32 result self.old self.new }
    {
        match take_u32(self.bytes) {
            Some((number, behind)) => {
                self.bytes = behind;
                Ok(number)
            }
            None => Err(Stop::Wrong),
        }
    }

    /// The number in the first two bytes.
    pub fn take_u16(&mut self) -> Result<u16, Stop>
        ensures { Takes (λ n. n < 2 ^ 16) bytes_of_u16 result self.old self.new }
    {
        match take_u16(self.bytes) {
            Some((number, behind)) => {
                self.bytes = behind;
                Ok(number)
            }
            None => Err(Stop::Wrong),
        }
    }

    /// So many bytes.
    pub fn take_bytes(&mut self, count: usize) -> Result<&'a [u8], Stop>
        ensures found { IfOk result (λ taken. self.old ≡ taken.now ++ self.new) }
        ensures count { IfOk result (λ taken. length taken.now ≡ count) }
        ensures cut { IfErr result (λ stop. length self.old < count) }
    {
        if self.bytes.len() < count {
            return Err(Stop::Wrong);
        }
        let (taken, behind) = self.bytes.split_at(count);
        self.bytes = behind;
        Ok(taken)
    }
}
