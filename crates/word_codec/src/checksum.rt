ghost use Rattle.std.specs.Prelude.{◌≡◌, ◌+◌, ◌*◌, ◌%◌, ◌<◌, replicate};
ghost use Rattle.word_codec.specs.Crc32.{crc32_of, remainder_of, bits_of, low_bits};

use super::remainders::REMAINDERS;

/// The IEEE checksum of 32 bits.
pub fn crc32(text: &[u8]) -> u32
    ensures { result ≡ crc32_of text.now }
{
    let mut remainder = u32::MAX;
    let mut rest = text;
    while let Some((eight, behind)) = rest.split_first_chunk::<8>() {
        remainder = after_eight(remainder, eight);
        rest = behind;
    }
    !after_bytes(remainder, rest)
}

// The remainder is taken into the word first; each byte of the sum then goes its own way to the end of the eight.
#[inline]
fn after_eight(start: u32, eight: &[u8; 8]) -> u32
    ensures { result ≡ remainder_of start (bits_of eight.now) }
{
    let word = u64::from_le_bytes(*eight) ^ start as u64;
    behind(7, word)
        ^ behind(6, word >> 8)
        ^ behind(5, word >> 16)
        ^ behind(4, word >> 24)
        ^ behind(3, word >> 32)
        ^ behind(2, word >> 40)
        ^ behind(1, word >> 48)
        ^ behind(0, word >> 56)
}

fn after_bytes(start: u32, bytes: &[u8]) -> u32
    ensures { result ≡ remainder_of start (bits_of bytes.now) }
{
    let mut remainder = start;
    for byte in bytes {
        remainder = after_byte(remainder, *byte);
    }
    remainder
}

#[inline]
fn after_byte(start: u32, byte: u8) -> u32
    ensures { result ≡ remainder_of start (low_bits 8 byte) }
{
    behind(0, (start ^ byte as u32) as u64) ^ (start >> 8)
}

// What is left of a word's lowest byte after its own bits and those of so many bytes of 0.
#[inline]
fn behind(zeros: usize, word: u64) -> u32
    requires { zeros < 8 }
    ensures { result ≡ remainder_of (word % 256) (replicate (8 * zeros + 8) 0) }
{
    REMAINDERS[zeros][(word % 256) as usize]
}
