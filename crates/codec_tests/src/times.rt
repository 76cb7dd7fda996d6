use std::alloc::Global;
use std::process::Abort;
use std::test::Fail;
use time_codec::*;
use tsdb_types::{BlockFault, Time};

fn times(alloc: Global, numbers: &[i64]) -> Result<Vec<Time>, Fail> {
    let mut times = Vec::new(alloc);
    for number in numbers {
        times.push(Time::new(*number).ok_or("no moment")?)?;
    }
    Ok(times)
}

/// Whether a coding of times is what it should be, and is read back. Each list ascends.
fn check(rt: &impl Abort, alloc: Global, numbers: &[i64], bytes: &[u8]) -> Result<(), Fail> {
    let times = times(alloc, numbers)?;
    let read = decode(alloc, bytes)?;
    assert_eq!(rt; read.as_slice(), times.as_slice());
    let again = encode(alloc, read.as_slice())?;
    assert_eq!(rt; again.as_slice(), bytes);
    Ok(())
}

/// Lists of times with their bytes, laid out by hand.
const CODINGS: [(&[i64], &[u8]); 8] = [
    // One time, and no difference: the greatest scale.
    (&[10], &[0x1C, 0, 0, 0, 0, 0, 0, 0, 10]),
    // Two times, 1 apart.
    (
        &[-1, 0],
        &[0x20, 255, 255, 255, 255, 255, 255, 255, 255, 1, 2],
    ),
    // Three times, each ten behind the one before: 1 in units of ten.
    (&[10, 20, 30], &[0x21, 0, 0, 0, 0, 0, 0, 0, 10, 1, 3]),
    // The scale ends at 10^12.
    (
        &[0, 10_000_000_000_000],
        &[0x2C, 0, 0, 0, 0, 0, 0, 0, 0, 10, 2],
    ),
    // The first and the last moment.
    (
        &[-9_223_372_036_854_775_806, 9_223_372_036_854_775_806],
        &[
            0x20, 128, 0, 0, 0, 0, 0, 0, 2, 0xFC, 0xFF, 0xFF, 0xFF, 0xFF, 0xFF, 0xFF, 0xFF, 0xFF,
            0x01, 2,
        ],
    ),
    // 1 and 2 in units of ten: a word of two values in 30 bits each.
    (
        &[0, 10, 30],
        &[0x11, 0, 0, 0, 0, 0, 0, 0, 0, 0xE0, 0, 0, 0, 0x80, 0, 0, 1],
    ),
    // 2^60 units of ten fit no word.
    (
        &[
            -8_000_000_000_000_000_000,
            3_529_215_046_068_469_760,
            3_529_215_046_068_469_770,
        ],
        &[
            0x00, 0x90, 0xFA, 0x4A, 0x62, 0xC4, 0xE0, 0x00, 0x00, 0xA0, 0, 0, 0, 0, 0, 0, 0, 0, 0,
            0, 0, 0, 0, 0, 10,
        ],
    ),
    // Two words: 240 ones would be one, but these are two values in 30 bits, and one in 60.
    (
        &[0, 1, 3, 1_152_921_504_606_846_978],
        &[
            0x10, 0, 0, 0, 0, 0, 0, 0, 0, 0xE0, 0, 0, 0, 0x80, 0, 0, 1, 0xFF, 0xFF, 0xFF, 0xFF,
            0xFF, 0xFF, 0xFF, 0xFF,
        ],
    ),
];

/// The first of times that are all as far from one another, how far, how many there are, and their bytes as an encoder
/// wrote them that stands outside of this repository, in C, and was made from the page of formats alone.
const REGULAR: [(i64, u64, usize, &[u8]); 8] = [
    (
        0,
        1,
        2,
        &[
            0x20, 0x00, 0x00, 0x00, 0x00, 0x00, 0x00, 0x00, 0x00, 0x01, 0x02,
        ],
    ),
    (
        -9223372036854775806,
        18446744073709551612,
        2,
        &[
            0x20, 0x80, 0x00, 0x00, 0x00, 0x00, 0x00, 0x00, 0x02, 0xFC, 0xFF, 0xFF, 0xFF, 0xFF,
            0xFF, 0xFF, 0xFF, 0xFF, 0x01, 0x02,
        ],
    ),
    (
        1700000000000000000,
        10000000000,
        1000,
        &[
            0x2A, 0x17, 0x97, 0x9C, 0xFE, 0x36, 0x2A, 0x00, 0x00, 0x01, 0xE8, 0x07,
        ],
    ),
    (
        1700000000000000000,
        1000000000,
        60,
        &[
            0x29, 0x17, 0x97, 0x9C, 0xFE, 0x36, 0x2A, 0x00, 0x00, 0x01, 0x3C,
        ],
    ),
    (
        1700000000000000000,
        1000000,
        240,
        &[
            0x26, 0x17, 0x97, 0x9C, 0xFE, 0x36, 0x2A, 0x00, 0x00, 0x01, 0xF0, 0x01,
        ],
    ),
    (
        -500,
        250,
        5,
        &[
            0x21, 0xFF, 0xFF, 0xFF, 0xFF, 0xFF, 0xFF, 0xFE, 0x0C, 0x19, 0x05,
        ],
    ),
    (
        1700000000000000000,
        3600000000000,
        24,
        &[
            0x2B, 0x17, 0x97, 0x9C, 0xFE, 0x36, 0x2A, 0x00, 0x00, 0x24, 0x18,
        ],
    ),
    (
        1700000000000000000,
        86400000000000,
        365,
        &[
            0x2B, 0x17, 0x97, 0x9C, 0xFE, 0x36, 0x2A, 0x00, 0x00, 0xE0, 0x06, 0xED, 0x02,
        ],
    ),
];

/// Bytes of no list of times.
const REFUSED: [&[u8]; 12] = [
    &[],
    &[0x1C, 0, 0, 0, 0, 0, 0, 0],
    // A byte behind the times.
    &[0x1C, 0, 0, 0, 0, 0, 0, 0, 10, 0],
    &[0x21, 0, 0, 0, 0, 0, 0, 0, 10, 1, 3, 0],
    // A scale that is too small, and one that is too great.
    &[0x20, 0, 0, 0, 0, 0, 0, 0, 10, 10, 3],
    &[0x2D, 0, 0, 0, 0, 0, 0, 0, 10, 1, 3],
    // Times that do not ascend, or are no moments.
    &[0x20, 0, 0, 0, 0, 0, 0, 0, 10, 0, 3],
    &[0x1C, 128, 0, 0, 0, 0, 0, 0, 1],
    // One time, and 1,001 of them.
    &[0x21, 0, 0, 0, 0, 0, 0, 0, 10, 1, 1],
    &[0x20, 0, 0, 0, 0, 0, 0, 0, 10, 1, 0xE9, 0x07],
    // A number that is spelled too long, and a form that is none.
    &[0x21, 0, 0, 0, 0, 0, 0, 0, 10, 0x81, 0x00, 3],
    &[0x30, 0, 0, 0, 0, 0, 0, 0, 10],
];

#[test]
fn times_have_their_bytes(rt: HostRuntime) -> Result<(), Fail> {
    for (numbers, bytes) in CODINGS {
        check(&rt, rt.alloc(), numbers, bytes)?;
    }
    Ok(())
}

#[test]
fn regular_times_have_the_bytes_of_another_encoder(rt: HostRuntime) -> Result<(), Fail> {
    for (first, distance, count, bytes) in REGULAR {
        let times = decode(rt.alloc(), bytes)?;
        assert_eq!(rt; times.len(), count);
        let mut number = first;
        for time in &times {
            assert_eq!(rt; time.get(), number);
            number = number.wrapping_add_unsigned(distance);
        }
        let again = encode(rt.alloc(), times.as_slice())?;
        assert_eq!(rt; again.as_slice(), bytes);
    }
    Ok(())
}

#[test]
fn other_bytes_are_refused(rt: HostRuntime) {
    for bytes in REFUSED {
        assert_eq!(rt;
            decode(rt.alloc(), bytes).err(),
            Some(BlockFault::BadBlock),
            "{bytes:?}"
        );
    }
}
