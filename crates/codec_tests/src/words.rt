use std::test::Fail;
use word_codec::*;

/// Numbers with their spellings, as Protocol Buffers and DWARF write them.
const SPELLINGS: [(u64, &[u8]); 6] = [
    (0, &[0x00]),
    (127, &[0x7F]),
    (128, &[0x80, 0x01]),
    (300, &[0xAC, 0x02]),
    (624_485, &[0xE5, 0x8E, 0x26]),
    (
        18_446_744_073_709_551_615,
        &[0xFF, 0xFF, 0xFF, 0xFF, 0xFF, 0xFF, 0xFF, 0xFF, 0xFF, 0x01],
    ),
];

const REFUSED: [(&[u8], UvarintFault); 6] = [
    (&[], UvarintFault::Short),
    (&[0x80], UvarintFault::Short),
    (
        &[0xFF, 0xFF, 0xFF, 0xFF, 0xFF, 0xFF, 0xFF, 0xFF, 0xFF],
        UvarintFault::Short,
    ),
    (&[0x80, 0x00], UvarintFault::Long),
    (
        &[0xFF, 0xFF, 0xFF, 0xFF, 0xFF, 0xFF, 0xFF, 0xFF, 0xFF, 0x02],
        UvarintFault::Long,
    ),
    (
        &[0xFF, 0xFF, 0xFF, 0xFF, 0xFF, 0xFF, 0xFF, 0xFF, 0xFF, 0xFF],
        UvarintFault::Long,
    ),
];

const SIGNED: [(i64, u64); 6] = [
    (0, 0),
    (-1, 1),
    (1, 2),
    (-2, 3),
    (9_223_372_036_854_775_807, 18_446_744_073_709_551_614),
    (-9_223_372_036_854_775_808, 18_446_744_073_709_551_615),
];

/// Texts with their checksums, as published for CRC-32/ISO-HDLC.
const CHECKSUMS: [(&[u8], u32); 5] = [
    (b"", 0),
    (b"a", 0xE8B7_BE43),
    (b"123456789", 0xCBF4_3926),
    (b"The quick brown fox jumps over the lazy dog", 0x414F_A339),
    (&[0; 32], 0x190A_55AD),
];

#[test]
fn numbers_are_spelled_and_read(rt: HostRuntime) -> Result<(), Fail> {
    for (number, spelling) in SPELLINGS {
        let mut out = Vec::new(rt.alloc());
        write_uvarint(&mut out, number)?;
        assert_eq!(rt; out.as_slice(), spelling, "{number}");
        assert_eq!(rt;
            read_uvarint(spelling),
            Ok((number, spelling.len())),
            "{number}"
        );
    }
    Ok(())
}

#[test]
fn wrong_spellings_are_refused(rt: HostRuntime) {
    for (bytes, fault) in REFUSED {
        assert_eq!(rt; read_uvarint(bytes), Err(fault), "{bytes:?}");
    }
}

#[test]
fn signed_numbers_have_small_words(rt: HostRuntime) {
    for (number, word) in SIGNED {
        assert_eq!(rt; zigzag(number), word, "{number}");
        assert_eq!(rt; unzigzag(word), number, "{word}");
    }
}

#[test]
fn checksums_are_the_published_ones(rt: HostRuntime) {
    for (text, sum) in CHECKSUMS {
        assert_eq!(rt; crc32(text), sum, "{text:?}");
    }
}

/// Two words with their bytes, the highest first, and bytes of which the last word is cut.
#[test]
fn words_have_eight_bytes(rt: HostRuntime) -> Result<(), Fail> {
    let words = [0x0102_0304_0506_0708, 0xff];
    let bytes = [1, 2, 3, 4, 5, 6, 7, 8, 0, 0, 0, 0, 0, 0, 0, 0xff];
    let mut out = Vec::new(rt.alloc());
    write_words(&mut out, &words)?;
    assert_eq!(rt; out.as_slice(), bytes.as_slice());
    let read = read_words(rt.alloc(), &bytes)?.ok_or("no words")?;
    assert_eq!(rt; read.as_slice(), words.as_slice());
    let (cut, _) = bytes.split_at(15);
    assert!(rt; read_words(rt.alloc(), cut)?.is_none());
    Ok(())
}
