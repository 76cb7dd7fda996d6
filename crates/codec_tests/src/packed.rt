use simple8b::*;
use std::alloc::Global;
use std::process::Abort;
use std::test::Fail;

/// So many ones, and the words that stand for them: each the selector of a word, in order.
fn check_ones(rt: &impl Abort, alloc: Global, n: usize, selectors: &[u64]) -> Result<(), Fail> {
    let ones = vec![in alloc; 1u64; n]?;
    let words = encode(alloc, ones.as_slice())?;
    assert_eq!(rt; words.len(), selectors.len(), "{n} ones");
    for (word, selector) in words.iter().zip(selectors) {
        assert_eq!(rt; *word >> 60, *selector, "{n} ones");
    }
    let back = decode(alloc, words.as_slice(), n)?;
    assert_eq!(rt; back.as_slice(), ones.as_slice(), "{n} ones");
    Ok(())
}

/// How many ones, and the selectors of the words that stand for them.
const ONES: [(usize, &[u64]); 26] = [
    (0, &[]),
    (1, &[15]),
    (2, &[14]),
    (3, &[13]),
    (4, &[12]),
    (5, &[11]),
    (6, &[10]),
    (7, &[9]),
    (8, &[8]),
    (9, &[8, 15]),
    (10, &[7]),
    (11, &[7, 15]),
    (12, &[6]),
    (14, &[6, 14]),
    (15, &[5]),
    (19, &[5, 12]),
    (20, &[4]),
    (29, &[4, 8, 15]),
    (30, &[3]),
    (59, &[3, 4, 8, 15]),
    (60, &[2]),
    (119, &[2, 3, 4, 8, 15]),
    (120, &[1]),
    (239, &[1, 2, 3, 4, 8, 15]),
    (240, &[0]),
    (241, &[0, 15]),
];

#[test]
fn lists_of_ones_round_each_count(rt: HostRuntime) -> Result<(), Fail> {
    for (n, selectors) in ONES {
        check_ones(&rt, rt.alloc(), n, selectors)?;
    }
    Ok(())
}

/// Words that were laid out by hand.
#[test]
fn words_by_hand(rt: HostRuntime) -> Result<(), Fail> {
    let words = encode(rt.alloc(), &[2, 2])?;
    assert_eq!(rt; words.as_slice(), [0xe000_0000_8000_0002].as_slice());
    let words = encode(rt.alloc(), &[1152921504606846975])?;
    assert_eq!(rt; words.as_slice(), [0xffff_ffff_ffff_ffff].as_slice());
    let words = encode(rt.alloc(), &[0, 1, 2, 3, 4, 5, 6, 127])?;
    assert_eq!(rt; words.as_slice(), [0x80fe_1828_4060_8080].as_slice());
    Ok(())
}

/// Words that hold as many values but are the encoder's of no list.
#[test]
fn other_words_are_refused(rt: HostRuntime) {
    // one value under selector 14 has a word that another selector writes; a bit above the last value; too few values
    assert!(rt;
        decode(
            rt.alloc(),
            &[0xf000_0000_0000_0001, 0xf000_0000_0000_0001],
            2
        )
        .is_err()
    );
    assert!(rt; decode(rt.alloc(), &[1], 240).is_err());
    assert!(rt; decode(rt.alloc(), &[0], 239).is_err());
    assert!(rt; decode(rt.alloc(), &[], 0).is_ok());
    assert_eq!(rt;
        count(&[0, 0x1000_0000_0000_0000, 0xf000_0000_0000_0000]),
        361
    );
}
