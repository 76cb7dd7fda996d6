use fixed_width::{put_i64, put_u16, put_u32, put_u64, take_i64, take_u16, take_u32, take_u64};
use std::test::Fail;

#[test]
fn the_highest_byte_comes_first(rt: HostRuntime) -> Result<(), Fail> {
    let mut out = Vec::new(rt.alloc());
    put_u16(&mut out, 0x0102)?;
    put_u32(&mut out, 0x0304_0506)?;
    put_u64(&mut out, 0x0708_090A_0B0C_0D0E)?;
    put_i64(&mut out, -2)?;
    let bytes: [u8; 22] = [
        1, 2, 3, 4, 5, 6, 7, 8, 9, 10, 11, 12, 13, 14, 0xFF, 0xFF, 0xFF, 0xFF, 0xFF, 0xFF, 0xFF,
        0xFE,
    ];
    assert!(rt; out.as_slice() == bytes.as_slice());
    assert!(rt; take_u16(&bytes) == Some((0x0102, &bytes[2..])));
    assert!(rt; take_u32(&bytes[2..]) == Some((0x0304_0506, &bytes[6..])));
    assert!(rt; take_u64(&bytes[6..]) == Some((0x0708_090A_0B0C_0D0E, &bytes[14..])));
    assert!(rt; take_i64(&bytes[14..]) == Some((-2, &bytes[22..])));
    Ok(())
}
