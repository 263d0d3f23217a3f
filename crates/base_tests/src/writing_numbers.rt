// Numbers of the binary format in the fewest bytes.
use leb_bytes::{read_s64, write_s32, write_s64, write_u32};
use std::test::Fail;

#[test]
fn signed_numbers_in_the_fewest_bytes(rt: HostRuntime) -> Result<(), Fail> {
    let rows: [(i64, &[u8]); 11] = [
        (0, &[0x00]),
        (63, &[0x3f]),
        (64, &[0xc0, 0x00]),
        (-2, &[0x7e]),
        (-64, &[0x40]),
        (-65, &[0xbf, 0x7f]),
        (2_147_483_647, &[0xff, 0xff, 0xff, 0xff, 0x07]),
        (-2_147_483_648, &[0x80, 0x80, 0x80, 0x80, 0x78]),
        (4_294_967_296, &[0x80, 0x80, 0x80, 0x80, 0x10]),
        (
            i64::MAX,
            &[0xff, 0xff, 0xff, 0xff, 0xff, 0xff, 0xff, 0xff, 0xff, 0x00],
        ),
        (
            i64::MIN,
            &[0x80, 0x80, 0x80, 0x80, 0x80, 0x80, 0x80, 0x80, 0x80, 0x7f],
        ),
    ];
    for (number, bytes) in rows {
        let mut out = [0xaa; 10];
        let length = write_s64(number, &mut out);
        assert_eq!(rt; &out[..length], bytes);
        assert_eq!(rt; read_s64(&out, 0, 10), Ok((number, length)));
        if let Ok(small) = i32::try_from(number) {
            let mut again = [0xaa; 10];
            assert_eq!(rt; write_s32(small, &mut again), length);
            assert_eq!(rt; again, out);
        }
    }
    Ok(())
}

#[test]
fn numbers_without_sign_in_the_fewest_bytes(rt: HostRuntime) -> Result<(), Fail> {
    let rows: [(u32, &[u8]); 5] = [
        (0, &[0x00]),
        (127, &[0x7f]),
        (128, &[0x80, 0x01]),
        (624_485, &[0xe5, 0x8e, 0x26]),
        (u32::MAX, &[0xff, 0xff, 0xff, 0xff, 0x0f]),
    ];
    for (number, bytes) in rows {
        let mut out = [0xaa; 10];
        let length = write_u32(number, &mut out);
        assert_eq!(rt; &out[..length], bytes);
        assert_eq!(rt; out[9], 0xaa);
    }
    Ok(())
}
