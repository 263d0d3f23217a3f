// Numbers of the binary format that are read. The rows are those of the standard, 5.2.2.
use leb_bytes::{LebFault, read_s32, read_s64, read_u32};
use std::test::Fail;

const GO_ON: [u8; 11] = [0x80; 11];

#[test]
fn numbers_without_sign(rt: HostRuntime) -> Result<(), Fail> {
    let rows: [(&[u8], Result<(u32, usize), LebFault>); 15] = [
        (&[0x03], Ok((3, 1))),
        (&[0x83, 0x00], Ok((3, 2))),
        (&[0x83, 0x80, 0x00, 0x80], Ok((3, 3))),
        (&[0x83, 0x80, 0x80, 0x00], Ok((3, 4))),
        (&[0x83, 0x80, 0x80, 0x80, 0x00, 0x80], Ok((3, 5))),
        (&[0xff, 0xff, 0xff, 0xff, 0x0f], Ok((u32::MAX, 5))),
        (&GO_ON[..0], Err(LebFault::Ends)),
        (&GO_ON[..1], Err(LebFault::Ends)),
        (&GO_ON[..4], Err(LebFault::Ends)),
        (&GO_ON[..5], Err(LebFault::TooLong)),
        (&GO_ON[..6], Err(LebFault::TooLong)),
        (
            &[0x83, 0x80, 0x80, 0x80, 0x80, 0x00],
            Err(LebFault::TooLong),
        ),
        (&[0x80, 0x80, 0x80, 0x80, 0x10], Err(LebFault::Unused)),
        (&[0x80, 0x80, 0x80, 0x80, 0x40], Err(LebFault::Unused)),
        (&[0xff, 0xff, 0xff, 0xff, 0x1f], Err(LebFault::Unused)),
    ];
    for (bytes, answer) in rows {
        assert_eq!(rt; read_u32(bytes, 0, bytes.len()), answer);
    }
    Ok(())
}

#[test]
fn signed_numbers(rt: HostRuntime) -> Result<(), Fail> {
    let rows: [(&[u8], Result<(i32, usize), LebFault>); 13] = [
        (&[0x7e], Ok((-2, 1))),
        (&[0xfe, 0x7f], Ok((-2, 2))),
        (&[0xfe, 0xff, 0x7f], Ok((-2, 3))),
        (&[0xfe, 0xff, 0xff, 0x7f], Ok((-2, 4))),
        (&[0xfe, 0xff, 0xff, 0xff, 0x7f, 0x00], Ok((-2, 5))),
        (&[0xff, 0xff, 0xff, 0xff, 0x07], Ok((i32::MAX, 5))),
        (&[0x80, 0x80, 0x80, 0x80, 0x78], Ok((i32::MIN, 5))),
        (&GO_ON[..4], Err(LebFault::Ends)),
        (&GO_ON[..5], Err(LebFault::TooLong)),
        (&[0x80, 0x80, 0x80, 0x80, 0x08], Err(LebFault::Unused)),
        (&[0x80, 0x80, 0x80, 0x80, 0x10], Err(LebFault::Unused)),
        (&[0xff, 0xff, 0xff, 0xff, 0x77], Err(LebFault::Unused)),
        (&[0xff, 0xff, 0xff, 0xff, 0x3f], Err(LebFault::Unused)),
    ];
    for (bytes, answer) in rows {
        assert_eq!(rt; read_s32(bytes, 0, bytes.len()), answer);
    }
    Ok(())
}

#[test]
fn signed_numbers_of_64_bits(rt: HostRuntime) -> Result<(), Fail> {
    let mut bytes = [0xff; 10];
    for (last, answer) in [
        (0x00, Ok((i64::MAX, 10))),
        (0x7f, Ok((-1, 10))),
        (0x01, Err(LebFault::Unused)),
        (0x40, Err(LebFault::Unused)),
        (0x7e, Err(LebFault::Unused)),
        (0x80, Err(LebFault::TooLong)),
    ] {
        bytes[9] = last;
        assert_eq!(rt; read_s64(&bytes, 0, 10), answer);
    }
    for end in 0..10 {
        assert_eq!(rt; read_s64(&GO_ON, 0, end), Err(LebFault::Ends));
    }
    assert_eq!(rt; read_s64(&GO_ON, 0, 11), Err(LebFault::TooLong));
    Ok(())
}

#[test]
fn only_the_window_is_read(rt: HostRuntime) -> Result<(), Fail> {
    let bytes = [0x09, 0xe5, 0x8e, 0x26, 0x07];
    let read = [
        read_u32(&bytes, 1, 5),
        read_u32(&bytes, 1, 4),
        read_u32(&bytes, 1, 3),
        read_u32(&bytes, 5, 5),
    ];
    let ends = Err(LebFault::Ends);
    assert_eq!(rt; read, [Ok((624_485, 4)), Ok((624_485, 4)), ends, ends]);
    Ok(())
}
