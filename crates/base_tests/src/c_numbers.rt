// Values of numbers of C.
use c_lex::value;
use std::test::Fail;

#[test]
fn values(rt: HostRuntime) -> Result<(), Fail> {
    let numbers = [
        value(b"042"),
        value(b"18446744073709551615"),
        value(b"18446744073709551616"),
    ];
    assert_eq!(rt; numbers, [Some(42), Some(18_446_744_073_709_551_615), None]);
    Ok(())
}
