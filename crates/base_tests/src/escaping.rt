// Names that are escaped.
use std::test::Fail;
use w2c_base::{Bytes, Memory};
use w2c_mangle::escape;

fn is_text(escaped: Result<Bytes, Memory>, text: &[u8]) -> Result<bool, Memory> {
    let escaped = escaped?;
    Ok(escaped.as_slice() == text)
}

#[test]
fn letters_digits_and_underscore_stay(rt: HostRuntime) -> Result<(), Fail> {
    let escaped = escape(rt.alloc(), b"AYZayz09_ -.\x00\x7F\x80\xFF");
    assert!(rt; is_text(escaped, b"AYZ5Aayz09_Z20Z2DZ2EZ00Z7FZ80ZFF")?);
    assert!(rt; is_text(escape(rt.alloc(), b""), b"")?);
    Ok(())
}
