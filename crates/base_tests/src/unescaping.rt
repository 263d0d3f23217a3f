// Names that are read back from escaped texts.
use std::test::Fail;
use w2c_mangle::{UnescapeFault, escape, unescape};

#[test]
fn each_byte_is_read_back(rt: HostRuntime) -> Result<(), Fail> {
    let alloc = rt.alloc();
    for byte in 0..=255u8 {
        let text = escape(alloc, &[byte])?;
        let name = unescape(alloc, text.as_slice())?;
        assert_eq!(rt; name.as_slice(), [byte].as_slice());
    }
    Ok(())
}

#[test]
fn empty_and_long_names_are_read_back(rt: HostRuntime) -> Result<(), Fail> {
    let alloc = rt.alloc();
    let text = escape(alloc, b"")?;
    let name = unescape(alloc, text.as_slice())?;
    assert!(rt; name.len() == 0);
    let text = escape(alloc, [b'Z'; 1024].as_slice())?;
    assert!(rt; text.len() == 3072);
    let name = unescape(alloc, text.as_slice())?;
    assert_eq!(rt; name.as_slice(), [b'Z'; 1024].as_slice());
    Ok(())
}

#[test]
fn other_texts_are_not_escaped(rt: HostRuntime) {
    let texts = ["aZ2", "Z", "aZ2a", "Z41", "Z5F", " ", "a-b", "Z_i"];
    for text in texts {
        let fault = unescape(rt.alloc(), text.as_bytes()).err();
        assert_eq!(rt; fault, Some(UnescapeFault::NotEscaped), "{text}");
    }
}
