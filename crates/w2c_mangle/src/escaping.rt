// A name is escaped into letters, digits and _. Z begins the escape of any other byte.
ghost use Rattle.std.specs.Prelude.{◌≡◌, ℕ, ◌<◌, List, ◌++◌, OnOk, IfOk};
ghost use Rattle.w2c_mangle.specs.Escaping.{stays, hexadecimal_digit, escaped_byte, escaped};

use std::alloc::Global;
use w2c_base::{Bytes, Memory};

/// A name with letters other than `Z`, digits and `_` as they are. Any other byte is `Z` and its
/// two upper-case hexadecimal digits.
pub fn escape(alloc: Global, name: &[u8]) -> Result<Bytes, Memory>
    ensures { IfOk result (λ text. text ≡ escaped name.now) }
{
    let mut text = Bytes::new(alloc);
    put_escaped(&mut text, name)?;
    Ok(text)
}

/// Puts an escaped name at the end of a text.
pub(crate) fn put_escaped(text: &mut Bytes, name: &[u8]) -> Result<(), Memory>
    ensures { OnOk result (text.new ≡ text.old ++ escaped name.now) }
{
    for byte in name {
        put_escaped_byte(text, *byte)?;
    }
    Ok(())
}

fn put_escaped_byte(text: &mut Bytes, byte: u8) -> Result<(), Memory>
    ensures { OnOk result (text.new ≡ text.old ++ escaped_byte byte) }
{
    if stays(byte) {
        text.push(byte)
    } else {
        text.extend(&[
            b'Z',
            hexadecimal_digit(byte / 16),
            hexadecimal_digit(byte % 16),
        ])
    }
}

pub(crate) fn stays(byte: u8) -> bool
    ensures { result ≡ stays byte }
{
    byte.is_ascii_alphanumeric() && byte != b'Z' || byte == b'_'
}

fn hexadecimal_digit(digit: u8) -> u8
    requires { digit < 16 }
    ensures { result ≡ hexadecimal_digit digit }
{
    if digit < 10 {
        b'0' + digit
    } else {
        b'A' + (digit - 10)
    }
}

/// The law that distinct names have distinct escapes.
pub fn equal_escapes_have_equal_names()
    ensures { (m n : List ℕ) → escaped m ≡ escaped n → m ≡ n }
{}
