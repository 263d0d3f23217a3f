// An escaped name is read back, one escape of a byte at a time.
ghost use Rattle.std.specs.Prelude.{◌≡◌, ◌≢◌, ℕ, ◌+◌, ◌<◌, List, ◌++◌, length, All, IsErrOf, IfOk, IfSome, IfNone};
ghost use Rattle.w2c_mangle.specs.Escaping.{hexadecimal_digit, escaped_byte, escaped};

use crate::escaping::stays;
use std::alloc::Global;
use w2c_base::{Bytes, Memory};

/// Why a text has no name.
#[derive(Clone, Copy, Debug, PartialEq, Eq)]
pub enum UnescapeFault {
    /// The text is no name's escape.
    NotEscaped,
    /// An allocation failed.
    Memory,
}

impl From<Memory> for UnescapeFault {
    ghost use Rattle.w2c_mangle.specs.declared.unescaping.UnescapeFault.{UnescapeFault};

    ghost from_gives = { λ _ fault. fault ≡ UnescapeFault.Memory };

    fn from(_: Memory) -> Self {
        UnescapeFault::Memory
    }
}

/// The name whose escape is the text: there is one at most. NotEscaped exactly where there is none.
pub fn unescape(alloc: Global, text: &[u8]) -> Result<Bytes, UnescapeFault>
    ensures name { IfOk result (λ name. escaped name ≡ text.now) }
    ensures bytes { IfOk result (All (λ b. b < 256)) }
    ensures not_escaped { IsErrOf result UnescapeFault.NotEscaped →
        (name : List ℕ) → All (λ b. b < 256) name → escaped name ≢ text.now }
{
    let mut name = Bytes::new(alloc);
    let mut rest = text;
    while !rest.is_empty() {
        let Some((byte, after)) = split_first_escape(rest) else {
            return Err(UnescapeFault::NotEscaped);
        };
        name.push(byte)?;
        rest = after;
    }
    Ok(name)
}

/// The byte whose escape a text begins with, and the text after it.
fn split_first_escape(text: &[u8]) -> Option<(u8, &[u8])>
    ensures found { IfSome result (λ split. text.now ≡ escaped_byte split.0 ++ split.1.now) }
    ensures shorter { IfSome result (λ split. length split.1.now < length text.now) }
    ensures none { IfNone result ((byte : ℕ) → (after : List ℕ) → byte < 256 →
        escaped_byte byte ++ after ≢ text.now) }
{
    let (&first, after) = text.split_first()?;
    if stays(first) {
        return Some((first, after));
    }
    if first != b'Z' {
        return None;
    }
    let (&high, after) = after.split_first()?;
    let (&low, after) = after.split_first()?;
    let byte = 16 * hexadecimal_value(high)? + hexadecimal_value(low)?;
    if stays(byte) {
        None
    } else {
        Some((byte, after))
    }
}

/// The value below 16 that a hexadecimal digit writes.
fn hexadecimal_value(digit: u8) -> Option<u8>
    ensures found { IfSome result (λ value. hexadecimal_digit value ≡ digit) }
    ensures small { IfSome result (λ value. value < 16) }
    ensures none { IfNone result ((value : ℕ) → value < 16 → hexadecimal_digit value ≢ digit) }
{
    match digit {
        b'0'..=b'9' => Some(digit - b'0'),
        b'A'..=b'F' => Some(digit - b'A' + 10),
        _ => None,
    }
}
