// Numbers as words.
ghost use Rattle.std.specs.Prelude.{◌≡◌, ◌<◌, ◌^◌, ℕ, IfSome, IfNone};
ghost use Rattle.std.specs.Fmt.{decimal};

use itoa::Buffer;
use std::str::from_utf8;

/// The number below 2^64 that a word is in decimal digits, without leading zeros.
pub(crate) fn number(word: &[u8]) -> Option<u64>
    ensures some { IfSome result (λ n. decimal n ≡ word.now) }
    ensures none { IfNone result ((n : ℕ) → n < 2 ^ 64 → decimal n ≡ word.now → ⊥) }
{
    let Some(number) = value(word) else {
        return None;
    };
    let mut buffer = Buffer::new();
    if buffer.format(number).as_bytes() == word {
        Some(number)
    } else {
        None
    }
}

// The number that a word writes, with leading zeros or without.
fn value(word: &[u8]) -> Option<u64>
    ensures some { IfSome result (λ m. (n : ℕ) → n < 2 ^ 64 → decimal n ≡ word.now → m ≡ n) }
    ensures none { IfNone result ((n : ℕ) → n < 2 ^ 64 → decimal n ≡ word.now → ⊥) }
{
    match from_utf8(word) {
        Ok(text) => text_value(text),
        Err(_) => None,
    }
}

fn text_value(text: &str) -> Option<u64>
    ensures some { IfSome result (λ m. (n : ℕ) → n < 2 ^ 64 → decimal n ≡ text.now → m ≡ n) }
    ensures none { IfNone result ((n : ℕ) → n < 2 ^ 64 → decimal n ≡ text.now → ⊥) }
{
    match text.parse::<u64>() {
        Ok(value) => Some(value),
        Err(_) => None,
    }
}
