// Values and replies as words.
ghost use Rattle.std.specs.Prelude.{◌≡◌, ◌<◌, ◌^◌, ℕ, List, map, IfOk, IfSome, IfNone};
ghost use Rattle.std.specs.Fmt.{decimal};
ghost use Rattle.std.specs.List.{AllByRecursion};
ghost use Rattle.w2c_base.specs.declared.value.ValType.TheVariants as type;
ghost use Rattle.w2c_base.specs.declared.value.Value.{Value as AnyValue};
ghost use Rattle.w2c_base.specs.Values.{number_of, type_of, IsNumber};
ghost use Rattle.c_meaning.specs.declared.reply.HostReply.{HostReply as AnyReply};
ghost use Rattle.crun_lines.specs.HostLines.{reply_text};
ghost use Rattle.c_meaning.specs.Views.{reply_of as reply_seen};
ghost use Rattle.crun_lines.specs.Views.{texts};
ghost use Rattle.crun_lines.specs.Words.{number_text};
ghost use Rattle.journal_lines.specs.Lines.{IsGiven};

use crate::cuts::part_at;
use crate::number::number;
use crun_lines::HostReply;
use std::alloc::Global;
use w2c_base::{Memory, Value, Values};

/// The values that words are, one for each.
pub(crate) fn values_of(alloc: Global, words: &[&[u8]]) -> Result<Option<Values>, Memory>
    ensures some { IfOk result (λ found. IfSome found (λ vs. AllByRecursion IsNumber vs × (map number_text vs ≡ texts words.now))) }
    ensures none { IfOk result (λ found. IfNone found ((vs : List AnyValue) → AllByRecursion IsNumber vs → map number_text vs ≡ texts words.now → ⊥)) }
{
    let mut values = Values::new(alloc);
    for k in 0..words.len() {
        let word = part_at(words, k);
        let Some(value) = value_of(word) else {
            return Ok(None);
        };
        values.push(value)?;
    }
    Ok(Some(values))
}

// A value: its type, a colon, and its number without a sign and without leading zeros.
fn value_of(word: &[u8]) -> Option<Value>
    ensures some { IfSome result (λ v. IsNumber v × (number_text v ≡ word.now)) }
    ensures none { IfNone result ((v : AnyValue) → IsNumber v → number_text v ≡ word.now → ⊥) }
{
    match word {
        [b'i', b'3', b'2', b':', digits @ ..] => i32_of(digits),
        [b'i', b'6', b'4', b':', digits @ ..] => i64_of(digits),
        _ => None,
    }
}

fn i32_of(digits: &[u8]) -> Option<Value>
    ensures some { IfSome result (λ v. IsNumber v × (type_of v ≡ type.I32) × (decimal (number_of v) ≡ digits.now)) }
    ensures none { IfNone result ((n : ℕ) → n < 2 ^ 32 → decimal n ≡ digits.now → ⊥) }
{
    let Some(number) = number(digits) else {
        return None;
    };
    match u32::try_from(number) {
        Ok(number) => Some(Value::I32(number)),
        Err(_) => None,
    }
}

fn i64_of(digits: &[u8]) -> Option<Value>
    ensures some { IfSome result (λ v. IsNumber v × (type_of v ≡ type.I64) × (decimal (number_of v) ≡ digits.now)) }
    ensures none { IfNone result ((n : ℕ) → n < 2 ^ 64 → decimal n ≡ digits.now → ⊥) }
{
    match number(digits) {
        Some(number) => Some(Value::I64(number)),
        None => None,
    }
}

/// The reply that a word is.
pub(crate) fn reply_of(word: &[u8]) -> Option<HostReply>
    ensures some { IfSome result (λ r. IsGiven r × (reply_text (reply_seen r) ≡ word.now)) }
    ensures none { IfNone result ((r : AnyReply) → IsGiven r → reply_text (reply_seen r) ≡ word.now → ⊥) }
{
    if word == b"trap".as_slice() {
        return Some(HostReply::Trap);
    }
    if word == b"none".as_slice() {
        return Some(HostReply::Value(None));
    }
    match value_of(word) {
        Some(value) => Some(HostReply::Value(Some(value))),
        None => None,
    }
}
