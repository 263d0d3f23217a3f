// Types as words.
ghost use Rattle.std.specs.Prelude.{◌≡◌, List, map, Option, IfOk, IfSome, IfNone};
ghost use Rattle.w2c_base.specs.declared.value.ValType.{ValType};
ghost use Rattle.crun_lines.specs.Views.{texts};
ghost use Rattle.journal_lines.specs.Lines.{result_text, type_text};

use crate::cuts::part_at;
use std::alloc::Global;
use w2c_base::{Memory, Types, ValType};

/// The types that words are, one for each.
pub(crate) fn types_of(alloc: Global, words: &[&[u8]]) -> Result<Option<Types>, Memory>
    ensures some { IfOk result (λ found. IfSome found (λ types. map type_text types ≡ texts words.now)) }
    ensures none { IfOk result (λ found. IfNone found ((types : List ValType) → map type_text types ≡ texts words.now → ⊥)) }
{
    let mut types = Types::new(alloc);
    for k in 0..words.len() {
        let word = part_at(words, k);
        let Some(ty) = type_of(word) else {
            return Ok(None);
        };
        types.push(ty)?;
    }
    Ok(Some(types))
}

fn type_of(word: &[u8]) -> Option<ValType>
    ensures some { IfSome result (λ t. type_text t ≡ word.now) }
    ensures none { IfNone result ((t : ValType) → type_text t ≡ word.now → ⊥) }
{
    if word == b"i32".as_slice() {
        Some(ValType::I32)
    } else if word == b"i64".as_slice() {
        Some(ValType::I64)
    } else {
        None
    }
}

/// The result type that a word is: `none` where there is no result.
pub(crate) fn result_of(word: &[u8]) -> Option<Option<ValType>>
    ensures some { IfSome result (λ t. result_text t ≡ word.now) }
    ensures none { IfNone result ((t : Option ValType) → result_text t ≡ word.now → ⊥) }
{
    if word == b"none".as_slice() {
        return Some(None);
    }
    match type_of(word) {
        Some(ty) => Some(Some(ty)),
        None => None,
    }
}
