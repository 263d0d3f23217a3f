// A line of the calls file.
ghost use Rattle.std.specs.Prelude.{◌≡◌, List, ℕ, IfOk, IfSome, IfNone};
ghost use Rattle.w2c_files.specs.Words.{names_of};
ghost use Rattle.w2c_mangle.specs.Escaping.{escaped};
ghost use Rattle.crun_words.specs.CallLine.{word_of_name, AreNumbers, Call, IsBytes, IsSymbolOf, SayCall, SaysCall};
ghost use Rattle.crun_words.specs.Seen.{seen_call};

use crate::numbers::number;
use crate::parts::{part_at, parts};
use std::alloc::Global;
use w2c_base::{Bytes, Memory, Sequence};
use w2c_mangle::{SymbolKind, UnescapeFault, export_symbol, unescape};

/// What a line says: the symbol of a function, and the numbers that it is called with.
#[derive(Drop)]
pub struct CallLine {
    pub symbol: Bytes,
    pub numbers: Sequence<u64>,
}

/// The call that a line says by its words, with one space between them: a module's name, escaped; an export's, escaped, or
/// `Z` for the empty name; and numbers, each of 1 to 20 decimal digits and below 2^64. None exactly where it says none.
/// Whether a unit defines the symbol, and whether its parameters take the numbers, is not asked.
pub fn call_line(alloc: Global, line: &[u8]) -> Result<Option<CallLine>, Memory>
    ensures some { IfOk result (λ found. IfSome found (λ call. SaysCall line.now (seen_call call))) }
    ensures none { IfOk result (λ found. IfNone found ((call : Call) → SaysCall line.now call → ⊥)) }
{
    let words = parts(alloc, line, b' ')?;
    call_of_words(alloc, words.as_slice())
}

fn call_of_words(alloc: Global, words: &[&[u8]]) -> Result<Option<CallLine>, Memory>
    ensures some { IfOk result (λ found. IfSome found (λ call. SayCall (names_of words.now) (seen_call call))) }
    ensures none { IfOk result (λ found. IfNone found ((call : Call) → SayCall (names_of words.now) call → ⊥)) }
{
    let Some((module_word, rest)) = words.split_first() else {
        return Ok(None);
    };
    let Some((export_word, number_words)) = rest.split_first() else {
        return Ok(None);
    };
    let Some(symbol) = symbol_of(alloc, *module_word, *export_word)? else {
        return Ok(None);
    };
    let Some(numbers) = numbers_of(alloc, number_words)? else {
        return Ok(None);
    };
    Ok(Some(CallLine { symbol, numbers }))
}

// The symbol of the function that the words of a module and of an export name.
fn symbol_of(alloc: Global, module_word: &[u8], export_word: &[u8]) -> Result<Option<Bytes>, Memory>
    ensures some { IfOk result (λ found. IfSome found (IsSymbolOf module_word.now export_word.now)) }
    ensures none { IfOk result (λ found. IfNone found ((symbol : List ℕ) → IsSymbolOf module_word.now export_word.now symbol → ⊥)) }
{
    if module_word.is_empty() {
        return Ok(None);
    }
    let Some(module_name) = name_of(alloc, module_word)? else {
        return Ok(None);
    };
    let Some(export_name) = export_name_of(alloc, export_word)? else {
        return Ok(None);
    };
    let symbol = export_symbol(
        alloc,
        module_name.as_slice(),
        SymbolKind::Func,
        export_name.as_slice(),
    )?;
    Ok(Some(symbol))
}

// The name whose escape a word is.
fn name_of(alloc: Global, word: &[u8]) -> Result<Option<Bytes>, Memory>
    ensures some { IfOk result (λ found. IfSome found (λ name. escaped name ≡ word.now)) }
    ensures bytes { IfOk result (λ found. IfSome found IsBytes) }
    ensures none { IfOk result (λ found. IfNone found ((name : List ℕ) → IsBytes name → escaped name ≡ word.now → ⊥)) }
{
    match unescape(alloc, word) {
        Ok(name) => Ok(Some(name)),
        Err(UnescapeFault::NotEscaped) => Ok(None),
        Err(UnescapeFault::Memory) => Err(Memory),
    }
}

// The same for an export: `Z` is the empty name.
fn export_name_of(alloc: Global, word: &[u8]) -> Result<Option<Bytes>, Memory>
    ensures some { IfOk result (λ found. IfSome found (λ name. word_of_name name ≡ word.now)) }
    ensures bytes { IfOk result (λ found. IfSome found IsBytes) }
    ensures none { IfOk result (λ found. IfNone found ((name : List ℕ) → IsBytes name → word_of_name name ≡ word.now → ⊥)) }
{
    if word == b"Z".as_slice() {
        return Ok(Some(Bytes::new(alloc)));
    }
    if word.is_empty() {
        return Ok(None);
    }
    let found = name_of(alloc, word)?;
    Ok(found)
}

// The numbers that words write; None where one of them writes none.
fn numbers_of(alloc: Global, words: &[&[u8]]) -> Result<Option<Sequence<u64>>, Memory>
    ensures some { IfOk result (λ found. IfSome found (AreNumbers (names_of words.now))) }
    ensures none { IfOk result (λ found. IfNone found ((numbers : List ℕ) → AreNumbers (names_of words.now) numbers → ⊥)) }
{
    let mut numbers = Sequence::new(alloc);
    for k in 0..words.len() {
        let word = part_at(words, k);
        let Some(number) = number(word) else {
            return Ok(None);
        };
        numbers.push(number)?;
    }
    Ok(Some(numbers))
}
