// Names as words.
ghost use Rattle.std.specs.Prelude.{◌≡◌, List, ℕ, IfOk, IfSome, IfNone};
ghost use Rattle.crun_lines.specs.Words.{name_text};
ghost use Rattle.journal_lines.specs.Lines.{IsBytes};

use std::alloc::Global;
use w2c_base::{Bytes, Memory};
use w2c_mangle::{UnescapeFault, unescape};

/// The name that a word is the escape of: `Z` is the empty name.
pub(crate) fn name_of(alloc: Global, word: &[u8]) -> Result<Option<Bytes>, Memory>
    ensures some { IfOk result (λ found. IfSome found (λ name. IsBytes name × (name_text name ≡ word.now))) }
    ensures none { IfOk result (λ found. IfNone found ((name : List ℕ) → IsBytes name → name_text name ≡ word.now → ⊥)) }
{
    if word == b"Z".as_slice() {
        return Ok(Some(Bytes::new(alloc)));
    }
    if word.is_empty() {
        return Ok(None);
    }
    match unescape(alloc, word) {
        Ok(name) => Ok(Some(name)),
        Err(UnescapeFault::NotEscaped) => Ok(None),
        Err(UnescapeFault::Memory) => Err(Memory),
    }
}
