// Which names are symbols of init functions.
ghost use Rattle.std.specs.Prelude.{◌≡◌, ◌≢◌, ◌↔◌, ◌≤◌, ◌++◌, ℕ, List, length, IfOk, IsTrue, MatchOption};
ghost use Rattle.c_meaning.specs.Linking.{is_init_symbol as is_symbol};
ghost use Rattle.crun_startup.specs.Inits.{init_symbol_around};

use std::alloc::Global;
use w2c_base::{Memory, NAME_LENGTH};
use w2c_mangle::{UnescapeFault, unescape};

/// Whether a name is the symbol of some module's init function.
pub fn is_init_symbol(alloc: Global, name: &[u8]) -> Result<bool, Memory>
    ensures { IfOk result (λ b. b ≡ is_symbol name.now) }
{
    match escaped_module(name) {
        Some(text) => is_module_escape(alloc, text),
        None => Ok(false),
    }
}

// What stands between w2cZ_ and Z_i.
fn escaped_module(name: &[u8]) -> Option<&[u8]>
    ensures { MatchOption result ((text : List ℕ) → name.now ≢ init_symbol_around text)
        (λ text. name.now ≡ init_symbol_around text.now) }
{
    in_front_of(behind(name, b"w2cZ_")?, b"Z_i")
}

fn behind<'a>(text: &'a [u8], front: &[u8]) -> Option<&'a [u8]>
    ensures { MatchOption result ((rest : List ℕ) → text.now ≢ front.now ++ rest) (λ rest. text.now ≡ front.now ++ rest.now) }
{
    text.strip_prefix(front)
}

fn in_front_of<'a>(text: &'a [u8], end: &[u8]) -> Option<&'a [u8]>
    ensures { MatchOption result ((rest : List ℕ) → text.now ≢ rest ++ end.now) (λ rest. text.now ≡ rest.now ++ end.now) }
{
    text.strip_suffix(end)
}

// Whether a text is the escape of a module's name.
fn is_module_escape(alloc: Global, text: &[u8]) -> Result<bool, Memory>
    ensures { IfOk result (λ b. b ≡ is_symbol (init_symbol_around text.now)) }
{
    match unescape(alloc, text) {
        Ok(name) => Ok(is_module_name(name.as_slice())),
        Err(UnescapeFault::NotEscaped) => Ok(false),
        Err(UnescapeFault::Memory) => Err(Memory),
    }
}

// Whether a name has as many bytes as modules' names have.
fn is_module_name(name: &[u8]) -> bool
    ensures { IsTrue result ↔ (1 ≤ length name.now) × (length name.now ≤ 1024) }
{
    !name.is_empty() && name.len() <= NAME_LENGTH as usize
}
