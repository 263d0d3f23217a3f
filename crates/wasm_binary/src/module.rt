// A module's bytes (WebAssembly Core 1.0, 5.5.15).
ghost use Rattle.std.specs.Prelude.{◌≡◌, ◌≤◌, ◌≢◌, length, IfOk, Result, Ok, Err};
ghost use Rattle.wasm_tree.specs.declared.tree.Module.{Module as Tree};
ghost use Rattle.wasm_spelling.specs.declared.fault.ReadFault.{ReadFault as Fault};
ghost use Rattle.wasm_spelling.specs.declared.fault.ReadFault.TheVariants.{Memory as memory_wanted};
ghost use Rattle.wasm_spelling.specs.ModuleFields.{Spells};
ghost use Rattle.wasm_spelling.specs.Places.{IsFormed};
ghost use Rattle.wasm_spelling.specs.At.{At};
ghost use Rattle.wasm_spelling.specs.Table.{Upto};
ghost use Rattle.wasm_spelling.specs.Reading.{magic_at, version_at, file_at, no_module};
ghost use Rattle.wasm_binary.specs.View.{Gives, at, value_in, UnlessMemory};

use crate::fields::exactly;
use crate::rest::{Counts, Rest};
use crate::sections::sections;
use std::alloc::Global;
use w2c_base::Sequence;
use wasm_spelling::{Cause, ReadFault};
use wasm_tree::Module;

#[tactic(auto, unfolding(wasm_spelling::specs::Steps::reads, wasm_spelling::specs::Reading::magic_at))]
fn magic(rest: Rest) -> Result<Rest, ReadFault>
    ensures { Gives (λ x. (tt, at x)) result (magic_at (at rest.entry)) }
{
    let rest = exactly(0x00, Cause::BadMagic, rest)?;
    let rest = exactly(0x61, Cause::BadMagic, rest)?;
    let rest = exactly(0x73, Cause::BadMagic, rest)?;
    exactly(0x6d, Cause::BadMagic, rest)
}

#[tactic(auto, unfolding(wasm_spelling::specs::Steps::reads, wasm_spelling::specs::Reading::version_at))]
fn version(rest: Rest) -> Result<Rest, ReadFault>
    ensures { Gives (λ x. (tt, at x)) result (version_at (at rest.entry)) }
{
    let rest = exactly(0x01, Cause::BadVersion, rest)?;
    let rest = exactly(0x00, Cause::BadVersion, rest)?;
    let rest = exactly(0x00, Cause::BadVersion, rest)?;
    exactly(0x00, Cause::BadVersion, rest)
}

fn empty(alloc: Global) -> Module
    ensures { result ≡ no_module }
{
    Module {
        types: Sequence::new(alloc),
        imports: Sequence::new(alloc),
        funcs: Sequence::new(alloc),
        tables: Sequence::new(alloc),
        memories: Sequence::new(alloc),
        globals: Sequence::new(alloc),
        exports: Sequence::new(alloc),
        start: None,
        elements: Sequence::new(alloc),
        data_count: None,
        segments: Sequence::new(alloc),
        bodies: Sequence::new(alloc),
    }
}

/// What was read into, unless there is a fault.
fn filled<T: Drop>(value: T, read: Result<Rest, ReadFault>) -> Result<T, ReadFault>
    ensures { (given : Result (T × At) Fault) → Gives (λ x. (value, at x)) read.entry given → Gives (λ x. x) result (value_in given) }
{
    match read {
        Ok(_) => Ok(value),
        Err(fault) => Err(fault),
    }
}

#[tactic(auto, unfolding(wasm_spelling::specs::Steps::reads, wasm_spelling::specs::Reading::module_at, wasm_spelling::specs::Reading::file_at))]
fn read_file(alloc: Global, bytes: &[u8]) -> Result<Module, ReadFault>
    requires { length bytes.now ≤ 8388608 }
    ensures { Gives (λ x. x) result (file_at bytes.now) }
{
    let start = Rest {
        place: 0,
        left: bytes,
        counts: Counts {
            last_rank: 0,
            functions: 0,
            code_read: false,
            data_count: None,
            data_read: false,
            locals: 0,
            all_locals: 0,
        },
    };
    let rest = magic(start)?;
    let rest = version(rest)?;
    let mut module = empty(alloc);
    let read = sections(alloc, &mut module, rest);
    filled(module, read)
}

/// The module that the bytes spell, all of the bytes.
///
/// # Errors
///
/// Where the bytes spell no module their first fault, with its place: `Malformed` with its cause,
/// `Float` at a floating-point type or instruction, `Limit` with the limit that is passed. `Memory`
/// where memory was wanting, which may come in any case.
pub fn read_module(alloc: Global, bytes: &[u8]) -> Result<Module, ReadFault>
    requires { length bytes.now ≤ 8388608 }
    // What is read is spelled so.
    ensures found { IfOk result (λ tree. Spells tree bytes.now) }
    // So it has a file.
    ensures formed { IfOk result IsFormed }
    // What is spelled so is read.
    ensures only { (tree : Tree) → Spells tree bytes.now → UnlessMemory result (Ok tree) }
    // A fault is the first one.
    ensures first { (fault : Fault) → fault ≢ memory_wanted → result ≡ Err fault → Upto bytes.now fault }
    // The first fault is given.
    ensures first_only { (fault : Fault) → Upto bytes.now fault → UnlessMemory result (Err fault) }
{
    read_file(alloc, bytes)
}
