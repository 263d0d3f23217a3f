// The verdict on the bytes of a file.
ghost use Rattle.std.specs.Prelude.{◌≡◌, ◌≢◌, ◌≤◌, length, Err, IfOk, IfErr, IsOk};
ghost use Rattle.wasm_tree.specs.declared.tree.Module.{Module as Tree};
ghost use Rattle.wasm_typing.specs.Verdict.{Accepted};
ghost use Rattle.wasm_valid.specs.FileVerdict.{Read, IsVerdictOn};
ghost use Rattle.w2c_sim.specs.declared.refusal.Refusal.{Refusal as AnyRefusal};
ghost use Rattle.w2c_sim.specs.declared.refusal.Refusal.TheVariants.{Memory as memory_wanted};
ghost use Rattle.w2c_sim.specs.Refusals.{IsRefusal, IsRefused};

use crate::refusal::Refusal;
use std::alloc::Global;
use wasm_binary::read_module;
use wasm_valid::{Check, ValidModule};

/// The module that bytes spell, where it is valid and within the limits. `write_unit` and `write_header` write its
/// texts.
///
/// # Errors
///
/// The verdict on the bytes where they spell no valid module within the limits: the first reading fault, or
/// the first fault of the typing rules. `Memory` where memory was wanting, which may come in any case.
pub fn accept(alloc: Global, bytes: &[u8]) -> Result<ValidModule, Refusal>
    requires { length bytes.now ≤ 8388608 }
    // What is given is the module that the bytes spell, and it is accepted.
    ensures found { IfOk result (λ m. IsVerdictOn bytes.now (Read m Accepted)) }
    // What is accepted is given.
    ensures accepted { (tree : Tree) → IsVerdictOn bytes.now (Read tree Accepted) → result ≢ Err memory_wanted → IsOk result }
    // A refusal is the verdict on the bytes.
    ensures refused { IfErr result (IsRefusal bytes.now) }
    // The verdict is given.
    ensures given { (refusal : AnyRefusal) → IsRefused bytes.now refusal → result ≢ Err memory_wanted → result ≡ Err refusal }
{
    valid_module(alloc, bytes)
}

fn valid_module(alloc: Global, bytes: &[u8]) -> Result<ValidModule, Refusal>
    requires { length bytes.now ≤ 8388608 }
    ensures found { IfOk result (λ m. IsVerdictOn bytes.now (Read m Accepted)) }
    ensures refused { IfErr result (IsRefusal bytes.now) }
{
    let tree = read_module(alloc, bytes)?;
    let module = ValidModule::check(alloc, tree)?;
    Ok(module)
}
