// Accepts the bytes of modules, in order.
ghost use Rattle.std.specs.Prelude.{◌≡◌, ◌<◌, ◌≤◌, length, IfOk, IfErr};
ghost use Rattle.std.specs.List.{AllByRecursion};
ghost use Rattle.w2c_files.specs.Words.{names_of};
ghost use Rattle.wasm_tree.specs.Bytes.{AreBytes};
ghost use Rattle.wasm_tree.specs.Limits.{most_module_bytes};
ghost use Rattle.wasm_typing.specs.Verdict.{Accepted};
ghost use Rattle.wasm_valid.specs.FileVerdict.{Read, IsVerdictOn};
ghost use Rattle.wasm2c_cli.specs.Parts.{AreTaken, StopsAccepting, StopsAtRefused};
ghost use Rattle.w2c_sim.specs.Refusals.{IsRefusal};

use crate::reading::named;
use crate::stop::{Reason, Stop};
use std::alloc::Global;
use w2c_base::Bytes;
use w2c_sim::{Refusal, accept};
use wasm_typing::ValidModule;

/// The module that the bytes of each file spell. It stops at the first file that is refused.
pub fn accept_modules(
    alloc: Global,
    inputs: &[&str],
    sources: &[Bytes],
) -> Result<Vec<ValidModule>, Stop>
    requires many { length sources.now ≡ length inputs.now }
    requires fit { AllByRecursion (λ bytes. length bytes ≤ most_module_bytes) sources.now }
    ensures taken { IfOk result (λ modules. AreTaken sources.now modules.items) }
    ensures stop { IfErr result (StopsAccepting (names_of inputs.now) sources.now) }
{
    let mut modules = Vec::new(alloc);
    for k in 0..sources.len() {
        match accept_one(alloc, sources[k].as_slice()) {
            Ok(module) => modules.push(module)?,
            Err(refusal) => return Err(stop_for(alloc, refusal, inputs, k)),
        }
    }
    Ok(modules)
}

// Why the work stops at the file with a number, which is refused.
fn stop_for(alloc: Global, refusal: Refusal, inputs: &[&str], k: usize) -> Stop
    requires { k < length inputs.now }
    ensures { StopsAtRefused refusal (names_of inputs.now) k result }
{
    let Some(reason) = Reason::of(refusal) else {
        return Stop::Memory;
    };
    match named(alloc, inputs, k) {
        Ok(name) => Stop::Refused(name, reason),
        Err(_) => Stop::Memory,
    }
}

// The module that bytes spell.
fn accept_one(alloc: Global, bytes: &[u8]) -> Result<ValidModule, Refusal>
    requires { length bytes.now ≤ most_module_bytes }
    ensures bytes { AreBytes bytes.now }
    ensures accepted { IfOk result (λ m. IsVerdictOn bytes.now (Read m Accepted)) }
    ensures refused { IfErr result (IsRefusal bytes.now) }
{
    accept(alloc, bytes)
}
