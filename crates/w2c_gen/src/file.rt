// The file of a generated module.
ghost use Rattle.std.specs.Prelude.{◌≤◌, IfOk, length};
ghost use Rattle.wasm_tree.specs.Bytes.{AreBytes};
ghost use Rattle.w2c_gen.specs.Generated.{generated};
ghost use Rattle.w2c_gen.specs.GeneratedFile.{IsGeneratedFile, IsAcceptedAs};

use crate::module::module_of;
use std::alloc::Global;
use w2c_base::{Bytes, Memory};
use wasm_writing::write_module;

/// The file of the generated module of n functions, in time and memory that grow with n. It depends on the number alone
/// (`a_generated_module_has_one_file`).
///
/// # Errors
///
/// Where memory is wanting.
pub fn generate(alloc: Global, n: u32) -> Result<Bytes, Memory>
    requires some { 1 ≤ n }
    requires few { n ≤ 20000 }
    ensures file { IfOk result (IsGeneratedFile n) }
    // A reader gives the generated module, which is valid.
    ensures accepted { IfOk result (IsAcceptedAs (generated n)) }
    ensures small { IfOk result (λ bytes. length bytes ≤ 8388608) }
{
    let module = module_of(alloc, n)?;
    let bytes = write_module(alloc, &module)?;
    are_bytes(bytes.as_slice());
    Ok(bytes)
}

// The numbers of a slice are bytes, which is known of a parameter alone.
fn are_bytes(bytes: &[u8])
    ensures { AreBytes bytes.now }
{}
