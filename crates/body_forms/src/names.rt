// The names of a translated function's operands and locals.
ghost use Rattle.std.specs.Prelude.{◌≡◌, IfOk};
ghost use Rattle.body_forms.specs.Names as names;

use c_tree::{Name, with_number};
use std::alloc::Global;
use w2c_base::{Memory, ValType};

/// The variable of the operand at a height.
pub fn slot(alloc: Global, ty: ValType, height: usize) -> Result<Name, Memory>
    ensures { IfOk result (λ name. name ≡ names.slot ty height) }
{
    match ty {
        ValType::I32 => with_number(alloc, b"i", height),
        ValType::I64 => with_number(alloc, b"j", height),
    }
}

/// The variable of the local with an index.
pub fn local_name(alloc: Global, index: usize) -> Result<Name, Memory>
    ensures { IfOk result (λ name. name ≡ names.local_name index) }
{
    with_number(alloc, b"l", index)
}
