// The names of a unit's own memory, table, globals and functions, and of the pointers to what it imports.
ghost use Rattle.std.specs.Prelude.{◌≡◌, ◌++◌, codes, IfOk};
ghost use Rattle.c_tree.specs.DefinedNames.{func_name as func_name_of, global_name as global_name_of, pointer_name as pointer_name_of};

use c_tree::{Name, with_number};
use std::alloc::Global;
use w2c_base::Memory;

/// The name of the unit's memory.
pub const MEMORY_NAME: &[u8] = b"m0";

/// The name of the unit's table.
pub const TABLE_NAME: &[u8] = b"t0";

/// The name of the pointer to an imported memory, table or global, which would have this name if it were the unit's own.
pub fn pointer_name(alloc: Global, object: &[u8]) -> Result<Name, Memory>
    ensures { IfOk result (λ name. name ≡ codes "p" ++ object.now) }
{
    let name = Name::joined(alloc, b"p", object)?;
    Ok(name)
}

/// The name of the function with an index.
pub fn func_name(alloc: Global, index: u32) -> Result<Name, Memory>
    ensures { IfOk result (λ name. name ≡ func_name_of index) }
{
    with_number(alloc, b"f", index as usize)
}

/// The name of the global with an index.
pub fn global_name(alloc: Global, index: usize) -> Result<Name, Memory>
    ensures { IfOk result (λ name. name ≡ global_name_of index) }
{
    with_number(alloc, b"g", index)
}

/// The name of the pointer to the imported global with an index.
pub fn pointer_to_global(alloc: Global, index: usize) -> Result<Name, Memory>
    ensures { IfOk result (λ name. name ≡ pointer_name_of (global_name_of index)) }
{
    with_number(alloc, b"pg", index)
}
