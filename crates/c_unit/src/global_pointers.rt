// The pointers to imported globals.
ghost use Rattle.std.specs.Prelude.{◌≡◌, map, IfOk};
ghost use Rattle.c_symbols.specs.Symbols.{global_imports};
ghost use Rattle.c_unit.specs.Pointers.{pointed};

use c_symbols::pointer_type;
use c_tree::CType;
use std::alloc::Global;
use w2c_base::Memory;
use wasm_tree::{ImportKind, Module};

/// Their types, in the order of the globals.
pub(crate) fn global_pointers(alloc: Global, m: &Module) -> Result<Vec<CType>, Memory>
    ensures { IfOk result (λ types. types.items ≡ map (pointed m.now) (global_imports m.now)) }
{
    let mut types: Vec<CType> = Vec::new(alloc);
    for import in m.imports.as_slice() {
        if let ImportKind::Global(ty, _) = import.kind {
            types.push(pointer_type(ty))?;
        }
    }
    Ok(types)
}
