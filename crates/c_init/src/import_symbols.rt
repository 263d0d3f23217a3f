// The symbols of the imported functions.
ghost use Rattle.std.specs.Prelude.{◌≡◌, ◌++◌, map, IfOk, OnOk};
ghost use Rattle.wasm_tree.specs.IndexSpaces.{is_func_import};
ghost use Rattle.c_symbols.specs.Symbols.{func_imports, import_symbol};
ghost use Rattle.c_symbols.specs.Usable.{if_kind};

use c_symbols::Symbols;
use c_tree::Name;
use std::alloc::Global;
use w2c_base::Memory;
use wasm_tree::{Import, ImportKind};

/// The symbols of a module's imported functions in order, whether they may be used or not. Its one error is want of memory.
pub(crate) fn func_symbols(alloc: Global, symbols: &Symbols) -> Result<Vec<Name>, Memory>
    ensures { IfOk result (λ names. names.items ≡ map import_symbol (func_imports symbols.now.indexes.tree.now)) }
{
    let mut names: Vec<Name> = Vec::new(alloc);
    let spaces = symbols.indexes();
    let imports = spaces.tree().imports.as_slice();
    for (place, import) in imports.iter().enumerate() {
        put_func(alloc, &mut names, import, &symbols.imported(place).name)?;
    }
    Ok(names)
}

fn put_func(
    alloc: Global,
    names: &mut Vec<Name>,
    import: &Import,
    name: &Name,
) -> Result<(), Memory>
    ensures { OnOk result (names.new.items ≡ names.old.items ++ if_kind is_func_import import.now name.now) }
{
    match import.kind {
        ImportKind::Func(_) => names.push(name.copy(alloc)?)?,
        ImportKind::Table(_) => {}
        ImportKind::Memory(_) => {}
        ImportKind::Global(_, _) => {}
    }
    Ok(())
}
