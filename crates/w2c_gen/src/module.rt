// A generated module as a tree.
ghost use Rattle.std.specs.Prelude.{◌≡◌, ◌≤◌, [], ◌∷◌, IfOk, replicate};
ghost use Rattle.w2c_gen.specs.Generated.{generated, number_to_number, of_first_type, run_export};

use crate::functions::bodies;
use std::alloc::Global;
use w2c_base::{Bytes, FuncType, Memory, Sequence, Types, ValType};
use wasm_tree::{
    Export, ExportKind, Exports, FuncEntries, FuncEntry, Module, TypeEntries, TypeEntry,
};

fn types(alloc: Global) -> Result<TypeEntries, Memory>
    ensures { IfOk result (λ list. list ≡ number_to_number ∷ []) }
{
    let mut params = Types::new(alloc);
    params.push(ValType::I32)?;
    let ty = FuncType {
        params,
        result: Some(ValType::I32),
    };
    let mut list = TypeEntries::new(alloc);
    list.push(TypeEntry { place: 0, ty })?;
    Ok(list)
}

fn funcs(alloc: Global, n: u32) -> Result<FuncEntries, Memory>
    ensures { IfOk result (λ list. list ≡ replicate n of_first_type) }
{
    let entry = FuncEntry {
        type_index: 0,
        place: 0,
    };
    Ok(FuncEntries::from_vec(vec![in alloc; entry; n as usize]?))
}

fn exports(alloc: Global, index: u32) -> Result<Exports, Memory>
    ensures { IfOk result (λ list. list ≡ run_export index ∷ []) }
{
    let mut name = Bytes::new(alloc);
    name.extend(b"run")?;
    let mut list = Exports::new(alloc);
    list.push(Export {
        name,
        kind: ExportKind::Func,
        index,
        name_place: 0,
        index_place: 0,
    })?;
    Ok(list)
}

/// The module of n functions.
pub fn module_of(alloc: Global, n: u32) -> Result<Module, Memory>
    requires { 1 ≤ n }
    ensures { IfOk result (λ m. m ≡ generated n) }
{
    let types = types(alloc)?;
    let funcs = funcs(alloc, n)?;
    let exports = exports(alloc, n - 1)?;
    let bodies = bodies(alloc, n)?;
    Ok(Module {
        types,
        imports: Sequence::new(alloc),
        funcs,
        tables: Sequence::new(alloc),
        memories: Sequence::new(alloc),
        globals: Sequence::new(alloc),
        exports,
        start: None,
        elements: Sequence::new(alloc),
        data_count: None,
        segments: Sequence::new(alloc),
        bodies,
    })
}
