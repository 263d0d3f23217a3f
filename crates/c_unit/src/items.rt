// The items of a unit, one at a time: objects, constant arrays, declarations, helpers and the functions of
// exports.
ghost use Rattle.std.specs.Prelude.{◌≡◌, ◌<◌, ◌∷◌, [], length, map, None, IfOk};
ghost use Rattle.std.specs.Option.{option_copied};
ghost use Rattle.w2c_base.specs.Lookup.{if_found};
ghost use Rattle.wasm_tree.specs.IndexSpaces.{type_in};
ghost use Rattle.c_tree.specs.Tree as tree;
ghost use Rattle.c_tree.specs.View.{item_of};
ghost use Rattle.c_tree.specs.TypesInC.{c_params_of, c_type_of};
ghost use Rattle.c_tree.specs.DefinedNames.{memory_name, table_name};
ghost use Rattle.body_definition.specs.Body.{body_of, defined_at, no_func};
ghost use Rattle.c_init.specs.Init.{data_name};
ghost use Rattle.unit_definition.specs.Items as of;
ghost use Rattle.c_symbols.specs.Named.{pair_of};
ghost use Rattle.c_unit.specs.Prototypes.{prototype_of, bare_params as bare_params_of};

use c_init::Source;
use c_symbols::{MEMORY_NAME, Symbol, TABLE_NAME, func_name};
use c_tree::{CType, Func, Item, Name, Params, c_result, c_type, name_of, no_params, with_number};
use std::alloc::Global;
use w2c_base::{FuncType, Memory, ValType};
use wasm_tree::{GlobalEntry, Module, SegmentEntry};

pub(crate) fn variable(ty: CType, name: Name) -> Item
    ensures { item_of result ≡ of.variable ty name }
{
    Item::Var(ty, name, None)
}

pub(crate) fn table(alloc: Global) -> Result<Item, Memory>
    ensures { IfOk result (λ item. item_of item ≡ of.variable CType.Tab table_name) }
{
    Ok(variable(CType::Tab, name_of(alloc, TABLE_NAME)?))
}

pub(crate) fn memory(alloc: Global) -> Result<Item, Memory>
    ensures { IfOk result (λ item. item_of item ≡ of.variable CType.Mem memory_name) }
{
    Ok(variable(CType::Mem, name_of(alloc, MEMORY_NAME)?))
}

/// The constant array of a segment with bytes.
pub(crate) fn array(alloc: Global, number: usize, segment: &SegmentEntry) -> Result<Item, Memory>
    ensures { IfOk result (λ item. item_of item ≡ tree.Array (data_name number) (length segment.now.bytes) segment.now.bytes) }
{
    let name = with_number(alloc, b"d", number)?;
    let bytes = segment.bytes.copy(alloc)?;
    Ok(Item::Array(name, bytes.len() as u64, bytes))
}

fn some_bare_params(alloc: Global, types: &[ValType]) -> Result<Params, Memory>
    ensures { IfOk result (λ params. params ≡ bare_params_of (map c_type_of types.now)) }
{
    let mut params = Params::new(alloc);
    for ty in types {
        params.push((c_type(*ty), None))?;
    }
    Ok(params)
}

// Parameters without names.
#[tactic(auto, using(c_tree::proofs::TypesInC::params_none, c_tree::proofs::TypesInC::params_there))]
fn bare_params(alloc: Global, types: &[ValType]) -> Result<Params, Memory>
    ensures { IfOk result (λ params. params ≡ bare_params_of (c_params_of types.now)) }
{
    if types.is_empty() {
        no_params(alloc)
    } else {
        some_bare_params(alloc, types)
    }
}

/// The declaration of a symbol.
pub(crate) fn declaration(alloc: Global, symbol: Symbol) -> Result<Item, Memory>
    ensures { IfOk result (λ item. item_of item ≡ of.declaration (pair_of symbol.entry)) }
{
    let params = bare_params(alloc, symbol.ty.params)?;
    Ok(Item::Func(Func {
        is_static: false,
        result: symbol.ty.result,
        name: symbol.name,
        params,
        body: None,
    }))
}

/// The declaration of the function with an index, which is defined further on: by its type, where it has one.
#[tactic(auto, using(crate::proofs::BareTypes::of_its_type, crate::proofs::BareTypes::of_no_type))]
pub(crate) fn prototype_if(
    alloc: Global,
    m: &Module,
    name: &[u8],
    index: u32,
    ty: Option<&FuncType>,
) -> Result<Item, Memory>
    requires { option_copied ty ≡ if_found (defined_at m.now index) (λ d. type_in m.now d.0.type_index) }
    ensures { IfOk result (λ item. item_of item ≡ of.prototype (body_of m.now name.now index)) }
{
    match ty {
        None => no_prototype(alloc),
        Some(ty) => prototype(alloc, index, ty),
    }
}

fn no_prototype(alloc: Global) -> Result<Item, Memory>
    ensures { IfOk result (λ item. item_of item ≡ of.prototype no_func) }
{
    Ok(Item::Func(Func {
        is_static: true,
        result: CType::Void,
        name: Name::new(alloc),
        params: Params::new(alloc),
        body: None,
    }))
}

fn prototype(alloc: Global, index: u32, ty: &FuncType) -> Result<Item, Memory>
    ensures { IfOk result (λ item. item_of item ≡ prototype_of index ty.now) }
{
    let name = func_name(alloc, index)?;
    let params = bare_params(alloc, ty.params.as_slice())?;
    Ok(Item::Func(Func {
        is_static: true,
        result: c_result(ty.result),
        name,
        params,
        body: None,
    }))
}

/// The variable of an own global.
pub(crate) fn global_item(
    source: &Source,
    number: usize,
    global: &GlobalEntry,
) -> Result<Item, Memory>
    requires { number < length source.now.tree.now.globals }
    ensures { IfOk result (λ item. item_of item ≡ of.global_item source.now.tree.now (number, global.now)) }
{
    Ok(variable(c_type(global.ty), source.own_global(number)?))
}
