// The functions that items declare and define for all units, and their types.
ghost use Rattle.std.specs.Prelude.{◌≡◌, if◌then◌else◌, is_some, map, IfOk, Some, None, option_copied, option_map};
ghost use Rattle.c_tree.specs.View.{func_of, func_type_of, item_of};
ghost use Rattle.c_tree.specs.Runtime.{same_func_type, same_types};
ghost use Rattle.c_tree.specs.Scope.{func_type_of as type_of_func};
ghost use Rattle.c_link.specs.Offers.{defined_func, external_func};

use c_rules::same_type;
use c_tree::{CFuncType, CType, CTypes, Func, Item, Name, Params};
use std::alloc::Global;
use w2c_base::Memory;

/// The function of external linkage that an item declares.
pub fn external_function(item: &Item) -> Option<&Func>
    ensures { option_map func_of (option_copied result) ≡ external_func (item_of item.now) }
{
    match item {
        Item::Func(f) => { if f.is_static { None } else { Some(f) } }
        Item::Array(_, _, _) | Item::Var(_, _, _) => None,
    }
}

/// The function of external linkage that an item defines.
pub fn defined_function(item: &Item) -> Option<&Func>
    ensures { option_map func_of (option_copied result) ≡ defined_func (item_of item.now) }
{
    match external_function(item) {
        Some(f) => with_body(f),
        None => None,
    }
}

fn with_body(f: &Func) -> Option<&Func>
    ensures { option_map func_of (option_copied result) ≡ (if is_some (func_of f.now).body then Some (func_of f.now) else None) }
{
    if f.body.is_some() { Some(f) } else { None }
}

/// The type of a function.
pub fn function_type(alloc: Global, func: &Func) -> Result<CFuncType, Memory>
    ensures { IfOk result (λ ty. func_type_of ty ≡ type_of_func (func_of func.now)) }
{
    Ok(CFuncType {
        params: parameter_types(alloc, &func.params)?,
        result: func.result,
    })
}

fn parameter_types(alloc: Global, params: &Params) -> Result<CTypes, Memory>
    ensures { IfOk result (λ types. types ≡ map (λ p. p.0) params.now) }
{
    let mut types = CTypes::new(alloc);
    for param in params.as_slice() {
        types.push(param.0)?;
    }
    Ok(types)
}

/// Whether a function has a type.
pub fn has_type(ty: &CFuncType, func: &Func) -> bool
    ensures { result ≡ same_func_type (func_type_of ty.now) (type_of_func (func_of func.now)) }
{
    have_types(ty.params.as_slice(), func.params.as_slice()) && same_type(ty.result, func.result)
}

fn have_types(types: &[CType], params: &[(CType, Option<Name>)]) -> bool
    ensures { result ≡ same_types types.now (map (λ p. p.0) params.now) }
{
    if types.len() != params.len() {
        return false;
    }
    for i in 0..types.len() {
        if !same_type(types[i], params[i].0) {
            return false;
        }
    }
    true
}
