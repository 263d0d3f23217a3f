// The types of the functions that a unit declares for symbols.
ghost use Rattle.std.specs.Prelude.{◌≡◌};
ghost use Rattle.std.specs.Option.{option_copied};
ghost use Rattle.c_tree.specs.Runtime.{same_types, same_func_type};
ghost use Rattle.c_tree.specs.TypesInC.{c_params_of};
ghost use Rattle.c_symbols.specs.Symbols.{c_func_type_if, accessor_type, pointer_type as pointer_type_of, global_kind as global_kind_of};
ghost use Rattle.c_symbols.specs.Typed.{type_of};

use c_tree::{CType, c_result};
use w2c_base::{FuncType, ValType};
use w2c_mangle::SymbolKind;

/// The type of a function: the value types of its parameters, and its result.
#[derive(Clone, Copy)]
pub struct SymbolType<'a> {
    pub params: &'a [ValType],
    pub result: CType,
}

/// The type of a function that may have none: then as if it had no parameters and no result.
pub(crate) fn func_symbol<'a>(ty: Option<&'a FuncType>) -> SymbolType<'a>
    ensures { type_of result ≡ c_func_type_if (option_copied ty.entry) }
{
    match ty {
        None => accessor(CType::Void),
        Some(ty) => SymbolType {
            params: ty.params.as_slice(),
            result: c_result(ty.result),
        },
    }
}

/// The type of a function without parameters.
pub fn accessor<'a>(pointer: CType) -> SymbolType<'a>
    ensures { type_of result ≡ accessor_type pointer }
{
    SymbolType {
        params: &[],
        result: pointer,
    }
}

/// The type of a pointer to a global.
pub fn pointer_type(ty: ValType) -> CType
    ensures { result ≡ pointer_type_of ty }
{
    match ty {
        ValType::I32 => CType::PtrU32,
        ValType::I64 => CType::PtrU64,
    }
}

/// The kind of a global's symbol.
pub fn global_kind(mutable: bool) -> SymbolKind
    ensures { result ≡ global_kind_of mutable }
{
    if mutable {
        SymbolKind::Var
    } else {
        SymbolKind::Const
    }
}

/// Whether two types are the same.
pub(crate) fn same(one: SymbolType, other: SymbolType) -> bool
    ensures { result ≡ same_func_type (type_of one.entry) (type_of other.entry) }
{
    same_params(one.params, other.params) && same_type(one.result, other.result)
}

fn same_type(one: CType, other: CType) -> bool
    ensures { result ≡ Rattle.c_tree.specs.Runtime.same_type one other }
{
    one == other
}

fn same_params(ones: &[ValType], others: &[ValType]) -> bool
    ensures { result ≡ same_types (c_params_of ones.now) (c_params_of others.now) }
{
    if ones.len() != others.len() {
        return false;
    }
    for i in 0..ones.len() {
        if ones[i] != others[i] {
            return false;
        }
    }
    true
}
