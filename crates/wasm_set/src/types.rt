// Types, and whether one is the other.
ghost use Rattle.std.specs.Prelude.{◌≡◌, true};
ghost use Rattle.std.specs.List.{list_all};
ghost use Rattle.std.specs.Option.{option_copied};
ghost use Rattle.w2c_base.specs.Values.{equal_type, equal_types, equal_results, equal_func_types, is_number};
ghost use Rattle.wasm_tree.specs.IndexSpaces.{type_in as type_by_index};
ghost use Rattle.wasm_set.specs.Offers.{are_one_type, equal_bool, is_func, is_global, is_of_kind};
ghost use Rattle.wasm_set.specs.Joining.{gives_if_any, offer_takes, takes};

use crate::offer::Offer;
use w2c_base::{FuncType, ValType, Value, are_of_types};
use wasm_tree::{Import, ImportKind, Module};

/// Whether what a module offers, if anything, is what an import of another asks for.
pub(crate) fn gives_if_any(from: &Module, offer: Option<Offer>, m: &Module, import: &Import) -> bool
    ensures { result ≡ gives_if_any from.now offer m.now import.now }
{
    match offer {
        None => false,
        Some(offer) => is_of_kind(from, offer, m, import.kind),
    }
}

/// Whether what a module offers, if anything, is a function whose type takes these values.
pub(crate) fn offer_takes(m: &Module, offer: Option<Offer>, args: &[Value]) -> bool
    ensures types { result ≡ offer_takes m.now offer args.now }
    ensures numbers { result ≡ true → list_all is_number args.now ≡ true }
{
    match offer {
        None => false,
        Some(Offer::Func(index)) => takes(type_in(m, index), args),
        Some(Offer::Table) => false,
        Some(Offer::Memory) => false,
        Some(Offer::Global(_, _)) => false,
    }
}

// Whether an offer of a module is of the kind and the type that an import of another asks for.
fn is_of_kind(from: &Module, offer: Offer, m: &Module, kind: ImportKind) -> bool
    ensures { result ≡ is_of_kind from.now offer m.now kind }
{
    match kind {
        ImportKind::Func(wanted) => is_func(from, offer, type_in(m, wanted)),
        ImportKind::Table(_) => matches!(offer, Offer::Table),
        ImportKind::Memory(_) => matches!(offer, Offer::Memory),
        ImportKind::Global(wanted, changes) => is_global(offer, wanted, changes),
    }
}

fn is_func(from: &Module, offer: Offer, wanted: Option<&FuncType>) -> bool
    ensures { result ≡ is_func from.now offer (option_copied wanted.entry) }
{
    match offer {
        Offer::Func(type_index) => are_one_type(type_in(from, type_index), wanted),
        Offer::Table => false,
        Offer::Memory => false,
        Offer::Global(_, _) => false,
    }
}

fn is_global(offer: Offer, wanted: ValType, changes: bool) -> bool
    ensures { result ≡ is_global offer wanted changes }
{
    match offer {
        Offer::Func(_) => false,
        Offer::Table => false,
        Offer::Memory => false,
        Offer::Global(ty, mutable) => same_type(ty, wanted) && same_bool(mutable, changes),
    }
}

// The type with an index.
fn type_in(m: &Module, index: u32) -> Option<&FuncType>
    ensures { option_copied result ≡ type_by_index m.now index }
{
    match m.types.as_slice().get(index as usize) {
        Some(entry) => Some(&entry.ty),
        None => None,
    }
}

fn are_one_type(left: Option<&FuncType>, right: Option<&FuncType>) -> bool
    ensures { result ≡ are_one_type (option_copied left.entry) (option_copied right.entry) }
{
    match left {
        None => match right {
            None => false,
            Some(_) => false,
        },
        Some(left) => match right {
            None => false,
            Some(right) => same_func_type(left, right),
        },
    }
}

fn same_func_type(left: &FuncType, right: &FuncType) -> bool
    ensures { result ≡ equal_func_types left.now right.now }
{
    same_types(left.params.as_slice(), right.params.as_slice())
        && same_result(left.result, right.result)
}

fn same_result(left: Option<ValType>, right: Option<ValType>) -> bool
    ensures { result ≡ equal_results left right }
{
    match left {
        None => right.is_none(),
        Some(left) => match right {
            None => false,
            Some(right) => same_type(left, right),
        },
    }
}

fn same_types(left: &[ValType], right: &[ValType]) -> bool
    ensures { result ≡ equal_types left.now right.now }
{
    if left.len() != right.len() {
        return false;
    }
    for i in 0..left.len() {
        if !same_type(left[i], right[i]) {
            return false;
        }
    }
    true
}

fn same_type(left: ValType, right: ValType) -> bool
    ensures { result ≡ equal_type left right }
{
    match left {
        ValType::I32 => right == ValType::I32,
        ValType::I64 => right == ValType::I64,
    }
}

fn same_bool(left: bool, right: bool) -> bool
    ensures { result ≡ equal_bool left right }
{
    left == right
}

// Whether a function's type, where there is one, takes these values: its parameters have their types.
fn takes(ty: Option<&FuncType>, args: &[Value]) -> bool
    ensures types { result ≡ takes (option_copied ty.entry) args.now }
    ensures numbers { result ≡ true → list_all is_number args.now ≡ true }
{
    match ty {
        None => false,
        Some(ty) => are_of_types(ty.params.as_slice(), args),
    }
}
