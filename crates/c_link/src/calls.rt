// Which arguments a function of a type takes.
ghost use Rattle.std.specs.Prelude.{◌≡◌, ◌∷◌, [], map, true};
ghost use Rattle.std.specs.List.{list_all};
ghost use Rattle.w2c_base.specs.Values.{is_number, type_of, types_of};
ghost use Rattle.c_tree.specs.View.{func_type_of};
ghost use Rattle.c_tree.specs.Runtime.{same_type, same_types};
ghost use Rattle.c_tree.specs.TypesInC.{c_params_of, c_type_of};
ghost use Rattle.c_link.specs.Calls.{takes as takes_of};

use c_tree::{CFuncType, CType};
use w2c_base::Value;

/// Whether a function of a type may be called with these values: its parameters have their types,
/// and its result is void, u32 or u64.
pub fn takes(ty: &CFuncType, args: &[Value]) -> bool
    ensures { result ≡ takes_of (func_type_of ty.now) args.now }
{
    let has_result = matches!(ty.result, CType::Void | CType::U32 | CType::U64);
    are_params(ty.params.as_slice(), args) && has_result
}

fn are_params(params: &[CType], args: &[Value]) -> bool
    ensures types { result ≡ same_types params.now (c_params_of (types_of args.now)) }
    ensures numbers { result ≡ true → list_all is_number args.now ≡ true }
{
    if args.is_empty() {
        are_void(params)
    } else {
        are_types(params, args)
    }
}

// Whether a list of types is the list `void`, which stands for no parameters.
fn are_void(params: &[CType]) -> bool
    ensures { result ≡ same_types params.now (CType.Void ∷ []) }
{
    if params.len() != 1 {
        return false;
    }
    matches!(params[0], CType::Void)
}

fn are_types(params: &[CType], args: &[Value]) -> bool
    ensures types { result ≡ same_types params.now (map c_type_of (types_of args.now)) }
    ensures numbers { result ≡ true → list_all is_number args.now ≡ true }
{
    if params.len() != args.len() {
        return false;
    }
    for i in 0..params.len() {
        if !has_type(params[i], args[i]) {
            return false;
        }
    }
    true
}

// Whether a value, which is a number of its type, is of this type.
fn has_type(ty: CType, value: Value) -> bool
    ensures types { result ≡ same_type ty (c_type_of (type_of value)) }
    ensures number { is_number value ≡ true }
{
    match value {
        Value::I32(_) => matches!(ty, CType::U32),
        Value::I64(_) => matches!(ty, CType::U64),
    }
}
