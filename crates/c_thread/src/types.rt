// Values and the types that take them (C11, 6.5.16.1).
ghost use Rattle.std.specs.Prelude.{◌≡◌, map, option_map};
ghost use Rattle.w2c_base.specs.Values.{equal_type, type_of};
ghost use Rattle.c_meaning.specs.State.{of_one_type};
ghost use Rattle.c_meaning.specs.Machine.{of_type};
ghost use Rattle.c_meaning.specs.Step.{are_of_types, is_returned as is_returned_of, param_types};
ghost use Rattle.c_objects.specs.Views.{value_of, Naming};

use c_objects::Held;
use c_tree::{CType, Name};
use w2c_base::Value;

/// Whether two values are numbers of one width, pointers to objects, or pointers to functions.
pub fn are_of_one_type(held: Held, value: Held) -> bool
    ensures { (names : Naming) → of_one_type (value_of names held) (value_of names value) ≡ result }
{
    match held {
        Held::Number(one) => match value {
            Held::Number(other) => are_of_one_width(one, other),
            Held::Pointer(_) => false,
            Held::FuncPointer(_) => false,
        },
        Held::Pointer(_) => match value {
            Held::Number(_) => false,
            Held::Pointer(_) => true,
            Held::FuncPointer(_) => false,
        },
        Held::FuncPointer(_) => match value {
            Held::Number(_) => false,
            Held::Pointer(_) => false,
            Held::FuncPointer(_) => true,
        },
    }
}

fn are_of_one_width(one: Value, other: Value) -> bool
    ensures { equal_type (type_of one) (type_of other) ≡ result }
{
    match (one, other) {
        (Value::I32(_), Value::I32(_)) | (Value::I64(_), Value::I64(_)) => true,
        _ => false,
    }
}

/// Whether values are of the types of the parameters that have names, one for each.
pub fn fit_params(params: &[(CType, Option<Name>)], values: &[Held]) -> bool
    ensures { (names : Naming) → are_of_types (param_types params.now) (map (value_of names) values.now) ≡ result }
{
    let mut rest = values;
    for param in params {
        if param.1.is_some() {
            let Some((value, behind)) = rest.split_first() else {
                return false;
            };
            if !is_of_type(param.0, *value) {
                return false;
            }
            rest = behind;
        }
    }
    rest.is_empty()
}

/// Whether a function with a result of this type returns this: a value of the type, or none where
/// it is void (C11, 6.8.6.4).
pub fn is_returned(ty: CType, value: Option<Held>) -> bool
    ensures { (names : Naming) → is_returned_of ty (option_map (value_of names) value) ≡ result }
{
    match value {
        None => matches!(ty, CType::Void),
        Some(value) => is_of_type(ty, value),
    }
}

fn is_of_type(ty: CType, value: Held) -> bool
    ensures { (names : Naming) → of_type ty (value_of names value) ≡ result }
{
    match value {
        Held::Number(Value::I32(_)) => matches!(ty, CType::U32),
        Held::Number(Value::I64(_)) => matches!(ty, CType::U64),
        Held::Pointer(_) => matches!(
            ty,
            CType::PtrU32 | CType::PtrU64 | CType::PtrMem | CType::PtrTab
        ),
        Held::FuncPointer(_) => matches!(ty, CType::FnPtr),
    }
}
