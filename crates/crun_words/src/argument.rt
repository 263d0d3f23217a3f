// The arguments of a call, by the types of the function's parameters.
ghost use Rattle.std.specs.Prelude.{◌≡◌, ◌^◌, ◌<◌, ◌∷◌, [], List, IfOk, IfSome, IfNone};
ghost use Rattle.w2c_base.specs.declared.value.Value.{Value};
ghost use Rattle.c_tree.specs.Runtime.{same_types};
ghost use Rattle.crun_words.specs.Arguments.{AreArguments, IsArgument};

use c_tree::CType;
use std::alloc::Global;
use w2c_base::{Memory, Value, Values};

/// The values that numbers are for a function of these parameters: one for each, a number of its type, which is u32 or
/// u64. The list `void` stands for no parameters (C11, 6.7.6.3). None exactly where the numbers are no such values.
pub fn arguments(alloc: Global, params: &[CType], numbers: &[u64]) -> Result<Option<Values>, Memory>
    ensures some { IfOk result (λ found. IfSome found (λ values. AreArguments params.now numbers.now values)) }
    ensures none { IfOk result (λ found. IfNone found ((values : List Value) → AreArguments params.now numbers.now values → ⊥)) }
{
    if numbers.is_empty() {
        return Ok(no_arguments(alloc, params));
    }
    if params.len() != numbers.len() {
        return Ok(None);
    }
    let mut values = Values::new(alloc);
    for k in 0..numbers.len() {
        let Some(value) = argument(params[k], numbers[k]) else {
            return Ok(None);
        };
        values.push(value)?;
    }
    Ok(Some(values))
}

fn no_arguments(alloc: Global, params: &[CType]) -> Option<Values>
    ensures some { IfSome result (λ values. AreArguments params.now [] values) }
    ensures none { IfNone result ((values : List Value) → AreArguments params.now [] values → ⊥) }
{
    if is_void(params) {
        return Some(Values::new(alloc));
    }
    None
}

// Whether a list of types is the list `void`.
fn is_void(params: &[CType]) -> bool
    ensures { result ≡ same_types params.now (CType.Void ∷ []) }
{
    if params.len() != 1 {
        return false;
    }
    matches!(params[0], CType::Void)
}

// The value that a number is for a parameter of a type.
fn argument(ty: CType, number: u64) -> Option<Value>
    ensures some { IfSome result (λ value. IsArgument ty number value) }
    ensures none { IfNone result ((value : Value) → IsArgument ty number value → ⊥) }
{
    match ty {
        CType::U32 if number <= 0xffff_ffff => Some(Value::I32(number as u32)),
        CType::U64 => Some(Value::I64(number)),
        _ => None,
    }
}
