// Parameters and declared locals.
ghost use Rattle.std.specs.Prelude.{◌≡◌, ◌<◌, ◌^◌, IfOk};
ghost use Rattle.body_forms.specs.Variables as variables;

use crate::names::local_name;
use c_tree::{CType, Locals, Name, Num, Params, c_type, no_params};
use std::alloc::Global;
use w2c_base::{Memory, ValType};

fn some_params(alloc: Global, types: &[ValType]) -> Result<Params, Memory>
    ensures { IfOk result (λ params. params ≡ variables.params_from 0 types.now) }
{
    let mut params = Params::new(alloc);
    let mut index = 0usize;
    for ty in types {
        params.push((c_type(*ty), Some(local_name(alloc, index)?)))?;
        index += 1;
    }
    Ok(params)
}

/// The parameters of a function.
#[tactic(auto, using(crate::proofs::Parameters::none_of, crate::proofs::Parameters::some_of))]
pub fn params(alloc: Global, types: &[ValType]) -> Result<Params, Memory>
    ensures { IfOk result (λ params. params ≡ variables.params_of types.now) }
{
    if types.is_empty() {
        no_params(alloc)
    } else {
        some_params(alloc, types)
    }
}

fn zero_number(ty: ValType) -> Num
    ensures { result ≡ variables.zero_number ty }
{
    match ty {
        ValType::I32 => Num::N32(0),
        ValType::I64 => Num::N64(0),
    }
}

/// A local variable of a type, which is 0 at first.
pub fn zero_local(ty: ValType, name: Name) -> (CType, Name, Num)
    ensures { result ≡ variables.zero_local ty name }
{
    (c_type(ty), name, zero_number(ty))
}

/// The declared locals, numbered behind the parameters.
pub fn declared(alloc: Global, first: usize, types: &[ValType]) -> Result<Locals, Memory>
    requires { first < 2 ^ 63 }
    ensures { IfOk result (λ locals. locals ≡ variables.locals_from first types.now) }
{
    let mut locals = Locals::new(alloc);
    let mut index = first;
    for ty in types {
        locals.push(zero_local(*ty, local_name(alloc, index)?))?;
        index += 1;
    }
    Ok(locals)
}
