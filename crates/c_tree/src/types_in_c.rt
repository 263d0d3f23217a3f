// The types of C that stand for types of WebAssembly.
ghost use Rattle.std.specs.Prelude.{◌≡◌, [], ◌∷◌, map, IfOk};
ghost use Rattle.c_tree.specs.View.{func_type_of};
ghost use Rattle.c_tree.specs.TypesInC.{c_type_of, c_params_of, c_result_of, c_func_type_of};

use crate::tree::{CFuncType, CType, CTypes};
use std::alloc::Global;
use w2c_base::{FuncType, Memory, ValType};

/// The type of a value in C.
pub fn c_type(ty: ValType) -> CType
    ensures { result ≡ c_type_of ty }
{
    match ty {
        ValType::I32 => CType::U32,
        ValType::I64 => CType::U64,
    }
}

/// The type of a result in C.
pub fn c_result(ty: Option<ValType>) -> CType
    ensures { result ≡ c_result_of ty }
{
    match ty {
        None => CType::Void,
        Some(ty) => c_type(ty),
    }
}

/// The types of values in C.
pub fn c_types(alloc: Global, types: &[ValType]) -> Result<CTypes, Memory>
    ensures { IfOk result (λ out. out ≡ map c_type_of types.now) }
{
    let mut out = CTypes::new(alloc);
    for ty in types {
        out.push(c_type(*ty))?;
    }
    Ok(out)
}

fn only_void(alloc: Global) -> Result<CTypes, Memory>
    ensures { IfOk result (λ out. out ≡ CType.Void ∷ []) }
{
    let mut out = CTypes::new(alloc);
    out.push(CType::Void)?;
    Ok(out)
}

#[tactic(auto, using(crate::proofs::TypesInC::params_there, crate::proofs::TypesInC::params_none))]
fn c_params(alloc: Global, params: &[ValType]) -> Result<CTypes, Memory>
    ensures { IfOk result (λ types. types ≡ c_params_of params.now) }
{
    if params.is_empty() {
        only_void(alloc)
    } else {
        c_types(alloc, params)
    }
}

/// The type of a function in C.
pub fn c_func_type(alloc: Global, ty: &FuncType) -> Result<CFuncType, Memory>
    ensures { IfOk result (λ t. func_type_of t ≡ c_func_type_of ty.now) }
{
    Ok(CFuncType {
        params: c_params(alloc, ty.params.as_slice())?,
        result: c_result(ty.result),
    })
}
