// The functions of a unit that pass a call on, or give a pointer.
ghost use Rattle.std.specs.Prelude.{◌≡◌, [], ◌∷◌, map, Some, None, IfOk};
ghost use Rattle.c_tree.specs.Tree as tree;
ghost use Rattle.c_tree.specs.View.{arg_of, func_of, stmt_of};
ghost use Rattle.c_tree.specs.Makers.{zero_number};
ghost use Rattle.c_tree.specs.TypesInC.{c_type_of};
ghost use Rattle.unit_definition.specs.Exports as of;
ghost use Rattle.c_symbols.specs.Typed.{type_of};

use c_symbols::SymbolType;
use c_tree::{
    Arg, Args, Body, CType, Callee, Expr, Func, Locals, Name, Params, Stmt, Stmts, c_type, name_of,
    no_params, with_number, zero_number,
};
use std::alloc::Global;
use w2c_base::{Memory, ValType};

fn param_name(alloc: Global, k: usize) -> Result<Name, Memory>
    ensures { IfOk result (λ name. name ≡ of.param_name k) }
{
    with_number(alloc, b"a", k)
}

fn result_name(alloc: Global) -> Result<Name, Memory>
    ensures { IfOk result (λ name. name ≡ of.result_name) }
{
    name_of(alloc, b"r")
}

// Each parameter by its number.
fn numbered_params(alloc: Global, types: &[ValType]) -> Result<Params, Memory>
    ensures { IfOk result (λ params. params ≡ of.params_from 0 (map c_type_of types.now)) }
{
    let mut params = Params::new(alloc);
    let mut k = 0usize;
    for ty in types {
        params.push((c_type(*ty), Some(param_name(alloc, k)?)))?;
        k += 1;
    }
    Ok(params)
}

fn named_params(alloc: Global, types: &[ValType]) -> Result<Params, Memory>
    ensures { IfOk result (λ params. params ≡ of.named_params (map c_type_of types.now)) }
{
    if types.is_empty() {
        no_params(alloc)
    } else {
        numbered_params(alloc, types)
    }
}

// The parameters as arguments.
fn args(alloc: Global, types: &[ValType]) -> Result<Args, Memory>
    ensures { IfOk result (λ args. map arg_of args ≡ of.args_from 0 (map c_type_of types.now)) }
{
    let mut args = Args::new(alloc);
    for k in 0..types.len() {
        args.push(Arg::Value(Expr::Name(param_name(alloc, k)?)))?;
    }
    Ok(args)
}

#[tactic(auto, using(c_tree::proofs::TypesInC::proper_params))]
fn external(
    alloc: Global,
    ty: SymbolType,
    symbol: Name,
    locals: Locals,
    stmts: Stmts,
) -> Result<Func, Memory>
    ensures { IfOk result (λ f. func_of f ≡ of.external (type_of ty.entry) symbol locals (map stmt_of stmts)) }
{
    Ok(Func {
        is_static: false,
        result: ty.result,
        name: symbol,
        params: named_params(alloc, ty.params)?,
        body: Some(Body { locals, stmts }),
    })
}

// The call, or nothing in its place where the name may not be called.
fn call_if(
    alloc: Global,
    name: Option<Name>,
    target: Option<Name>,
    types: &[ValType],
) -> Result<Stmt, Memory>
    ensures { IfOk result (λ s. stmt_of s ≡ of.call_if name target (map c_type_of types.now)) }
{
    match name {
        None => Ok(Stmt::Null),
        Some(name) => Ok(Stmt::Call(target, Callee::Named(name), args(alloc, types)?)),
    }
}

fn void_stmts(alloc: Global, name: Option<Name>, types: &[ValType]) -> Result<Stmts, Memory>
    ensures { IfOk result (λ stmts. map stmt_of stmts ≡ of.call_if name None (map c_type_of types.now) ∷ tree.ReturnNone ∷ []) }
{
    let call = call_if(alloc, name, None, types)?;
    let mut stmts = Stmts::new(alloc);
    stmts.push(call)?;
    stmts.push(Stmt::ReturnNone)?;
    Ok(stmts)
}

fn passes_nothing(
    alloc: Global,
    ty: SymbolType,
    symbol: Name,
    name: Option<Name>,
) -> Result<Func, Memory>
    ensures { IfOk result (λ f. func_of f ≡ of.external (type_of ty.entry) symbol [] (of.call_if name None (map c_type_of ty.entry.params.now) ∷ tree.ReturnNone ∷ [])) }
{
    let stmts = void_stmts(alloc, name, ty.params)?;
    external(alloc, ty, symbol, Locals::new(alloc), stmts)
}

fn result_local(alloc: Global, ty: CType) -> Result<Locals, Memory>
    ensures { IfOk result (λ locals. locals ≡ (ty, of.result_name, zero_number ty) ∷ []) }
{
    let mut locals = Locals::new(alloc);
    locals.push((ty, result_name(alloc)?, zero_number(ty)))?;
    Ok(locals)
}

fn call_for_result(alloc: Global, name: Option<Name>, types: &[ValType]) -> Result<Stmt, Memory>
    ensures { IfOk result (λ s. stmt_of s ≡ of.call_if name (Some of.result_name) (map c_type_of types.now)) }
{
    let target = result_name(alloc)?;
    call_if(alloc, name, Some(target), types)
}

fn return_result(alloc: Global) -> Result<Stmt, Memory>
    ensures { IfOk result (λ s. stmt_of s ≡ tree.Return (tree.Value (tree.Name of.result_name))) }
{
    Ok(Stmt::Return(Arg::Value(Expr::Name(result_name(alloc)?))))
}

fn value_stmts(alloc: Global, name: Option<Name>, types: &[ValType]) -> Result<Stmts, Memory>
    ensures { IfOk result (λ stmts. map stmt_of stmts ≡ of.call_if name (Some of.result_name) (map c_type_of types.now)
        ∷ tree.Return (tree.Value (tree.Name of.result_name)) ∷ []) }
{
    let call = call_for_result(alloc, name, types)?;
    let mut stmts = Stmts::new(alloc);
    stmts.push(call)?;
    stmts.push(return_result(alloc)?)?;
    Ok(stmts)
}

fn passes_value(
    alloc: Global,
    ty: SymbolType,
    symbol: Name,
    name: Option<Name>,
) -> Result<Func, Memory>
    ensures { IfOk result (λ f. func_of f ≡ of.external (type_of ty.entry) symbol ((ty.entry.result, of.result_name, zero_number ty.entry.result) ∷ [])
        (of.call_if name (Some of.result_name) (map c_type_of ty.entry.params.now) ∷ tree.Return (tree.Value (tree.Name of.result_name)) ∷ [])) }
{
    let locals = result_local(alloc, ty.result)?;
    let stmts = value_stmts(alloc, name, ty.params)?;
    external(alloc, ty, symbol, locals, stmts)
}

/// A function that passes calls on to a name, where that may be called.
#[tactic(auto, using(c_tree::proofs::TypesInC::proper_params))]
pub(crate) fn passes_on(
    alloc: Global,
    ty: SymbolType,
    symbol: Name,
    name: Option<Name>,
) -> Result<Func, Memory>
    ensures { IfOk result (λ f. func_of f ≡ of.passes_on (type_of ty.entry) symbol name) }
{
    match ty.result {
        CType::Void => passes_nothing(alloc, ty, symbol, name),
        _ => passes_value(alloc, ty, symbol, name),
    }
}

/// A function that gives a pointer to an own object.
pub(crate) fn gives_own(
    alloc: Global,
    ty: SymbolType,
    symbol: Name,
    object: Name,
) -> Result<Func, Memory>
    ensures { IfOk result (λ f. func_of f ≡ of.external (type_of ty.entry) symbol [] (tree.Return (tree.Address object) ∷ [])) }
{
    let mut stmts = Stmts::new(alloc);
    stmts.push(Stmt::Return(Arg::Address(object)))?;
    external(alloc, ty, symbol, Locals::new(alloc), stmts)
}
