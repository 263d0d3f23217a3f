// Copies of the parts of a unit, with trees of their own.
ghost use Rattle.std.specs.Prelude.{◌≡◌, IfOk, map};
ghost use Rattle.c_tree.specs.View.{expr_of, arg_of, callee_of, stmt_of, maybe_body_of, func_of, item_of};

use c_tree::{
    Arg, Args, Body, Callee, Cases, Expr, Func, Item, Locals, Params, Stmt, Stmts, copy_name,
};
use std::alloc::Global;
use std::boxed::Box;
use w2c_base::{Memory, Sequence};

fn copy_expression(alloc: Global, e: &Expr) -> Result<Expr, Memory>
    ensures { IfOk result (λ copy. expr_of copy ≡ expr_of e.now) }
{
    match e {
        Expr::Name(name) => Ok(Expr::Name(name.copy(alloc)?)),
        Expr::At(name, index) => {
            let name = name.copy(alloc)?;
            let index = Box::new(alloc, copy_expression(alloc, index)?)?;
            Ok(Expr::At(name, index))
        }
        Expr::Num(number) => Ok(Expr::Num(*number)),
        Expr::To32(inner) => Ok(Expr::To32(Box::new(alloc, copy_expression(alloc, inner)?)?)),
        Expr::To64(inner) => Ok(Expr::To64(Box::new(alloc, copy_expression(alloc, inner)?)?)),
        Expr::Star(name) => Ok(Expr::Star(name.copy(alloc)?)),
        Expr::Op(op, left, right) => {
            let left = Box::new(alloc, copy_expression(alloc, left)?)?;
            match copy_expression(alloc, right) {
                Ok(right) => Ok(Expr::Op(*op, left, Box::new(alloc, right)?)),
                Err(Memory) => {
                    drop(left);
                    Err(Memory)
                }
            }
        }
    }
}

fn copy_argument(alloc: Global, argument: &Arg) -> Result<Arg, Memory>
    ensures { IfOk result (λ copy. arg_of copy ≡ arg_of argument.now) }
{
    match argument {
        Arg::Value(e) => Ok(Arg::Value(copy_expression(alloc, e)?)),
        Arg::Address(name) => Ok(Arg::Address(name.copy(alloc)?)),
        Arg::Function(name) => Ok(Arg::Function(name.copy(alloc)?)),
    }
}

fn copy_arguments(alloc: Global, arguments: &[Arg]) -> Result<Args, Memory>
    ensures { IfOk result (λ copies. map arg_of copies ≡ map arg_of arguments.now) }
{
    let mut copies = Sequence::new(alloc);
    for argument in arguments {
        copies.push(copy_argument(alloc, argument)?)?;
    }
    Ok(copies)
}

fn copy_callee(alloc: Global, callee: &Callee) -> Result<Callee, Memory>
    ensures { IfOk result (λ copy. callee_of copy ≡ callee_of callee.now) }
{
    match callee {
        Callee::Named(name) => Ok(Callee::Named(name.copy(alloc)?)),
        Callee::Through(ty, name) => {
            let ty = ty.copy(alloc)?;
            let name = name.copy(alloc)?;
            Ok(Callee::Through(ty, name))
        }
    }
}

fn copy_cases(alloc: Global, cases: &Cases) -> Result<Cases, Memory>
    ensures { IfOk result (λ copies. copies ≡ cases.now) }
{
    let mut copies = Sequence::new(alloc);
    for (number, label) in cases.as_slice() {
        copies.push((*number, label.copy(alloc)?))?;
    }
    Ok(copies)
}

fn copy_statement(alloc: Global, statement: &Stmt) -> Result<Stmt, Memory>
    ensures { IfOk result (λ copy. stmt_of copy ≡ stmt_of statement.now) }
{
    match statement {
        Stmt::Label(name) => Ok(Stmt::Label(name.copy(alloc)?)),
        Stmt::Null => Ok(Stmt::Null),
        Stmt::Set(name, value) => {
            let name = name.copy(alloc)?;
            let value = copy_argument(alloc, value)?;
            Ok(Stmt::Set(name, value))
        }
        Stmt::SetStar(name, e) => {
            let name = name.copy(alloc)?;
            let e = copy_expression(alloc, e)?;
            Ok(Stmt::SetStar(name, e))
        }
        Stmt::Call(target, callee, arguments) => {
            let target = copy_name(alloc, target)?;
            let callee = copy_callee(alloc, callee)?;
            let arguments = copy_arguments(alloc, arguments.as_slice())?;
            Ok(Stmt::Call(target, callee, arguments))
        }
        Stmt::Goto(name) => Ok(Stmt::Goto(name.copy(alloc)?)),
        Stmt::If(op, left, right, label) => {
            let label = label.copy(alloc)?;
            let left = copy_expression(alloc, left)?;
            match copy_expression(alloc, right) {
                Ok(right) => Ok(Stmt::If(*op, left, right, label)),
                Err(Memory) => {
                    drop(left);
                    Err(Memory)
                }
            }
        }
        Stmt::Switch(e, cases, default) => {
            let cases = copy_cases(alloc, cases)?;
            let default = default.copy(alloc)?;
            let e = copy_expression(alloc, e)?;
            Ok(Stmt::Switch(e, cases, default))
        }
        Stmt::ReturnNone => Ok(Stmt::ReturnNone),
        Stmt::Return(value) => Ok(Stmt::Return(copy_argument(alloc, value)?)),
    }
}

fn copy_statements(alloc: Global, statements: &[Stmt]) -> Result<Stmts, Memory>
    ensures { IfOk result (λ copies. map stmt_of copies ≡ map stmt_of statements.now) }
{
    let mut copies = Sequence::new(alloc);
    for statement in statements {
        copies.push(copy_statement(alloc, statement)?)?;
    }
    Ok(copies)
}

fn copy_locals(alloc: Global, locals: &Locals) -> Result<Locals, Memory>
    ensures { IfOk result (λ copies. copies ≡ locals.now) }
{
    let mut copies = Sequence::new(alloc);
    for (ty, name, number) in locals.as_slice() {
        copies.push((*ty, name.copy(alloc)?, *number))?;
    }
    Ok(copies)
}

fn copy_params(alloc: Global, params: &Params) -> Result<Params, Memory>
    ensures { IfOk result (λ copies. copies ≡ params.now) }
{
    let mut copies = Sequence::new(alloc);
    for (ty, name) in params.as_slice() {
        copies.push((*ty, copy_name(alloc, name)?))?;
    }
    Ok(copies)
}

fn copy_body(alloc: Global, body: &Option<Body>) -> Result<Option<Body>, Memory>
    ensures { IfOk result (λ copy. maybe_body_of copy ≡ maybe_body_of body.now) }
{
    match body {
        None => Ok(None),
        Some(body) => {
            let locals = copy_locals(alloc, &body.locals)?;
            let stmts = copy_statements(alloc, body.stmts.as_slice())?;
            Ok(Some(Body { locals, stmts }))
        }
    }
}

fn copy_function(alloc: Global, f: &Func) -> Result<Func, Memory>
    ensures { IfOk result (λ copy. func_of copy ≡ func_of f.now) }
{
    let name = f.name.copy(alloc)?;
    let params = copy_params(alloc, &f.params)?;
    let body = copy_body(alloc, &f.body)?;
    Ok(f.with_parts(name, params, body))
}

/// An item with the same tree.
pub(crate) fn copy_item(alloc: Global, item: &Item) -> Result<Item, Memory>
    ensures { IfOk result (λ copy. item_of copy ≡ item_of item.now) }
{
    match item {
        Item::Array(name, count, bytes) => {
            let name = name.copy(alloc)?;
            let bytes = bytes.copy(alloc)?;
            Ok(Item::Array(name, *count, bytes))
        }
        Item::Var(ty, name, number) => Ok(Item::Var(*ty, name.copy(alloc)?, *number)),
        Item::Func(f) => Ok(Item::Func(copy_function(alloc, f)?)),
    }
}
