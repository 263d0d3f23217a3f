// Expressions and statements of a unit with their new names.
ghost use Rattle.std.specs.Prelude.{◌≡◌, IfOk, map, option_map};
ghost use Rattle.c_tree.specs.View.{expr_of, arg_of, callee_of, stmt_of};
ghost use Rattle.c_renaming.specs.Renamed as renamed;
ghost use Rattle.c_merge.specs.Merge.{new_names};

use crate::names::{new_function, new_name, new_variable};
use c_tree::{Arg, Args, Callee, Cases, Expr, Name, Num, Stmt, Stmts};
use std::alloc::Global;
use std::boxed::Box;
use w2c_base::Memory;

fn new_expr(alloc: Global, unit: usize, e: &Expr) -> Result<Expr, Memory>
    ensures { IfOk result (λ new. expr_of new ≡ renamed.expr new_names unit (expr_of e.now)) }
{
    match e {
        Expr::Name(name) => Ok(Expr::Name(new_variable(alloc, unit, name.as_slice())?)),
        Expr::At(name, index) => {
            let name = new_variable(alloc, unit, name.as_slice())?;
            let index = new_expr(alloc, unit, index)?;
            Ok(Expr::At(name, Box::new(alloc, index)?))
        }
        Expr::Num(number) => Ok(Expr::Num(*number)),
        Expr::To32(inner) => {
            let inner = new_expr(alloc, unit, inner)?;
            Ok(Expr::To32(Box::new(alloc, inner)?))
        }
        Expr::To64(inner) => {
            let inner = new_expr(alloc, unit, inner)?;
            Ok(Expr::To64(Box::new(alloc, inner)?))
        }
        Expr::Star(name) => Ok(Expr::Star(new_variable(alloc, unit, name.as_slice())?)),
        Expr::Op(op, left, right) => {
            let left = Box::new(alloc, new_expr(alloc, unit, left)?)?;
            match new_expr(alloc, unit, right) {
                Ok(right) => Ok(Expr::Op(*op, left, Box::new(alloc, right)?)),
                Err(Memory) => {
                    drop(left);
                    Err(Memory)
                }
            }
        }
    }
}

fn new_arg(alloc: Global, unit: usize, arg: &Arg) -> Result<Arg, Memory>
    ensures { IfOk result (λ new. arg_of new ≡ renamed.arg new_names unit (arg_of arg.now)) }
{
    match arg {
        Arg::Value(e) => Ok(Arg::Value(new_expr(alloc, unit, e)?)),
        Arg::Address(name) => Ok(Arg::Address(new_variable(alloc, unit, name.as_slice())?)),
        Arg::Function(name) => Ok(Arg::Function(new_function(alloc, unit, name.as_slice())?)),
    }
}

fn new_args(alloc: Global, unit: usize, args: &[Arg]) -> Result<Args, Memory>
    ensures { IfOk result (λ new. map arg_of new ≡ map (renamed.arg new_names unit) (map arg_of args.now)) }
{
    let mut made = Args::new(alloc);
    for arg in args {
        made.push(new_arg(alloc, unit, arg)?)?;
    }
    Ok(made)
}

fn new_callee(alloc: Global, unit: usize, callee: &Callee) -> Result<Callee, Memory>
    ensures { IfOk result (λ new. callee_of new ≡ renamed.callee new_names unit (callee_of callee.now)) }
{
    match callee {
        Callee::Named(name) => Ok(Callee::Named(new_function(alloc, unit, name.as_slice())?)),
        Callee::Through(ty, name) => {
            let ty = ty.copy(alloc)?;
            let name = new_variable(alloc, unit, name.as_slice())?;
            Ok(Callee::Through(ty, name))
        }
    }
}

pub(crate) fn new_target(
    alloc: Global,
    unit: usize,
    target: &Option<Name>,
) -> Result<Option<Name>, Memory>
    ensures { IfOk result (λ new. new ≡ option_map (new_names.var unit) target.now) }
{
    match target {
        None => Ok(None),
        Some(name) => Ok(Some(new_variable(alloc, unit, name.as_slice())?)),
    }
}

fn new_case(alloc: Global, unit: usize, case: &(Num, Name)) -> Result<(Num, Name), Memory>
    ensures { IfOk result (λ new. new ≡ renamed.case new_names unit case.now) }
{
    let label = new_name(alloc, unit, case.1.as_slice())?;
    Ok((case.0, label))
}

fn new_cases(alloc: Global, unit: usize, cases: &[(Num, Name)]) -> Result<Cases, Memory>
    ensures { IfOk result (λ new. new ≡ map (renamed.case new_names unit) cases.now) }
{
    let mut made = Cases::new(alloc);
    for case in cases {
        made.push(new_case(alloc, unit, case)?)?;
    }
    Ok(made)
}

fn new_stmt(alloc: Global, unit: usize, stmt: &Stmt) -> Result<Stmt, Memory>
    ensures { IfOk result (λ new. stmt_of new ≡ renamed.stmt new_names unit (stmt_of stmt.now)) }
{
    match stmt {
        Stmt::Label(name) => Ok(Stmt::Label(new_name(alloc, unit, name.as_slice())?)),
        Stmt::Null => Ok(Stmt::Null),
        Stmt::Set(name, arg) => {
            let name = new_variable(alloc, unit, name.as_slice())?;
            Ok(Stmt::Set(name, new_arg(alloc, unit, arg)?))
        }
        Stmt::SetStar(name, e) => {
            let name = new_variable(alloc, unit, name.as_slice())?;
            Ok(Stmt::SetStar(name, new_expr(alloc, unit, e)?))
        }
        Stmt::Call(target, callee, args) => {
            let target = new_target(alloc, unit, target)?;
            let callee = new_callee(alloc, unit, callee)?;
            Ok(Stmt::Call(target, callee, new_args(alloc, unit, args.as_slice())?))
        }
        Stmt::Goto(name) => Ok(Stmt::Goto(new_name(alloc, unit, name.as_slice())?)),
        Stmt::If(op, left, right, name) => {
            let label = new_name(alloc, unit, name.as_slice())?;
            let left = new_expr(alloc, unit, left)?;
            match new_expr(alloc, unit, right) {
                Ok(right) => Ok(Stmt::If(*op, left, right, label)),
                Err(Memory) => {
                    drop(left);
                    Err(Memory)
                }
            }
        }
        Stmt::Switch(e, cases, name) => {
            let cases = new_cases(alloc, unit, cases.as_slice())?;
            let default = new_name(alloc, unit, name.as_slice())?;
            Ok(Stmt::Switch(new_expr(alloc, unit, e)?, cases, default))
        }
        Stmt::ReturnNone => Ok(Stmt::ReturnNone),
        Stmt::Return(arg) => Ok(Stmt::Return(new_arg(alloc, unit, arg)?)),
    }
}

/// Statements in order, with the names that they get in the one unit.
pub(crate) fn new_stmts(alloc: Global, unit: usize, stmts: &[Stmt]) -> Result<Stmts, Memory>
    ensures { IfOk result (λ new. map stmt_of new ≡ map (renamed.stmt new_names unit) (map stmt_of stmts.now)) }
{
    let mut made = Stmts::new(alloc);
    for stmt in stmts {
        made.push(new_stmt(alloc, unit, stmt)?)?;
    }
    Ok(made)
}
