// The parts of which statements on slots are made.
ghost use Rattle.std.specs.Prelude.{◌≡◌, ◌∷◌, ◌++◌, [], map, IfOk, OnOk};
ghost use Rattle.w2c_base.specs.Values.{bits};
ghost use Rattle.c_tree.specs.Tree as tree;
ghost use Rattle.c_tree.specs.View.{arg_of, expr_of, stmt_of};
ghost use Rattle.c_tree.specs.Makers.{num as number};
ghost use Rattle.body_forms.specs.Slots as slots;

use crate::names::slot;
use c_tree::{Arg, Args, Expr, Name, Stmt, n32, n64, set};
use std::alloc::Global;
use w2c_base::{Memory, ValType};

/// The operand at a height.
pub fn operand(alloc: Global, ty: ValType, height: usize) -> Result<Expr, Memory>
    ensures { IfOk result (λ e. expr_of e ≡ slots.operand ty height) }
{
    Ok(Expr::Name(slot(alloc, ty, height)?))
}

/// The width of a type, as a number of it.
pub fn width(ty: ValType) -> Expr
    ensures { expr_of result ≡ number ty (bits ty) }
{
    match ty {
        ValType::I32 => n32(32),
        ValType::I64 => n64(64),
    }
}

/// An assignment to the slot at a height.
pub fn set_slot(alloc: Global, ty: ValType, height: usize, e: Expr) -> Result<Stmt, Memory>
    ensures { IfOk result (λ s. stmt_of s ≡ slots.set_slot ty height (expr_of e)) }
{
    Ok(set(slot(alloc, ty, height)?, e))
}

/// An assignment of the operand at a height to a variable.
pub fn set_to_operand(
    alloc: Global,
    target: Name,
    ty: ValType,
    height: usize,
) -> Result<Stmt, Memory>
    ensures { IfOk result (λ s. stmt_of s ≡ tree.Set target (tree.Value (slots.operand ty height))) }
{
    let value = slot(alloc, ty, height)?;
    Ok(Stmt::Set(target, Arg::Value(Expr::Name(value))))
}

/// One more argument, the operand at a height.
pub fn put_operand(alloc: Global, args: &mut Args, ty: ValType, height: usize) -> Result<(), Memory>
    ensures { OnOk result (map arg_of args.new ≡ map arg_of args.old ++ tree.Value (slots.operand ty height) ∷ []) }
{
    let name = slot(alloc, ty, height)?;
    args.push(Arg::Value(Expr::Name(name)))
}
