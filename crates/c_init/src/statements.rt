// The statements of which the init function is made.
ghost use Rattle.std.specs.Prelude.{◌≡◌, ◌++◌, ◌∷◌, [], map, IfOk, OnOk, Some};
ghost use Rattle.c_tree.specs.Tree as tree;
ghost use Rattle.c_tree.specs.View.{arg_of, expr_of, stmt_of};
ghost use Rattle.c_tree.specs.Makers.{trap as trap_of};
ghost use Rattle.c_tree.specs.Primitives.{primitive_name};
ghost use Rattle.c_tree.specs.DefinedNames as defined;
ghost use Rattle.c_init.specs.Init as of;

use c_symbols::pointer_name;
use c_tree::{
    Arg, COp, Expr, Name, Primitive, Stmt, Stmts, call_primitive, label, name_of, one_arg, trap,
};
use std::alloc::Global;
use w2c_base::{Memory, TrapKind};

/// A maximum, or 2 to the power of 32 where there is none.
pub(crate) fn max_number(max: Option<u32>) -> u64
    ensures { result ≡ of.max_number max }
{
    match max {
        None => 4_294_967_296,
        Some(max) => max as u64,
    }
}

/// The pointer to an imported object, as an argument.
pub(crate) fn pointer_arg(alloc: Global, object: &[u8]) -> Result<Arg, Memory>
    ensures { IfOk result (λ a. arg_of a ≡ tree.Value (tree.Name (defined.pointer_name object.now))) }
{
    Ok(Arg::Value(Expr::Name(pointer_name(alloc, object)?)))
}

/// A length or a maximum is read from an object.
pub(crate) fn reading(alloc: Global, read: Primitive, object: Arg) -> Result<Stmt, Memory>
    ensures { IfOk result (λ s. stmt_of s ≡ of.primitive (Some of.size_name) (primitive_name read) (arg_of object ∷ [])) }
{
    let args = one_arg(alloc, object)?;
    let target = name_of(alloc, b"n")?;
    call_primitive(alloc, Some(target), read, args)
}

/// A jump to a label where two expressions compare so.
pub(crate) fn jump(op: COp, left: Expr, right: Expr, label: Name) -> Stmt
    ensures { stmt_of result ≡ tree.If op (expr_of left) (expr_of right) label }
{
    Stmt::If(op, left, right, label)
}

/// The length or maximum that was read.
pub(crate) fn size(alloc: Global) -> Result<Expr, Memory>
    ensures { IfOk result (λ e. expr_of e ≡ tree.Name of.size_name) }
{
    Ok(Expr::Name(name_of(alloc, b"n")?))
}

/// A label.
pub(crate) fn put_label(alloc: Global, stmts: &mut Stmts, number: usize) -> Result<(), Memory>
    ensures { OnOk result (map stmt_of stmts.new ≡ map stmt_of stmts.old ++ tree.Label (defined.label_name number) ∷ []) }
{
    stmts.push(label(alloc, number)?)
}

/// A label and a trap behind it, where something goes there.
pub(crate) fn put_trap(
    alloc: Global,
    stmts: &mut Stmts,
    named: bool,
    number: usize,
    kind: TrapKind,
) -> Result<(), Memory>
    ensures { OnOk result (map stmt_of stmts.new ≡ map stmt_of stmts.old ++ of.trap_if named number (trap_of kind)) }
{
    if named {
        put_label(alloc, stmts, number)?;
        stmts.push(trap(alloc, kind)?)
    } else {
        Ok(())
    }
}
