// Pieces of C that several crates make: names, numbers, operators, arguments, assignments and calls of the runtime.
ghost use Rattle.std.specs.Prelude.{◌≡◌, ◌<◌, ◌^◌, [], ◌∷◌, map, None, IfOk, ◌++◌, decimal};
ghost use Rattle.w2c_base.specs.Values.{bits};
ghost use Rattle.c_tree.specs.DefinedNames as defined;
ghost use Rattle.c_tree.specs.Tree as tree;
ghost use Rattle.c_tree.specs.View.{arg_of, expr_of, stmt_of};
ghost use Rattle.c_tree.specs.declared.tree.Num.TheVariants.{N32, N64};
ghost use Rattle.c_tree.specs.Makers as makers;
ghost use Rattle.c_tree.specs.Primitives.{primitive_name};

use crate::primitive::Primitive;
use crate::tree::{Arg, Args, COp, CType, Callee, Expr, Name, Num, Params, Stmt};
use itoa::Buffer;
use std::alloc::Global;
use std::boxed::Box;
use w2c_base::{Memory, TrapKind, ValType};

/// A name of these bytes.
pub fn name_of(alloc: Global, text: &[u8]) -> Result<Name, Memory>
    ensures { IfOk result (λ name. name ≡ text.now) }
{
    Name::joined(alloc, b"", text)
}

/// A copy of a name, where there is one.
pub fn copy_name(alloc: Global, name: &Option<Name>) -> Result<Option<Name>, Memory>
    ensures { IfOk result (λ copy. copy ≡ name.now) }
{
    match name {
        None => Ok(None),
        Some(name) => Ok(Some(name.copy(alloc)?)),
    }
}

/// A number of a type.
pub fn literal(ty: ValType, n: u64) -> Expr
    requires { n < 2 ^ bits ty }
    ensures { expr_of result ≡ makers.num ty n }
{
    match ty {
        ValType::I32 => Expr::Num(Num::N32(n as u32)),
        ValType::I64 => Expr::Num(Num::N64(n)),
    }
}

/// A number as a u32.
pub fn n32(n: u32) -> Expr
    ensures { expr_of result ≡ tree.Number (N32 n) }
{
    Expr::Num(Num::N32(n))
}

/// A number as a u64.
pub fn n64(n: u64) -> Expr
    ensures { expr_of result ≡ tree.Number (N64 n) }
{
    Expr::Num(Num::N64(n))
}

/// The first value of a variable that is 0.
pub fn zero_number(ty: CType) -> Num
    ensures { result ≡ makers.zero_number ty }
{
    match ty {
        CType::U32 => Num::N32(0),
        CType::U64 => Num::N64(0),
        _ => Num::Plain(0),
    }
}

/// An operator on two expressions.
pub fn operation(alloc: Global, op: COp, left: Expr, right: Expr) -> Result<Expr, Memory>
    ensures { IfOk result (λ e. expr_of e ≡ tree.Op op (expr_of left) (expr_of right)) }
{
    Ok(Expr::Op(op, Box::new(alloc, left)?, Box::new(alloc, right)?))
}

/// An expression as a u32.
pub fn to_32(alloc: Global, e: Expr) -> Result<Expr, Memory>
    ensures { IfOk result (λ cast. expr_of cast ≡ tree.To32 (expr_of e)) }
{
    Ok(Expr::To32(Box::new(alloc, e)?))
}

/// An expression as a u64.
pub fn to_64(alloc: Global, e: Expr) -> Result<Expr, Memory>
    ensures { IfOk result (λ cast. expr_of cast ≡ tree.To64 (expr_of e)) }
{
    Ok(Expr::To64(Box::new(alloc, e)?))
}

/// A call's only argument.
pub fn one_arg(alloc: Global, only: Arg) -> Result<Args, Memory>
    ensures { IfOk result (λ args. map arg_of args ≡ arg_of only ∷ []) }
{
    let mut args = Args::new(alloc);
    args.push(only)?;
    Ok(args)
}

/// Three arguments.
pub fn three_args(alloc: Global, first: Arg, second: Arg, third: Arg) -> Result<Args, Memory>
    ensures { IfOk result (λ args. map arg_of args ≡ arg_of first ∷ arg_of second ∷ arg_of third ∷ []) }
{
    let mut args = one_arg(alloc, first)?;
    args.push(second)?;
    args.push(third)?;
    Ok(args)
}

/// The one parameter `void`, which stands for none.
pub fn no_params(alloc: Global) -> Result<Params, Memory>
    ensures { IfOk result (λ params. params ≡ (CType.Void, None) ∷ []) }
{
    let mut params = Params::new(alloc);
    params.push((CType::Void, None))?;
    Ok(params)
}

/// An assignment.
pub fn set(name: Name, e: Expr) -> Stmt
    ensures { stmt_of result ≡ tree.Set name (tree.Value (expr_of e)) }
{
    Stmt::Set(name, Arg::Value(e))
}

/// A call of a function of the runtime.
pub fn call_primitive(
    alloc: Global,
    target: Option<Name>,
    which: Primitive,
    args: Args,
) -> Result<Stmt, Memory>
    ensures { IfOk result (λ s. stmt_of s ≡ tree.Call target (tree.Called (primitive_name which)) (map arg_of args)) }
{
    let name = name_of(alloc, which.name())?;
    Ok(Stmt::Call(target, Callee::Named(name), args))
}

/// The statement that ends the run with a trap.
pub fn trap(alloc: Global, kind: TrapKind) -> Result<Stmt, Memory>
    ensures { IfOk result (λ s. stmt_of s ≡ makers.trap kind) }
{
    let args = one_arg(alloc, Arg::Value(n32(kind.code())))?;
    call_primitive(alloc, None, Primitive::Trap, args)
}

/// Some letters, and a number.
pub fn with_number(alloc: Global, letters: &[u8], number: usize) -> Result<Name, Memory>
    ensures { IfOk result (λ name. name ≡ letters.now ++ decimal number) }
{
    let mut buffer = Buffer::new();
    let name = Name::joined(alloc, letters, buffer.format(number).as_bytes())?;
    Ok(name)
}

/// The label with a number.
pub fn label_name(alloc: Global, label: usize) -> Result<Name, Memory>
    ensures { IfOk result (λ name. name ≡ defined.label_name label) }
{
    with_number(alloc, b"L", label)
}

/// A label.
pub fn label(alloc: Global, number: usize) -> Result<Stmt, Memory>
    ensures { IfOk result (λ s. stmt_of s ≡ tree.Label (defined.label_name number)) }
{
    Ok(Stmt::Label(label_name(alloc, number)?))
}
