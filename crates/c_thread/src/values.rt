// The values of expressions and arguments where names hold pointers too.
ghost use Rattle.std.specs.Prelude.{◌≡◌, map, option_copied, option_map, IfOk};
ghost use Rattle.w2c_base.specs.Values.{number_of};
ghost use Rattle.c_tree.specs.Tree as tree;
ghost use Rattle.c_tree.specs.View.{arg_of, expr_of};
ghost use Rattle.c_meaning.specs.State.{found, then_evaluate, Machine, Running};
ghost use Rattle.c_meaning.specs.Linking.{Program};
ghost use Rattle.c_meaning.specs.Step.{element as element_of, evaluate as evaluate_of, evaluate_arg as evaluate_arg_of, evaluate_args as evaluate_args_of, number_in, value_of};
ghost use Rattle.c_objects.specs.Views.{value_of as held_of, Naming};
ghost use Rattle.c_machine.specs.Scope.{evaluated};
ghost use Rattle.c_thread.specs.Sights.{all_evaluated, held_evaluated, sight_of, Sees};

use crate::scope::UnitScope;
use c_machine::{Fault, constant, low_half, operate, widened};
use c_objects::Held;
use c_tree::{Arg, Expr};
use std::alloc::Global;
use w2c_base::{Memory, Value};

// The kinds of what is undefined.
const INDEX_PAST_THE_COUNT: u32 = 3;

const NULL_POINTER: u32 = 4;

/// The value of an expression (C11, 6.5). The left operand is evaluated first.
pub fn value(scope: &UnitScope<'_>, e: &Expr) -> Result<Value, Fault>
    ensures { (names : Naming) (p : Program) (m : Machine) (r : Running) → Sees names (sight_of scope.now) p m r
        → evaluated result ≡ evaluate_of p m r (expr_of e.now) }
{
    match e {
        Expr::Name(name) => number_named(scope, name.as_slice()),
        Expr::At(name, index) => {
            let index = value(scope, index)?;
            element(scope.bytes(name.as_slice()), index)
        }
        Expr::Num(number) => constant(*number),
        Expr::To32(inner) => Ok(low_half(value(scope, inner)?)),
        Expr::To64(inner) => Ok(widened(value(scope, inner)?)),
        Expr::Star(name) => pointed(scope, name.as_slice()),
        Expr::Op(op, left, right) => {
            let x = value(scope, left)?;
            let y = value(scope, right)?;
            operate(*op, x, y)
        }
    }
}

fn number_named(scope: &UnitScope<'_>, name: &[u8]) -> Result<Value, Fault>
    ensures { (names : Naming) (p : Program) (m : Machine) (r : Running) → Sees names (sight_of scope.now) p m r
        → evaluated result ≡ number_in (value_of m r name.now) }
{
    number(scope.held(name))
}

// A number, where a variable holds one.
fn number(held: Option<Held>) -> Result<Value, Fault>
    ensures { (names : Naming) → evaluated result ≡ number_in (option_map (held_of names) held) }
{
    match held {
        Some(Held::Number(value)) => Ok(value),
        Some(Held::Pointer(_)) => Err(Fault::NoRule),
        Some(Held::FuncPointer(_)) => Err(Fault::NoRule),
        None => Err(Fault::NoRule),
    }
}

// An element of an array.
fn element(bytes: Option<&[u8]>, index: Value) -> Result<Value, Fault>
    ensures { evaluated result ≡ then_evaluate (found (option_copied bytes.entry)) (λ bs. element_of bs (number_of index)) }
{
    let Some(bytes) = bytes else {
        return Err(Fault::NoRule);
    };
    let index = match index {
        Value::I32(n) => u64::from(n),
        Value::I64(n) => n,
    };
    match bytes.get(index as usize) {
        Some(byte) => Ok(Value::I32(u32::from(*byte))),
        None => Err(Fault::Undefined(INDEX_PAST_THE_COUNT)),
    }
}

// The number that a pointer points to (6.5.3.2).
fn pointed(scope: &UnitScope<'_>, name: &[u8]) -> Result<Value, Fault>
    ensures { (names : Naming) (p : Program) (m : Machine) (r : Running) → Sees names (sight_of scope.now) p m r
        → evaluated result ≡ evaluate_of p m r (tree.Star name.now) }
{
    match scope.held(name) {
        Some(Held::Pointer(Some(at))) => number(scope.var(at)),
        Some(Held::Pointer(None)) => Err(Fault::Undefined(NULL_POINTER)),
        Some(Held::Number(_)) => Err(Fault::NoRule),
        Some(Held::FuncPointer(_)) => Err(Fault::NoRule),
        None => Err(Fault::NoRule),
    }
}

/// The value of an argument or a right side. A name alone may hold a pointer.
pub fn held_by(scope: &UnitScope<'_>, arg: &Arg) -> Result<Held, Fault>
    ensures { (names : Naming) (p : Program) (m : Machine) (r : Running) → Sees names (sight_of scope.now) p m r
        → held_evaluated names result ≡ evaluate_arg_of p m r (arg_of arg.now) }
{
    match arg {
        Arg::Value(e) => match e {
            Expr::Name(name) => scope.held(name.as_slice()).ok_or(Fault::NoRule),
            Expr::At(_, _)
            | Expr::Num(_)
            | Expr::To32(_)
            | Expr::To64(_)
            | Expr::Star(_)
            | Expr::Op(_, _, _) => Ok(Held::Number(value(scope, e)?)),
        },
        Arg::Address(name) => match scope.object(name.as_slice()) {
            Some(at) => Ok(Held::Pointer(Some(at))),
            None => Err(Fault::NoRule),
        },
        Arg::Function(name) => match scope.func(name.as_slice()) {
            Some(func) => Ok(Held::FuncPointer(Some(func))),
            None => Err(Fault::NoRule),
        },
    }
}

/// The values of arguments, from left to right.
pub fn held_by_all(
    alloc: Global,
    scope: &UnitScope<'_>,
    args: &[Arg],
) -> Result<Result<Vec<Held>, Fault>, Memory>
    ensures { IfOk result (λ values. (names : Naming) (p : Program) (m : Machine) (r : Running) → Sees names (sight_of scope.now) p m r
        → evaluate_args_of p m r (map arg_of args.now) ≡ all_evaluated names (λ vs. vs.items) values) }
{
    let mut values = Vec::new(alloc);
    for arg in args {
        match held_by(scope, arg) {
            Ok(value) => values.push(value)?,
            Err(fault) => return Ok(Err(fault)),
        }
    }
    Ok(Ok(values))
}
