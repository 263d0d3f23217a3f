// The bytes of what statements are made of, put behind others. A want of memory is the only error of each function here.
ghost use Rattle.std.specs.Prelude.{◌≡◌, ◌++◌, ◌<◌, ◌^◌, map, OnOk};
ghost use Rattle.c_tree.specs.View.{arg_of, callee_of, expr_of, func_type_of};
ghost use Rattle.packed_stmts.specs.Packed as packed;

use crate::codes::{op_code, type_code};
use c_tree::{Arg, Args, CFuncType, CTypes, Callee, Cases, Expr, Name, Num};
use w2c_base::{Bytes, Memory};

// Four bytes, the lowest first.
#[tactic(auto, unfolding(crate::specs::Packed::word))]
fn put_word(bytes: &mut Bytes, n: u32) -> Result<(), Memory>
    ensures { OnOk result (bytes.new ≡ bytes.old ++ packed.word n) }
{
    let a = (n % 256) as u8;
    let b = (n / 256 % 256) as u8;
    let c = (n / 256 / 256 % 256) as u8;
    let d = (n / 256 / 256 / 256) as u8;
    bytes.extend(&[a, b, c, d])
}

#[tactic(auto, unfolding(crate::specs::Packed::long))]
fn put_long(bytes: &mut Bytes, n: u64) -> Result<(), Memory>
    ensures { OnOk result (bytes.new ≡ bytes.old ++ packed.long n) }
{
    put_word(bytes, (n % 4294967296) as u32)?;
    put_word(bytes, (n / 4294967296) as u32)
}

#[tactic(auto, unfolding(crate::specs::Packed::word_code, crate::specs::Packed::narrow))]
fn put_u32(bytes: &mut Bytes, n: u32) -> Result<(), Memory>
    ensures { OnOk result (bytes.new ≡ bytes.old ++ packed.word_code n) }
{
    if n < 255 {
        bytes.push(n as u8)
    } else {
        bytes.push(255)?;
        put_word(bytes, n)
    }
}

#[tactic(auto, unfolding(crate::specs::Packed::size_code, crate::specs::Packed::narrow))]
pub(crate) fn put_u64(bytes: &mut Bytes, n: u64) -> Result<(), Memory>
    ensures { OnOk result (bytes.new ≡ bytes.old ++ packed.size_code n) }
{
    if n < 255 {
        bytes.push(n as u8)
    } else {
        bytes.push(255)?;
        put_long(bytes, n)
    }
}

#[tactic(auto, unfolding(crate::specs::Packed::name_code))]
pub(crate) fn put_name(bytes: &mut Bytes, name: &Name) -> Result<(), Memory>
    ensures { OnOk result (bytes.new ≡ bytes.old ++ packed.name_code name.now) }
{
    put_u64(bytes, name.len() as u64)?;
    bytes.extend(name.as_slice())
}

pub(crate) fn put_target(bytes: &mut Bytes, target: &Option<Name>) -> Result<(), Memory>
    ensures { OnOk result (bytes.new ≡ bytes.old ++ packed.target_code target.now) }
{
    match target {
        None => bytes.push(0),
        Some(name) => {
            bytes.push(1)?;
            put_name(bytes, name)
        }
    }
}

fn put_num(bytes: &mut Bytes, n: Num) -> Result<(), Memory>
    ensures { OnOk result (bytes.new ≡ bytes.old ++ packed.num_code n) }
{
    match n {
        Num::N32(n) => {
            bytes.push(0)?;
            put_u32(bytes, n)
        }
        Num::N64(n) => {
            bytes.push(1)?;
            put_u64(bytes, n)
        }
        Num::Plain(n) => {
            bytes.push(2)?;
            put_u64(bytes, n)
        }
    }
}

pub(crate) fn put_expr(bytes: &mut Bytes, e: &Expr) -> Result<(), Memory>
    ensures { OnOk result (bytes.new ≡ bytes.old ++ packed.expr_code (expr_of e.now)) }
{
    match e {
        Expr::Name(name) => {
            bytes.push(0)?;
            put_name(bytes, name)
        }
        Expr::At(name, index) => {
            bytes.push(1)?;
            put_name(bytes, name)?;
            put_expr(bytes, index)
        }
        Expr::Num(n) => {
            bytes.push(2)?;
            put_num(bytes, *n)
        }
        Expr::To32(inner) => {
            bytes.push(3)?;
            put_expr(bytes, inner)
        }
        Expr::To64(inner) => {
            bytes.push(4)?;
            put_expr(bytes, inner)
        }
        Expr::Star(name) => {
            bytes.push(5)?;
            put_name(bytes, name)
        }
        Expr::Op(op, left, right) => {
            bytes.extend(&[6, op_code(*op)])?;
            put_expr(bytes, left)?;
            put_expr(bytes, right)
        }
    }
}

pub(crate) fn put_arg(bytes: &mut Bytes, arg: &Arg) -> Result<(), Memory>
    ensures { OnOk result (bytes.new ≡ bytes.old ++ packed.arg_code (arg_of arg.now)) }
{
    match arg {
        Arg::Value(e) => {
            bytes.push(0)?;
            put_expr(bytes, e)
        }
        Arg::Address(name) => {
            bytes.push(1)?;
            put_name(bytes, name)
        }
        Arg::Function(name) => {
            bytes.push(2)?;
            put_name(bytes, name)
        }
    }
}

pub(crate) fn put_args(bytes: &mut Bytes, args: &Args) -> Result<(), Memory>
    ensures { OnOk result (bytes.new ≡ bytes.old ++ packed.list_code packed.arg_code (map arg_of args.now)) }
{
    put_u64(bytes, args.len() as u64)?;
    for arg in args.as_slice() {
        put_arg(bytes, arg)?;
    }
    Ok(())
}

fn put_types(bytes: &mut Bytes, types: &CTypes) -> Result<(), Memory>
    ensures { OnOk result (bytes.new ≡ bytes.old ++ packed.list_code packed.one_type_code types.now) }
{
    put_u64(bytes, types.len() as u64)?;
    for ty in types.as_slice() {
        bytes.push(type_code(*ty))?;
    }
    Ok(())
}

fn put_func_type(bytes: &mut Bytes, ty: &CFuncType) -> Result<(), Memory>
    ensures { OnOk result (bytes.new ≡ bytes.old ++ packed.func_type_code (func_type_of ty.now)) }
{
    bytes.push(type_code(ty.result))?;
    put_types(bytes, &ty.params)
}

pub(crate) fn put_callee(bytes: &mut Bytes, callee: &Callee) -> Result<(), Memory>
    ensures { OnOk result (bytes.new ≡ bytes.old ++ packed.callee_code (callee_of callee.now)) }
{
    match callee {
        Callee::Named(name) => {
            bytes.push(0)?;
            put_name(bytes, name)
        }
        Callee::Through(ty, name) => {
            bytes.push(1)?;
            put_func_type(bytes, ty)?;
            put_name(bytes, name)
        }
    }
}

pub(crate) fn put_cases(bytes: &mut Bytes, cases: &Cases) -> Result<(), Memory>
    ensures { OnOk result (bytes.new ≡ bytes.old ++ packed.list_code packed.case_code cases.now) }
{
    put_u64(bytes, cases.len() as u64)?;
    for case in cases.as_slice() {
        put_num(bytes, case.0)?;
        put_name(bytes, &case.1)?;
    }
    Ok(())
}
