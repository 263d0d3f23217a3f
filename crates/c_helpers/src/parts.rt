// What single pieces make: names of one letter, numbers, casts, and accesses.
ghost use Rattle.std.specs.Prelude.{◌≡◌, ◌<◌, ◌-◌, ◌^◌, IfOk};
ghost use Rattle.w2c_base.specs.Values.{bits};
ghost use Rattle.c_tree.specs.View.{expr_of};
ghost use Rattle.c_helpers.specs.Pieces as made;

use crate::piece::{Cast, Number, Setting};
use c_tree::{Expr, Name, Primitive, Width, name_of, to_32, to_64};
use std::alloc::Global;
use w2c_base::{Memory, ValType};

/// A name of one letter.
pub fn letter(alloc: Global, c: u8) -> Result<Name, Memory>
    ensures { IfOk result (λ name. name ≡ made.letter c) }
{
    name_of(alloc, &[c])
}

fn bits_of(ty: ValType) -> u32
    ensures { result ≡ bits ty }
{
    match ty {
        ValType::I32 => 32,
        ValType::I64 => 64,
    }
}

// All bits.
fn greatest(ty: ValType) -> u64
    ensures { result ≡ 2 ^ bits ty - 1 }
{
    match ty {
        ValType::I32 => u32::MAX as u64,
        ValType::I64 => u64::MAX,
    }
}

// The highest bit.
fn half(ty: ValType) -> u64
    ensures { result ≡ 2 ^ (bits ty - 1) }
{
    match ty {
        ValType::I32 => 2_147_483_648,
        ValType::I64 => 9_223_372_036_854_775_808,
    }
}

// 2 to a power, or 0 where the type has no such number.
fn power(ty: ValType, k: u32) -> u64
    ensures value { result ≡ made.power ty k }
    ensures fits { result < 2 ^ bits ty }
{
    if k < bits_of(ty) { 1u64 << k } else { 0 }
}

/// The number that is meant in a setting.
pub fn number_in(setting: Setting, n: Number) -> u64
    ensures value { result ≡ made.number_in setting.ty setting.size n }
    ensures fits { result < 2 ^ bits setting.ty }
{
    let ty = setting.ty;
    let size = setting.size;
    match n {
        Number::Zero => 0,
        Number::One => 1,
        Number::Bits => bits_of(ty) as u64,
        Number::Half => half(ty),
        Number::Greatest => greatest(ty),
        Number::Size => size as u64,
        Number::Block => power(ty, size),
        Number::Sign => power(ty, size.saturating_sub(1)),
        Number::High => power(ty, bits_of(ty).saturating_sub(size)),
        Number::Mask => greatest(ty) / (power(ty, size) + 1),
        Number::EachByte => greatest(ty) / 255,
        Number::Bytes => (size / 8) as u64,
        Number::Page => 65_536,
    }
}

/// An expression in another type.
pub fn cast_to(alloc: Global, setting: Setting, cast: Cast, e: Expr) -> Result<Expr, Memory>
    ensures { IfOk result (λ out. expr_of out ≡ made.cast_to setting.ty setting.size cast (expr_of e)) }
{
    match (cast, setting.ty) {
        (Cast::To32, _) => to_32(alloc, e),
        (Cast::To64, _) => to_64(alloc, e),
        (Cast::Flag, ValType::I32) => to_32(alloc, e),
        (Cast::Flag, ValType::I64) => to_64(alloc, to_32(alloc, e)?),
        (Cast::Widen, ValType::I32) => Ok(e),
        (Cast::Widen, ValType::I64) => to_64(alloc, e),
        (Cast::Narrow, ValType::I32) => Ok(e),
        (Cast::Narrow, ValType::I64) if setting.size < 64 => to_32(alloc, e),
        (Cast::Narrow, ValType::I64) => Ok(e),
    }
}

/// The name of the runtime's function that reads so many bits.
pub fn get_name(size: u32) -> &'static [u8]
    ensures { result.now ≡ made.get_name size }
{
    match size {
        8 => Primitive::Get(Width::One).name(),
        16 => Primitive::Get(Width::Two).name(),
        32 => Primitive::Get(Width::Four).name(),
        _ => Primitive::Get(Width::Eight).name(),
    }
}

/// The name of the runtime's function that writes so many bits.
pub fn put_name(size: u32) -> &'static [u8]
    ensures { result.now ≡ made.put_name size }
{
    match size {
        8 => Primitive::Put(Width::One).name(),
        16 => Primitive::Put(Width::Two).name(),
        32 => Primitive::Put(Width::Four).name(),
        _ => Primitive::Put(Width::Eight).name(),
    }
}
