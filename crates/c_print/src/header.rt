// A header: the declarations of the functions that other units may call.
ghost use Rattle.std.specs.Prelude.{◌≡◌, ◌++◌, codes, OnOk, IfOk};
ghost use Rattle.c_tree.specs.Trees.{each};
ghost use Rattle.c_print.specs.Header.{type_text, space_behind, next_type_text, params_text, line_text, head_text, header_text};

use c_tree::{CType, CTypes, Header, Name};
use std::alloc::Global;
use w2c_base::{Bytes, Memory};
use w2c_mangle::escape;

/// The text of a header: a comment, a guard made of the module's name, the include line and a
/// line for each function in order. The first line is that of the init function.
pub fn print_header(alloc: Global, h: &Header) -> Result<Bytes, Memory>
    ensures { IfOk result (λ text. text ≡ header_text h.now) }
{
    let module = escape(alloc, h.module.as_slice())?;
    let mut text = Bytes::new(alloc);
    put_header(&mut text, module.as_slice(), h.lines.as_slice())?;
    Ok(text)
}

fn put_header(
    text: &mut Bytes,
    module: &[u8],
    lines: &[(CType, Name, CTypes)],
) -> Result<(), Memory>
    ensures { OnOk result (text.new ≡ text.old ++ (head_text (codes "W2CZ_" ++ («module».now ++ codes "Z_H")) ++ (each line_text lines.now ++ codes "#endif\n"))) }
{
    text.extend(b"/* made by wasm2c; int has 32 bits and every character of a name counts */\n")?;
    text.extend(b"#ifndef ")?;
    put_guard(text, module)?;
    text.extend(b"\n#define ")?;
    put_guard(text, module)?;
    text.extend(b"\n#include \"w2c_rt.h\"\n")?;
    put_lines(text, lines)?;
    text.extend(b"#endif\n")
}

// The guard, by the module's escaped name.
fn put_guard(text: &mut Bytes, module: &[u8]) -> Result<(), Memory>
    ensures { OnOk result (text.new ≡ text.old ++ (codes "W2CZ_" ++ («module».now ++ codes "Z_H"))) }
{
    text.extend(b"W2CZ_")?;
    text.extend(module)?;
    text.extend(b"Z_H")
}

fn put_lines(text: &mut Bytes, lines: &[(CType, Name, CTypes)]) -> Result<(), Memory>
    ensures { OnOk result (text.new ≡ text.old ++ each line_text lines.now) }
{
    for line in lines {
        put_line(text, line)?;
    }
    Ok(())
}

fn put_line(text: &mut Bytes, line: &(CType, Name, CTypes)) -> Result<(), Memory>
    ensures { OnOk result (text.new ≡ text.old ++ line_text line.now) }
{
    text.extend(type_text(line.0))?;
    text.extend(space_behind(line.0))?;
    text.extend(line.1.as_slice())?;
    text.extend(b"(")?;
    put_params(text, line.2.as_slice())?;
    text.extend(b");\n")
}

fn put_params(text: &mut Bytes, params: &[CType]) -> Result<(), Memory>
    ensures { OnOk result (text.new ≡ text.old ++ params_text params.now) }
{
    if params.is_empty() {
        return text.extend(b"void");
    }
    text.extend(type_text(params[0]))?;
    put_more_params(text, &params[1..])
}

fn put_more_params(text: &mut Bytes, params: &[CType]) -> Result<(), Memory>
    ensures { OnOk result (text.new ≡ text.old ++ each next_type_text params.now) }
{
    for param in params {
        text.extend(b", ")?;
        text.extend(type_text(*param))?;
    }
    Ok(())
}

fn type_text(t: CType) -> &'static [u8]
    ensures { result.now ≡ type_text t }
{
    match t {
        CType::Void => b"void",
        CType::U32 => b"u32",
        CType::U64 => b"u64",
        CType::PtrU32 => b"u32 *",
        CType::PtrU64 => b"u64 *",
        CType::Mem => b"w2c_mem",
        CType::PtrMem => b"w2c_mem *",
        CType::Tab => b"w2c_tab",
        CType::PtrTab => b"w2c_tab *",
        CType::FnPtr => b"w2c_fn",
    }
}

fn space_behind(t: CType) -> &'static [u8]
    ensures { result.now ≡ space_behind t }
{
    match t {
        CType::PtrU32 | CType::PtrU64 | CType::PtrMem | CType::PtrTab => b"",
        _ => b" ",
    }
}
