// The lines of hosts and of their functions. Those of calls are written by crun_lines.
ghost use Rattle.std.specs.Prelude.{◌≡◌, ◌++◌, IfOk, OnOk};
ghost use Rattle.journal_lines.specs.Lines.{function_line, module_line, result_text, spaced_types, type_text};

use crun_lines::put_name;
use std::alloc::Global;
use w2c_base::{Bytes, FuncType, Memory, ValType};

/// The line of a host: `module` and its name.
pub fn module_line(alloc: Global, name: &[u8]) -> Result<Bytes, Memory>
    ensures { IfOk result (λ line. line ≡ module_line name.now) }
{
    let mut line = Bytes::new(alloc);
    line.extend(b"module ")?;
    put_name(alloc, &mut line, name)?;
    line.extend(b"\n")?;
    Ok(line)
}

/// The line of a function: `function`, its name, the types of its parameters, `=`, and its result type or `none`.
pub fn function_line(alloc: Global, name: &[u8], ty: &FuncType) -> Result<Bytes, Memory>
    ensures { IfOk result (λ line. line ≡ function_line name.now ty.now) }
{
    let mut line = Bytes::new(alloc);
    line.extend(b"function ")?;
    put_name(alloc, &mut line, name)?;
    put_types(&mut line, ty.params.as_slice())?;
    line.extend(b" = ")?;
    put_result(&mut line, ty.result)?;
    line.extend(b"\n")?;
    Ok(line)
}

fn put_types(line: &mut Bytes, types: &[ValType]) -> Result<(), Memory>
    ensures { OnOk result (line.new ≡ line.old ++ spaced_types types.now) }
{
    for ty in types {
        line.extend(b" ")?;
        put_type(line, *ty)?;
    }
    Ok(())
}

fn put_type(line: &mut Bytes, ty: ValType) -> Result<(), Memory>
    ensures { OnOk result (line.new ≡ line.old ++ type_text ty) }
{
    match ty {
        ValType::I32 => line.extend(b"i32"),
        ValType::I64 => line.extend(b"i64"),
    }
}

fn put_result(line: &mut Bytes, ty: Option<ValType>) -> Result<(), Memory>
    ensures { OnOk result (line.new ≡ line.old ++ result_text ty) }
{
    match ty {
        None => line.extend(b"none"),
        Some(ty) => put_type(line, ty),
    }
}
