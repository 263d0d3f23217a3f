// The lines of variables and of elements of tables, and the first lines of memories and tables.
ghost use Rattle.std.specs.Prelude.{◌≡◌, ◌++◌, IfOk, OnOk};
ghost use Rattle.crun_lines.specs.StateLines.{element_line, held_text, length_line, object_text, pages_line, variable_line};
ghost use Rattle.crun_lines.specs.Views.{owned_text};

use crate::words::{put_name, put_number};
use lin_mem::LinMem;
use std::alloc::Global;
use w2c_base::{Bytes, Memory, Value};

/// A function that an element of a table names: one of a unit by its name in C, or one of a host by its
/// name, with the number of the unit or the host.
#[derive(Clone, Copy)]
pub enum Function<'a> {
    OfUnit(usize, &'a [u8]),
    OfHost(usize, &'a [u8]),
}

/// The line of a variable that holds a number.
pub fn variable_line(alloc: Global, unit: usize, name: &[u8], value: Value) -> Result<Bytes, Memory>
    ensures { IfOk result (λ line. line ≡ variable_line unit name.now value) }
{
    let mut line = Bytes::new(alloc);
    put_object(&mut line, unit, name)?;
    put_held(&mut line, value)?;
    line.extend(b"\n")?;
    Ok(line)
}

/// The first line of a memory, with the number of its pages.
pub fn pages_line(alloc: Global, unit: usize, name: &[u8], memory: &LinMem) -> Result<Bytes, Memory>
    ensures { IfOk result (λ line. line ≡ pages_line unit name.now memory.now.bytes) }
{
    let mut line = Bytes::new(alloc);
    put_object(&mut line, unit, name)?;
    line.extend(b"pages ")?;
    put_number(&mut line, u64::from(memory.pages()))?;
    line.extend(b"\n")?;
    Ok(line)
}

/// The first line of a table, with the number of its elements.
pub fn length_line(alloc: Global, unit: usize, name: &[u8], count: usize) -> Result<Bytes, Memory>
    ensures { IfOk result (λ line. line ≡ length_line unit name.now count) }
{
    let mut line = Bytes::new(alloc);
    put_object(&mut line, unit, name)?;
    line.extend(b"length ")?;
    put_number(&mut line, count as u64)?;
    line.extend(b"\n")?;
    Ok(line)
}

/// The line of an element that is not empty, by its place in the table, with the signature number.
pub fn element_line(
    alloc: Global,
    unit: usize,
    name: &[u8],
    at: usize,
    function: Function,
    signature: u64,
) -> Result<Bytes, Memory>
    ensures { IfOk result (λ line. line ≡ element_line unit name.now at (owned_text function.entry) signature) }
{
    let mut line = Bytes::new(alloc);
    put_object(&mut line, unit, name)?;
    line.extend(b"at ")?;
    put_number(&mut line, at as u64)?;
    put_function(alloc, &mut line, function)?;
    line.extend(b" ")?;
    put_number(&mut line, signature)?;
    line.extend(b"\n")?;
    Ok(line)
}

pub(crate) fn put_object(line: &mut Bytes, unit: usize, name: &[u8]) -> Result<(), Memory>
    ensures { OnOk result (line.new ≡ line.old ++ object_text unit name.now) }
{
    line.extend(b"state ")?;
    put_number(line, unit as u64)?;
    line.extend(b" ")?;
    line.extend(name)?;
    line.extend(b" ")
}

fn put_held(line: &mut Bytes, value: Value) -> Result<(), Memory>
    ensures { OnOk result (line.new ≡ line.old ++ held_text value) }
{
    match value {
        Value::I32(number) => {
            line.extend(b"u32:")?;
            put_number(line, u64::from(number))
        }
        Value::I64(number) => {
            line.extend(b"u64:")?;
            put_number(line, number)
        }
    }
}

fn put_function(alloc: Global, line: &mut Bytes, function: Function) -> Result<(), Memory>
    ensures { OnOk result (line.new ≡ line.old ++ owned_text function.entry) }
{
    match function {
        Function::OfUnit(unit, name) => {
            line.extend(b" unit ")?;
            put_number(line, unit as u64)?;
            line.extend(b" ")?;
            line.extend(name)
        }
        Function::OfHost(host, name) => {
            line.extend(b" host ")?;
            put_number(line, host as u64)?;
            line.extend(b" ")?;
            put_name(alloc, line, name)
        }
    }
}
