// Types and limits (WebAssembly Core 1.0, 5.3).
ghost use Rattle.wasm_spelling.specs.Steps.{checked, byte_at, flag_of};
ghost use Rattle.wasm_spelling.specs.Reading.{type_at, block_type_at, kind_at, limits_at, memory_type_at, table_type_at};
ghost use Rattle.wasm_binary.specs.View.{Gives, at, seen};

use crate::fields::{byte, exactly, limited, number};
use crate::rest::Rest;
use w2c_base::{MEMORY_PAGES, TABLE_LENGTH, ValType};
use wasm_spelling::{Cause, ReadFault, Which};
use wasm_tree::{ExportKind, Limits};

#[tactic(auto, unfolding(wasm_spelling::specs::Steps::checked, wasm_spelling::specs::Reading::type_at))]
pub fn value_type(rest: Rest) -> Result<(ValType, Rest), ReadFault>
    ensures { Gives seen result (type_at (at rest.entry)) }
{
    let place = rest.place;
    let (code, rest) = byte(rest)?;
    match code {
        0x7f => Ok((ValType::I32, rest)),
        0x7e => Ok((ValType::I64, rest)),
        0x7c | 0x7d => Err(ReadFault::Float(place)),
        _ => Err(ReadFault::Malformed(place, Cause::BadTypeCode)),
    }
}

#[tactic(auto, unfolding(wasm_spelling::specs::Steps::checked, wasm_spelling::specs::Reading::block_type_at))]
pub fn block_type(rest: Rest) -> Result<(Option<ValType>, Rest), ReadFault>
    ensures { Gives seen result (block_type_at (at rest.entry)) }
{
    let place = rest.place;
    let (code, rest) = byte(rest)?;
    match code {
        0x40 => Ok((None, rest)),
        0x7f => Ok((Some(ValType::I32), rest)),
        0x7e => Ok((Some(ValType::I64), rest)),
        0x7c | 0x7d => Err(ReadFault::Float(place)),
        _ => Err(ReadFault::Malformed(place, Cause::BadTypeCode)),
    }
}

/// A byte that says no or yes: whether a global may be set, or whether limits have a maximum.
#[tactic(auto, unfolding(wasm_spelling::specs::Steps::checked))]
pub fn flag(cause: Cause, rest: Rest) -> Result<(bool, Rest), ReadFault>
    ensures { Gives seen result (checked byte_at (flag_of cause) (at rest.entry)) }
{
    let place = rest.place;
    let (code, rest) = byte(rest)?;
    match code {
        0x00 => Ok((false, rest)),
        0x01 => Ok((true, rest)),
        _ => Err(ReadFault::Malformed(place, cause)),
    }
}

/// What is imported or exported.
#[tactic(auto, unfolding(wasm_spelling::specs::Steps::checked, wasm_spelling::specs::Reading::kind_at))]
pub fn kind(rest: Rest) -> Result<(ExportKind, Rest), ReadFault>
    ensures { Gives seen result (kind_at (at rest.entry)) }
{
    let place = rest.place;
    let (code, rest) = byte(rest)?;
    match code {
        0x00 => Ok((ExportKind::Func, rest)),
        0x01 => Ok((ExportKind::Table, rest)),
        0x02 => Ok((ExportKind::Memory, rest)),
        0x03 => Ok((ExportKind::Global, rest)),
        _ => Err(ReadFault::Malformed(place, Cause::BadKind)),
    }
}

/// Limits whose minimum is at most so much.
#[tactic(auto, unfolding(wasm_spelling::specs::Steps::reads, wasm_spelling::specs::Reading::limits_at, wasm_spelling::specs::Reading::flag_at, wasm_spelling::specs::Reading::maximum_at))]
fn limits(most: u32, which: Which, rest: Rest) -> Result<(Limits, Rest), ReadFault>
    ensures { Gives seen result (limits_at most which (at rest.entry)) }
{
    let place = rest.place;
    let (has_maximum, rest) = flag(Cause::BadLimitsFlag, rest)?;
    let (min, rest) = limited(most, which, rest)?;
    if !has_maximum {
        let max = None;
        return Ok((Limits { min, max, place }, rest));
    }
    let (max, rest) = number(rest)?;
    let max = Some(max);
    Ok((Limits { min, max, place }, rest))
}

#[tactic(auto, unfolding(wasm_spelling::specs::Reading::memory_type_at))]
pub fn memory_type(rest: Rest) -> Result<(Limits, Rest), ReadFault>
    ensures { Gives seen result (memory_type_at (at rest.entry)) }
{
    limits(MEMORY_PAGES, Which::MemoryPages, rest)
}

#[tactic(auto, unfolding(wasm_spelling::specs::Steps::reads, wasm_spelling::specs::Reading::table_type_at))]
pub fn table_type(rest: Rest) -> Result<(Limits, Rest), ReadFault>
    ensures { Gives seen result (table_type_at (at rest.entry)) }
{
    let rest = exactly(0x70, Cause::BadElementType, rest)?;
    limits(TABLE_LENGTH, Which::TableLength, rest)
}
