// Types (WebAssembly Core 1.0, 5.3).
ghost use Rattle.std.specs.Prelude.{◌≡◌};
ghost use Rattle.wasm_spelling.specs.Fields.{byte};
ghost use Rattle.wasm_spelling.specs.ModuleFields.{type_code as type_code_of, block_type_code, mutability_code, func_type as func_type_fields, limits as limits_fields, table_type as table_fields, memory_type as memory_fields};
ghost use Rattle.wasm_writing.specs.Drafts.{Puts};

use crate::draft::Draft;
use crate::vectors::{Entry, count, short_vector};
use w2c_base::{FuncType, MEMORY_PAGES, PARAMETERS, RESULTS, TABLE_LENGTH, ValType};
use wasm_tree::Limits;

fn type_code(ty: ValType) -> u8
    ensures { result ≡ type_code_of ty }
{
    match ty {
        ValType::I32 => 0x7f,
        ValType::I64 => 0x7e,
    }
}

/// Puts the type of a block.
pub fn block_type(ty: Option<ValType>, draft: &mut Draft)
    ensures { Puts (byte (block_type_code ty)) draft.old draft.new }
{
    match ty {
        None => draft.byte(0x40),
        Some(result) => result.put(draft),
    }
}

/// Puts whether a global is mutable.
pub fn mutability(mutable: bool, draft: &mut Draft)
    ensures { Puts (byte (mutability_code mutable)) draft.old draft.new }
{
    draft.byte(u8::from(mutable));
}

impl Entry for ValType {
    ghost use Rattle.wasm_spelling.specs.ModuleFields.{value_type};

    ghost fields = { value_type };

    fn put(&self, draft: &mut Draft) {
        draft.byte(type_code(*self));
    }
}

/// Puts a function type.
pub fn func_type(ty: &FuncType, draft: &mut Draft)
    ensures { Puts (func_type_fields ty.now) draft.old draft.new }
{
    draft.byte(0x60);
    short_vector(PARAMETERS, ty.params.as_slice(), draft);
    match ty.result {
        None => {
            count(0, draft);
            draft.check(0 <= RESULTS);
        }
        Some(result) => {
            count(1, draft);
            draft.check(1 <= RESULTS);
            result.put(draft);
        }
    }
}

/// Puts limits of which the least is at most so much.
fn limits(most: u32, limits: &Limits, draft: &mut Draft)
    ensures { Puts (limits_fields most limits.now) draft.old draft.new }
{
    match limits.max {
        None => {
            draft.byte(0x00);
            draft.number(limits.min);
            draft.check(limits.min <= most);
        }
        Some(max) => {
            draft.byte(0x01);
            draft.number(limits.min);
            draft.check(limits.min <= most);
            draft.number(max);
        }
    }
}

/// Puts the type of a table.
pub fn table_type(table: &Limits, draft: &mut Draft)
    ensures { Puts (table_fields table.now) draft.old draft.new }
{
    draft.byte(0x70);
    limits(TABLE_LENGTH, table, draft);
}

/// Puts the type of a memory.
pub fn memory_type(memory: &Limits, draft: &mut Draft)
    ensures { Puts (memory_fields memory.now) draft.old draft.new }
{
    limits(MEMORY_PAGES, memory, draft);
}
