// Instructions and expressions (WebAssembly Core 1.0, 5.4; Core 2.0, 5.4.6).
ghost use Rattle.std.specs.Prelude.{◌≡◌, ℕ};
ghost use Rattle.wasm_tree.specs.Views.{kind_tree};
ghost use Rattle.wasm_tree.specs.Parts.{parts_of};
ghost use Rattle.wasm_tree.specs.declared.operators.Parts.TheVariants.{Other};
ghost use Rattle.wasm_spelling.specs.ModuleFields.{code_fields, instr_fields, expression as expression_fields};
ghost use Rattle.wasm_writing.specs.Drafts.{Puts};
ghost use Rattle.wasm_writing.specs.Codes.{mem_arg as mem_arg_fields, block_fields, if_fields};

use crate::draft::Draft;
use crate::types::block_type;
use crate::vectors::vector;
use w2c_base::{BLOCK_DEPTH, ValType};
use wasm_tree::{
    BLOCK, BR_TABLE, CALL_INDIRECT, Code, ElsePart, I32_CONST, I64_CONST, IF, Kind, LOOP,
    MEMORY_COPY, MEMORY_FILL, MEMORY_GROW, MEMORY_SIZE, MemArg, Op, PREFIX, Parts,
};

fn mem_arg(arg: MemArg, draft: &mut Draft)
    ensures { Puts (mem_arg_fields arg) draft.old draft.new }
{
    draft.number(arg.align);
    draft.number(arg.offset);
}

/// Puts the instructions of a list, where so many blocks may still be opened. Blocks inside blocks are followed as
/// far as that and no further.
#[cycle(code)]
pub fn instructions(code: &Code, room: u32, draft: &mut Draft)
    ensures { Puts (code_fields room code.now) draft.old draft.new }
{
    for instr in code.as_slice() {
        instruction(&instr.kind, room, draft);
    }
}

#[cycle(code)]
fn instruction(kind: &Kind, room: u32, draft: &mut Draft)
    ensures { Puts (instr_fields room (kind_tree kind.now)) draft.old draft.new }
{
    match kind.parts() {
        Parts::Simple(op) => draft.byte(Op::Simple(op).opcode()),
        Parts::Index(op, index) => {
            draft.byte(Op::Index(op).opcode());
            draft.number(index);
        }
        Parts::Access(op, arg) => {
            draft.byte(Op::Access(op).opcode());
            mem_arg(arg, draft);
        }
        Parts::Numeric(op) => draft.byte(Op::Numeric(op).opcode()),
        Parts::Other => other(kind, room, draft),
    }
}

/// Puts an instruction that has immediates of its own.
#[cycle(code)]
fn other(kind: &Kind, room: u32, draft: &mut Draft)
    requires { parts_of (kind_tree kind.now) ≡ Other }
    ensures { Puts (instr_fields room (kind_tree kind.now)) draft.old draft.new }
{
    match kind {
        Kind::Block { result, code, .. } => block(BLOCK, *result, code, room, draft),
        Kind::Loop { result, code, .. } => block(LOOP, *result, code, room, draft),
        Kind::If {
            result,
            code,
            otherwise,
            ..
        } => match otherwise {
            None => block(IF, *result, code, room, draft),
            Some(part) => branches(*result, code, part, room, draft),
        },
        Kind::BrTable(labels, default) => {
            draft.byte(BR_TABLE);
            vector(labels.as_slice(), draft);
            draft.number(*default);
        }
        Kind::CallIndirect(type_index) => {
            draft.byte(CALL_INDIRECT);
            draft.number(*type_index);
            draft.number(0);
        }
        Kind::MemorySize => {
            draft.byte(MEMORY_SIZE);
            draft.byte(0x00);
        }
        Kind::MemoryGrow => {
            draft.byte(MEMORY_GROW);
            draft.byte(0x00);
        }
        Kind::MemoryCopy => {
            draft.byte(PREFIX);
            draft.number(MEMORY_COPY);
            draft.byte(0x00);
            draft.byte(0x00);
        }
        Kind::MemoryFill => {
            draft.byte(PREFIX);
            draft.number(MEMORY_FILL);
            draft.byte(0x00);
        }
        Kind::I32Const(n) => {
            draft.byte(I32_CONST);
            draft.signed32(*n);
        }
        Kind::I64Const(n) => {
            draft.byte(I64_CONST);
            draft.signed64(*n);
        }
        _ => {}
    }
}

/// Puts a block of one piece of code, with its opcode.
#[cycle(code)]
fn block(opcode: u8, ty: Option<ValType>, code: &Code, room: u32, draft: &mut Draft)
    ensures { (end_place : ℕ) → Puts (block_fields room opcode ty code.now end_place) draft.old draft.new }
{
    draft.byte(opcode);
    if room == 0 {
        return draft.refuse();
    }
    block_type(ty, draft);
    instructions(code, room - 1, draft);
    draft.byte(0x0b);
}

/// Puts an `if` with both branches.
#[cycle(code)]
fn branches(ty: Option<ValType>, first: &Code, second: &ElsePart, room: u32, draft: &mut Draft)
    ensures { (else_place end_place : ℕ) → Puts (if_fields room ty first.now second.now.code else_place end_place) draft.old draft.new }
{
    draft.byte(IF);
    if room == 0 {
        return draft.refuse();
    }
    block_type(ty, draft);
    instructions(first, room - 1, draft);
    draft.byte(0x05);
    instructions(&second.code, room - 1, draft);
    draft.byte(0x0b);
}

/// Puts instructions and the end.
pub fn expression(code: &Code, draft: &mut Draft)
    ensures { Puts (expression_fields code.now) draft.old draft.new }
{
    instructions(code, BLOCK_DEPTH, draft);
    draft.byte(0x0b);
}
