// Instructions and expressions (WebAssembly Core 1.0, 5.4; Core 2.0, 5.4.6, for the byte FC).
ghost use Rattle.std.specs.Prelude.{◌≡◌, ◌==◌, ◌&&◌, Result, Some, false, true, option_map, IfSome};
ghost use Rattle.wasm_tree.specs.Instructions.{Kind as Tree, BrTable, CallIndirect};
ghost use Rattle.wasm_tree.specs.Views.{kind_tree};
ghost use Rattle.wasm_tree.specs.InstructionTable.{labels, nothing, a_type, a_sub_opcode, prefixed_of, row_of};
ghost use Rattle.wasm_tree.specs.Forms.{form_in};
ghost use Rattle.wasm_spelling.specs.declared.fault.ReadFault.{ReadFault as Fault};
ghost use Rattle.wasm_spelling.specs.At.{At};
ghost use Rattle.wasm_spelling.specs.Steps.{is_float as is_float_of};
ghost use Rattle.wasm_spelling.specs.Reading.{form_at, ender_place, item_at, block_at, code_at, expression_at};
ghost use Rattle.wasm_binary.specs.View.{Gives, at, seen, kept};
ghost use Rattle.wasm_binary.specs.Opcodes.{op_form, plain_at, fault_of, prefixed_row, alone_tree};
ghost use Rattle.wasm_binary.specs.Enders.{as_kind, as_item, as_one, as_code, ender_of, head_of_opener, opener_head, takes_else, ended_block, opened_at};

use crate::fields::{byte, exactly, number, signed32, signed64};
use crate::rest::Rest;
use crate::types::block_type;
use crate::vectors::{Entry, times, vector};
use std::alloc::Global;
use w2c_base::{BLOCK_DEPTH, ValType};
use wasm_spelling::{Cause, ReadFault, Which};
use wasm_tree::{
    BLOCK, BR_TABLE, CALL_INDIRECT, Code, ElsePart, I32_CONST, I64_CONST, IF, Instr, Kind, LOOP,
    MEMORY_COPY, MEMORY_FILL, MEMORY_GROW, MEMORY_SIZE, MemArg, Numeric, Op, PREFIX, Simple,
};

/// What closes instructions, with its place.
#[derive(Clone, Copy)]
pub enum Ender {
    End(u32),
    Else(u32),
}

fn is_float(opcode: u8) -> bool
    ensures { result ≡ is_float_of opcode }
{
    matches!(
        opcode,
        0x2a | 0x2b | 0x38 | 0x39 | 0x43 | 0x44 | 0x5b..=0x66 | 0x8b..=0xa6 | 0xa8..=0xab | 0xae..=0xbf
    )
}

/// The fault of an opcode that begins no instruction.
fn no_instruction(place: u32, opcode: u8) -> ReadFault
    ensures { result ≡ fault_of place opcode }
{
    if is_float(opcode) {
        ReadFault::Float(place)
    } else {
        ReadFault::Malformed(place, Cause::BadOpcode)
    }
}

#[tactic(auto, unfolding(wasm_spelling::specs::Steps::reads, wasm_spelling::specs::Reading::form_at))]
fn branch_table(alloc: Global, rest: Rest) -> Result<(Kind, Rest), ReadFault>
    ensures { Gives as_kind result (form_at (labels BrTable) (at rest.entry)) }
{
    let (targets, rest) = vector::<u32>(alloc, rest)?;
    match number(rest) {
        Ok((default, rest)) => Ok((Kind::BrTable(targets, default), rest)),
        Err(fault) => Err(fault),
    }
}

#[tactic(auto, unfolding(wasm_spelling::specs::Steps::reads, wasm_spelling::specs::Steps::checked, wasm_spelling::specs::Reading::form_at, wasm_spelling::specs::Reading::zero_at))]
fn indirect_call(rest: Rest) -> Result<(Kind, Rest), ReadFault>
    ensures { Gives as_kind result (form_at (a_type CallIndirect) (at rest.entry)) }
{
    let (type_index, rest) = number(rest)?;
    let place = rest.place;
    let (table, rest) = number(rest)?;
    if table != 0 {
        return Err(ReadFault::Malformed(place, Cause::ZeroByteExpected));
    }
    Ok((Kind::CallIndirect(type_index), rest))
}

/// A byte 00 behind an opcode or a sub-opcode.
struct ZeroByte;

impl Entry for ZeroByte {
    ghost use Rattle.wasm_spelling.specs.declared.fault.Cause.TheVariants.{ZeroByteExpected};
    ghost use Rattle.wasm_spelling.specs.Reading.{exactly_at};

    type Item = ();

    ghost reading = { exactly_at 0x00 ZeroByteExpected };

    fn read(_alloc: Global, rest: Rest) -> Result<(Self::Item, Rest), ReadFault> {
        let rest = exactly(0x00, Cause::ZeroByteExpected, rest)?;
        Ok(((), rest))
    }
}

/// A value, where what stands behind it says nothing more.
fn behind<T: Drop, U: Drop>(
    value: T,
    read: Result<(U, Rest), ReadFault>,
) -> Result<(T, Rest), ReadFault>
    ensures { (given : Result (U × At) Fault) → Gives seen read.entry given → Gives seen result (kept value given) }
{
    match read {
        Ok((_, rest)) => Ok((value, rest)),
        Err(fault) => Err(fault),
    }
}

/// An instruction whose opcode is the byte FC, and how many bytes 00 stand behind its sub-opcode.
#[derive(Drop)]
struct Prefixed {
    kind: Kind,
    zeros: u32,
}

/// The instruction of a sub-opcode.
fn by_sub_opcode(sub_opcode: u32) -> Option<Prefixed>
    ensures { option_map (prefixed_row sub_opcode) result ≡ prefixed_of sub_opcode }
{
    match sub_opcode {
        MEMORY_COPY => Some(Prefixed {
            kind: Kind::MemoryCopy,
            zeros: 2,
        }),
        MEMORY_FILL => Some(Prefixed {
            kind: Kind::MemoryFill,
            zeros: 1,
        }),
        _ => None,
    }
}

/// The instruction behind the byte FC: a sub-opcode, and as many bytes 00 as its row says.
#[tactic(auto, unfolding(wasm_spelling::specs::Steps::reads, wasm_spelling::specs::Steps::checked, wasm_spelling::specs::Reading::form_at))]
fn with_sub_opcode(alloc: Global, rest: Rest) -> Result<(Kind, Rest), ReadFault>
    ensures { Gives as_kind result (form_at a_sub_opcode (at rest.entry)) }
{
    let place = rest.place;
    let (sub_opcode, rest) = number(rest)?;
    match by_sub_opcode(sub_opcode) {
        None => Err(ReadFault::Malformed(place, Cause::BadOpcode)),
        Some(found) => {
            let zeros = times::<ZeroByte>(alloc, found.zeros, rest);
            behind(found.kind, zeros)
        }
    }
}

/// The instruction of an operator.
#[tactic(auto, unfolding(wasm_spelling::specs::Steps::reads, wasm_spelling::specs::Reading::form_at, wasm_spelling::specs::Reading::mem_arg_at))]
fn with_operator(op: Op, rest: Rest) -> Result<(Kind, Rest), ReadFault>
    ensures { Gives as_kind result (form_at (op_form op) (at rest.entry)) }
{
    match op {
        Op::Simple(op) => Ok((op.kind(), rest)),
        Op::Index(op) => match number(rest) {
            Ok((index, rest)) => Ok((op.kind(index), rest)),
            Err(fault) => Err(fault),
        },
        Op::Access(op) => {
            let (align, rest) = number(rest)?;
            match number(rest) {
                Ok((offset, rest)) => Ok((op.kind(MemArg { align, offset }), rest)),
                Err(fault) => Err(fault),
            }
        }
        Op::Numeric(op) => Ok((op.kind(), rest)),
    }
}

/// The instruction of an opcode, which opens no block and closes none.
#[tactic(auto, using(crate::proofs::Instructions::none_fails))]
fn instruction(alloc: Global, place: u32, opcode: u8, rest: Rest) -> Result<(Kind, Rest), ReadFault>
    ensures { Gives as_kind result (plain_at place opcode (at rest.entry)) }
{
    match Op::of_opcode(opcode) {
        Some(op) => with_operator(op, rest),
        None => match opcode {
            BR_TABLE => branch_table(alloc, rest),
            CALL_INDIRECT => indirect_call(rest),
            MEMORY_SIZE => behind(Kind::MemorySize, ZeroByte::read(alloc, rest)),
            MEMORY_GROW => behind(Kind::MemoryGrow, ZeroByte::read(alloc, rest)),
            I32_CONST => match signed32(rest) {
                Ok((constant, rest)) => Ok((Kind::I32Const(constant), rest)),
                Err(fault) => Err(fault),
            },
            I64_CONST => match signed64(rest) {
                Ok((constant, rest)) => Ok((Kind::I64Const(constant), rest)),
                Err(fault) => Err(fault),
            },
            PREFIX => with_sub_opcode(alloc, rest),
            _ => Err(no_instruction(place, opcode)),
        },
    }
}

impl Ender {
    pub fn place(self) -> u32
        ensures { result ≡ ender_place (ender_of self) }
    {
        match self {
            Ender::End(place) => place,
            Ender::Else(place) => place,
        }
    }
}

/// An instruction that opens a block.
#[derive(Clone, Copy)]
enum Opener {
    Block,
    Loop,
    If,
}

impl Opener {
    /// Whether an `else` may close its instructions.
    fn may_else(self) -> bool
        ensures { result ≡ takes_else (head_of_opener self) }
    {
        match self {
            Opener::Block | Opener::Loop => false,
            Opener::If => true,
        }
    }

    /// The block whose instructions an `end` closed.
    fn closed(self, ty: Option<ValType>, code: Code, end_place: u32) -> Kind
        ensures { kind_tree result ≡ ended_block (head_of_opener self) ty code end_place }
    {
        let result = ty;
        match self {
            Opener::Block => Kind::Block {
                result,
                code,
                end_place,
            },
            Opener::Loop => Kind::Loop {
                result,
                code,
                end_place,
            },
            Opener::If => Kind::If {
                result,
                code,
                otherwise: None,
                end_place,
            },
        }
    }
}

fn opener_of(opcode: u8) -> Option<Opener>
    ensures { option_map head_of_opener result ≡ opener_head opcode }
{
    match opcode {
        BLOCK => Some(Opener::Block),
        LOOP => Some(Opener::Loop),
        IF => Some(Opener::If),
        _ => None,
    }
}

fn is_else(opcode: u8, may_else: bool) -> bool
    ensures { result ≡ ((opcode == 0x05) && may_else) }
{
    opcode == 0x05 && may_else
}

/// One more instruction, or what closes them.
#[derive(Drop)]
enum Item {
    Closed(Ender),
    One(Instr),
}

/// An instruction that was read, with the place of its opcode.
fn one(place: u32, read: Result<(Kind, Rest), ReadFault>) -> Result<(Item, Rest), ReadFault>
    ensures { (given : Result (Tree × At) Fault) → Gives as_kind read.entry given → Gives as_item result (as_one place given) }
{
    match read {
        Ok((kind, rest)) => Ok((Item::One(Instr { place, kind }), rest)),
        Err(fault) => Err(fault),
    }
}

/// What stands behind a block's opcode, where in it so many more blocks may be opened.
#[cycle(instructions)]
#[tactic(auto, unfolding(wasm_spelling::specs::Steps::reads))]
fn opened(alloc: Global, room: u32, opener: Opener, rest: Rest) -> Result<(Kind, Rest), ReadFault>
    ensures { Gives as_kind result (opened_at room (head_of_opener opener) (at rest.entry)) }
{
    let (ty, rest) = block_type(rest)?;
    let ((code, ender), rest) = instructions(alloc, room, opener.may_else(), rest)?;
    match ender {
        Ender::End(end_place) => Ok((opener.closed(ty, code, end_place), rest)),
        Ender::Else(place) => {
            let ((second, ender), rest) = instructions(alloc, room, false, rest)?;
            let end_place = ender.place();
            let otherwise = Some(ElsePart {
                code: second,
                place,
            });
            Ok((
                Kind::If {
                    result: ty,
                    code,
                    otherwise,
                    end_place,
                },
                rest,
            ))
        }
    }
}

/// One more instruction, or what closes them.
#[cycle(instructions)]
fn next_item(
    alloc: Global,
    room: u32,
    may_else: bool,
    rest: Rest,
) -> Result<(Item, Rest), ReadFault>
    ensures { Gives as_item result (item_at room may_else (block_at room) (at rest.entry)) }
{
    let place = rest.place;
    let (opcode, rest) = byte(rest)?;
    if opcode == 0x0b {
        return Ok((Item::Closed(Ender::End(place)), rest));
    }
    if is_else(opcode, may_else) {
        return Ok((Item::Closed(Ender::Else(place)), rest));
    }
    match opener_of(opcode) {
        Some(opener) => {
            if room == 0 {
                return Err(ReadFault::Limit(place, Which::BlockDepth));
            }
            one(place, opened(alloc, room - 1, opener, rest))
        }
        None => one(place, instruction(alloc, place, opcode, rest)),
    }
}

/// An operator whose opcode alone spells its instruction.
#[derive(Clone, Copy)]
enum Alone {
    Simple(Simple),
    Numeric(Numeric),
}

impl Alone {
    fn kind(self) -> Kind
        ensures { kind_tree result ≡ alone_tree self }
    {
        match self {
            Alone::Simple(op) => op.kind(),
            Alone::Numeric(op) => op.kind(),
        }
    }
}

/// The operator of an opcode that nothing stands behind.
fn alone_of(opcode: u8) -> Option<Alone>
    ensures { IfSome result (λ op. form_in (row_of opcode) ≡ Some (nothing (alone_tree op))) }
{
    match Op::of_opcode(opcode) {
        Some(Op::Simple(op)) => Some(Alone::Simple(op)),
        Some(Op::Numeric(op)) => Some(Alone::Numeric(op)),
        Some(Op::Index(_)) | Some(Op::Access(_)) | None => None,
    }
}

/// The instructions up to what closes them, where so many blocks may be opened.
#[cycle(instructions)]
pub fn instructions(
    alloc: Global,
    room: u32,
    may_else: bool,
    rest: Rest,
) -> Result<((Code, Ender), Rest), ReadFault>
    ensures { Gives as_code result (code_at room may_else (at rest.entry)) }
{
    let mut code = Code::new(alloc);
    let mut ahead = rest;
    loop {
        // Instructions of a byte are not handed through the wide results of others.
        let (opcode, after) = byte(ahead)?;
        if let Some(op) = alone_of(opcode) {
            let kind = op.kind();
            code.push(Instr {
                place: ahead.place,
                kind,
            })?;
            ahead = after;
        } else {
            let (item, after) = next_item(alloc, room, may_else, ahead)?;
            match item {
                Item::Closed(ender) => {
                    code.fit();
                    return Ok(((code, ender), after));
                }
                Item::One(instr) => code.push(instr)?,
            }
            ahead = after;
        }
    }
}

/// An expression, of which the end's place is not kept.
#[tactic(auto, unfolding(wasm_spelling::specs::Steps::reads, wasm_spelling::specs::Reading::expression_at))]
pub fn expression(alloc: Global, rest: Rest) -> Result<(Code, Rest), ReadFault>
    ensures { Gives seen result (expression_at (at rest.entry)) }
{
    let ((code, _), rest) = instructions(alloc, BLOCK_DEPTH, false, rest)?;
    Ok((code, rest))
}
