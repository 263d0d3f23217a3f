// The table of opcodes (WebAssembly Core 1.0, 5.4; Core 2.0, 5.4.6 and 5.4.7). Instructions are read and written by it.
ghost use Rattle.std.specs.Prelude.{◌≡◌, IfNone, IfSome};
ghost use Rattle.wasm_tree.specs.Parts.{access_opcode, index_opcode, numeric_opcode, op_opcode, simple_opcode, HasOp};

use crate::operators::{
    AccessOp, BinaryOp, CompareOp, ExtendOp, IndexOp, LoadOp, Numeric, Simple, StoreOp, UnaryOp,
};
use w2c_base::ValType;

pub const BLOCK: u8 = 0x02;

pub const LOOP: u8 = 0x03;

pub const IF: u8 = 0x04;

pub const BR_TABLE: u8 = 0x0e;

pub const CALL_INDIRECT: u8 = 0x11;

pub const MEMORY_SIZE: u8 = 0x3f;

pub const MEMORY_GROW: u8 = 0x40;

pub const I32_CONST: u8 = 0x41;

pub const I64_CONST: u8 = 0x42;

/// Behind it stands a number that says which instruction it is.
pub const PREFIX: u8 = 0xfc;

pub const MEMORY_COPY: u32 = 10;

pub const MEMORY_FILL: u32 = 11;

/// An operator of an instruction.
#[derive(Clone, Copy, Debug, PartialEq, Eq)]
pub enum Op {
    Simple(Simple),
    Index(IndexOp),
    Access(AccessOp),
    Numeric(Numeric),
}

impl Simple {
    fn opcode(self) -> u8
        ensures { result ≡ simple_opcode self }
    {
        match self {
            Simple::Unreachable => 0x00,
            Simple::Nop => 0x01,
            Simple::Return => 0x0f,
            Simple::Drop => 0x1a,
            Simple::Select => 0x1b,
        }
    }
}

impl IndexOp {
    fn opcode(self) -> u8
        ensures { result ≡ index_opcode self }
    {
        match self {
            IndexOp::Br => 0x0c,
            IndexOp::BrIf => 0x0d,
            IndexOp::Call => 0x10,
            IndexOp::LocalGet => 0x20,
            IndexOp::LocalSet => 0x21,
            IndexOp::LocalTee => 0x22,
            IndexOp::GlobalGet => 0x23,
            IndexOp::GlobalSet => 0x24,
        }
    }
}

impl AccessOp {
    fn opcode(self) -> u8
        ensures { result ≡ access_opcode self }
    {
        match self {
            AccessOp::Load(LoadOp::I32Load) => 0x28,
            AccessOp::Load(LoadOp::I64Load) => 0x29,
            AccessOp::Load(LoadOp::I32Load8S) => 0x2c,
            AccessOp::Load(LoadOp::I32Load8U) => 0x2d,
            AccessOp::Load(LoadOp::I32Load16S) => 0x2e,
            AccessOp::Load(LoadOp::I32Load16U) => 0x2f,
            AccessOp::Load(LoadOp::I64Load8S) => 0x30,
            AccessOp::Load(LoadOp::I64Load8U) => 0x31,
            AccessOp::Load(LoadOp::I64Load16S) => 0x32,
            AccessOp::Load(LoadOp::I64Load16U) => 0x33,
            AccessOp::Load(LoadOp::I64Load32S) => 0x34,
            AccessOp::Load(LoadOp::I64Load32U) => 0x35,
            AccessOp::Store(StoreOp::I32Store) => 0x36,
            AccessOp::Store(StoreOp::I64Store) => 0x37,
            AccessOp::Store(StoreOp::I32Store8) => 0x3a,
            AccessOp::Store(StoreOp::I32Store16) => 0x3b,
            AccessOp::Store(StoreOp::I64Store8) => 0x3c,
            AccessOp::Store(StoreOp::I64Store16) => 0x3d,
            AccessOp::Store(StoreOp::I64Store32) => 0x3e,
        }
    }
}

impl Numeric {
    fn opcode(self) -> u8
        ensures { result ≡ numeric_opcode self }
    {
        match self {
            Numeric::Eqz(ValType::I32) => 0x45,
            Numeric::Compare(ValType::I32, CompareOp::Eq) => 0x46,
            Numeric::Compare(ValType::I32, CompareOp::Ne) => 0x47,
            Numeric::Compare(ValType::I32, CompareOp::LtS) => 0x48,
            Numeric::Compare(ValType::I32, CompareOp::LtU) => 0x49,
            Numeric::Compare(ValType::I32, CompareOp::GtS) => 0x4a,
            Numeric::Compare(ValType::I32, CompareOp::GtU) => 0x4b,
            Numeric::Compare(ValType::I32, CompareOp::LeS) => 0x4c,
            Numeric::Compare(ValType::I32, CompareOp::LeU) => 0x4d,
            Numeric::Compare(ValType::I32, CompareOp::GeS) => 0x4e,
            Numeric::Compare(ValType::I32, CompareOp::GeU) => 0x4f,
            Numeric::Eqz(ValType::I64) => 0x50,
            Numeric::Compare(ValType::I64, CompareOp::Eq) => 0x51,
            Numeric::Compare(ValType::I64, CompareOp::Ne) => 0x52,
            Numeric::Compare(ValType::I64, CompareOp::LtS) => 0x53,
            Numeric::Compare(ValType::I64, CompareOp::LtU) => 0x54,
            Numeric::Compare(ValType::I64, CompareOp::GtS) => 0x55,
            Numeric::Compare(ValType::I64, CompareOp::GtU) => 0x56,
            Numeric::Compare(ValType::I64, CompareOp::LeS) => 0x57,
            Numeric::Compare(ValType::I64, CompareOp::LeU) => 0x58,
            Numeric::Compare(ValType::I64, CompareOp::GeS) => 0x59,
            Numeric::Compare(ValType::I64, CompareOp::GeU) => 0x5a,
            Numeric::Unary(ValType::I32, UnaryOp::Clz) => 0x67,
            Numeric::Unary(ValType::I32, UnaryOp::Ctz) => 0x68,
            Numeric::Unary(ValType::I32, UnaryOp::Popcnt) => 0x69,
            Numeric::Binary(ValType::I32, BinaryOp::Add) => 0x6a,
            Numeric::Binary(ValType::I32, BinaryOp::Sub) => 0x6b,
            Numeric::Binary(ValType::I32, BinaryOp::Mul) => 0x6c,
            Numeric::Binary(ValType::I32, BinaryOp::DivS) => 0x6d,
            Numeric::Binary(ValType::I32, BinaryOp::DivU) => 0x6e,
            Numeric::Binary(ValType::I32, BinaryOp::RemS) => 0x6f,
            Numeric::Binary(ValType::I32, BinaryOp::RemU) => 0x70,
            Numeric::Binary(ValType::I32, BinaryOp::And) => 0x71,
            Numeric::Binary(ValType::I32, BinaryOp::Or) => 0x72,
            Numeric::Binary(ValType::I32, BinaryOp::Xor) => 0x73,
            Numeric::Binary(ValType::I32, BinaryOp::Shl) => 0x74,
            Numeric::Binary(ValType::I32, BinaryOp::ShrS) => 0x75,
            Numeric::Binary(ValType::I32, BinaryOp::ShrU) => 0x76,
            Numeric::Binary(ValType::I32, BinaryOp::Rotl) => 0x77,
            Numeric::Binary(ValType::I32, BinaryOp::Rotr) => 0x78,
            Numeric::Unary(ValType::I64, UnaryOp::Clz) => 0x79,
            Numeric::Unary(ValType::I64, UnaryOp::Ctz) => 0x7a,
            Numeric::Unary(ValType::I64, UnaryOp::Popcnt) => 0x7b,
            Numeric::Binary(ValType::I64, BinaryOp::Add) => 0x7c,
            Numeric::Binary(ValType::I64, BinaryOp::Sub) => 0x7d,
            Numeric::Binary(ValType::I64, BinaryOp::Mul) => 0x7e,
            Numeric::Binary(ValType::I64, BinaryOp::DivS) => 0x7f,
            Numeric::Binary(ValType::I64, BinaryOp::DivU) => 0x80,
            Numeric::Binary(ValType::I64, BinaryOp::RemS) => 0x81,
            Numeric::Binary(ValType::I64, BinaryOp::RemU) => 0x82,
            Numeric::Binary(ValType::I64, BinaryOp::And) => 0x83,
            Numeric::Binary(ValType::I64, BinaryOp::Or) => 0x84,
            Numeric::Binary(ValType::I64, BinaryOp::Xor) => 0x85,
            Numeric::Binary(ValType::I64, BinaryOp::Shl) => 0x86,
            Numeric::Binary(ValType::I64, BinaryOp::ShrS) => 0x87,
            Numeric::Binary(ValType::I64, BinaryOp::ShrU) => 0x88,
            Numeric::Binary(ValType::I64, BinaryOp::Rotl) => 0x89,
            Numeric::Binary(ValType::I64, BinaryOp::Rotr) => 0x8a,
            Numeric::I32WrapI64 => 0xa7,
            Numeric::I64ExtendI32S => 0xac,
            Numeric::I64ExtendI32U => 0xad,
            Numeric::Extend(ExtendOp::I32Extend8S) => 0xc0,
            Numeric::Extend(ExtendOp::I32Extend16S) => 0xc1,
            Numeric::Extend(ExtendOp::I64Extend8S) => 0xc2,
            Numeric::Extend(ExtendOp::I64Extend16S) => 0xc3,
            Numeric::Extend(ExtendOp::I64Extend32S) => 0xc4,
        }
    }
}

impl Op {
    /// Its opcode.
    pub fn opcode(self) -> u8
        ensures { result ≡ op_opcode self }
    {
        match self {
            Op::Simple(op) => op.opcode(),
            Op::Index(op) => op.opcode(),
            Op::Access(op) => op.opcode(),
            Op::Numeric(op) => op.opcode(),
        }
    }

    /// The operator of an opcode, if it is that of one.
    pub fn of_opcode(opcode: u8) -> Option<Op>
        ensures some { IfSome result (λ op. op_opcode op ≡ opcode) }
        ensures none { IfNone result (HasOp opcode → ⊥) }
    {
        BY_OPCODE[opcode as usize]
    }
}

/// At each opcode its operator. None where the opcode begins no instruction, a block, or an instruction with immediates of its own.
static BY_OPCODE: [Option<Op>; 256] = [
    // 00
    Some(Op::Simple(Simple::Unreachable)),
    Some(Op::Simple(Simple::Nop)),
    None,
    None,
    None,
    None,
    None,
    None,
    None,
    None,
    None,
    None,
    Some(Op::Index(IndexOp::Br)),
    Some(Op::Index(IndexOp::BrIf)),
    None,
    Some(Op::Simple(Simple::Return)),
    // 10
    Some(Op::Index(IndexOp::Call)),
    None,
    None,
    None,
    None,
    None,
    None,
    None,
    None,
    None,
    Some(Op::Simple(Simple::Drop)),
    Some(Op::Simple(Simple::Select)),
    None,
    None,
    None,
    None,
    // 20
    Some(Op::Index(IndexOp::LocalGet)),
    Some(Op::Index(IndexOp::LocalSet)),
    Some(Op::Index(IndexOp::LocalTee)),
    Some(Op::Index(IndexOp::GlobalGet)),
    Some(Op::Index(IndexOp::GlobalSet)),
    None,
    None,
    None,
    Some(Op::Access(AccessOp::Load(LoadOp::I32Load))),
    Some(Op::Access(AccessOp::Load(LoadOp::I64Load))),
    None,
    None,
    Some(Op::Access(AccessOp::Load(LoadOp::I32Load8S))),
    Some(Op::Access(AccessOp::Load(LoadOp::I32Load8U))),
    Some(Op::Access(AccessOp::Load(LoadOp::I32Load16S))),
    Some(Op::Access(AccessOp::Load(LoadOp::I32Load16U))),
    // 30
    Some(Op::Access(AccessOp::Load(LoadOp::I64Load8S))),
    Some(Op::Access(AccessOp::Load(LoadOp::I64Load8U))),
    Some(Op::Access(AccessOp::Load(LoadOp::I64Load16S))),
    Some(Op::Access(AccessOp::Load(LoadOp::I64Load16U))),
    Some(Op::Access(AccessOp::Load(LoadOp::I64Load32S))),
    Some(Op::Access(AccessOp::Load(LoadOp::I64Load32U))),
    Some(Op::Access(AccessOp::Store(StoreOp::I32Store))),
    Some(Op::Access(AccessOp::Store(StoreOp::I64Store))),
    None,
    None,
    Some(Op::Access(AccessOp::Store(StoreOp::I32Store8))),
    Some(Op::Access(AccessOp::Store(StoreOp::I32Store16))),
    Some(Op::Access(AccessOp::Store(StoreOp::I64Store8))),
    Some(Op::Access(AccessOp::Store(StoreOp::I64Store16))),
    Some(Op::Access(AccessOp::Store(StoreOp::I64Store32))),
    None,
    // 40
    None,
    None,
    None,
    None,
    None,
    Some(Op::Numeric(Numeric::Eqz(ValType::I32))),
    Some(Op::Numeric(Numeric::Compare(ValType::I32, CompareOp::Eq))),
    Some(Op::Numeric(Numeric::Compare(ValType::I32, CompareOp::Ne))),
    Some(Op::Numeric(Numeric::Compare(ValType::I32, CompareOp::LtS))),
    Some(Op::Numeric(Numeric::Compare(ValType::I32, CompareOp::LtU))),
    Some(Op::Numeric(Numeric::Compare(ValType::I32, CompareOp::GtS))),
    Some(Op::Numeric(Numeric::Compare(ValType::I32, CompareOp::GtU))),
    Some(Op::Numeric(Numeric::Compare(ValType::I32, CompareOp::LeS))),
    Some(Op::Numeric(Numeric::Compare(ValType::I32, CompareOp::LeU))),
    Some(Op::Numeric(Numeric::Compare(ValType::I32, CompareOp::GeS))),
    Some(Op::Numeric(Numeric::Compare(ValType::I32, CompareOp::GeU))),
    // 50
    Some(Op::Numeric(Numeric::Eqz(ValType::I64))),
    Some(Op::Numeric(Numeric::Compare(ValType::I64, CompareOp::Eq))),
    Some(Op::Numeric(Numeric::Compare(ValType::I64, CompareOp::Ne))),
    Some(Op::Numeric(Numeric::Compare(ValType::I64, CompareOp::LtS))),
    Some(Op::Numeric(Numeric::Compare(ValType::I64, CompareOp::LtU))),
    Some(Op::Numeric(Numeric::Compare(ValType::I64, CompareOp::GtS))),
    Some(Op::Numeric(Numeric::Compare(ValType::I64, CompareOp::GtU))),
    Some(Op::Numeric(Numeric::Compare(ValType::I64, CompareOp::LeS))),
    Some(Op::Numeric(Numeric::Compare(ValType::I64, CompareOp::LeU))),
    Some(Op::Numeric(Numeric::Compare(ValType::I64, CompareOp::GeS))),
    Some(Op::Numeric(Numeric::Compare(ValType::I64, CompareOp::GeU))),
    None,
    None,
    None,
    None,
    None,
    // 60
    None,
    None,
    None,
    None,
    None,
    None,
    None,
    Some(Op::Numeric(Numeric::Unary(ValType::I32, UnaryOp::Clz))),
    Some(Op::Numeric(Numeric::Unary(ValType::I32, UnaryOp::Ctz))),
    Some(Op::Numeric(Numeric::Unary(ValType::I32, UnaryOp::Popcnt))),
    Some(Op::Numeric(Numeric::Binary(ValType::I32, BinaryOp::Add))),
    Some(Op::Numeric(Numeric::Binary(ValType::I32, BinaryOp::Sub))),
    Some(Op::Numeric(Numeric::Binary(ValType::I32, BinaryOp::Mul))),
    Some(Op::Numeric(Numeric::Binary(ValType::I32, BinaryOp::DivS))),
    Some(Op::Numeric(Numeric::Binary(ValType::I32, BinaryOp::DivU))),
    Some(Op::Numeric(Numeric::Binary(ValType::I32, BinaryOp::RemS))),
    // 70
    Some(Op::Numeric(Numeric::Binary(ValType::I32, BinaryOp::RemU))),
    Some(Op::Numeric(Numeric::Binary(ValType::I32, BinaryOp::And))),
    Some(Op::Numeric(Numeric::Binary(ValType::I32, BinaryOp::Or))),
    Some(Op::Numeric(Numeric::Binary(ValType::I32, BinaryOp::Xor))),
    Some(Op::Numeric(Numeric::Binary(ValType::I32, BinaryOp::Shl))),
    Some(Op::Numeric(Numeric::Binary(ValType::I32, BinaryOp::ShrS))),
    Some(Op::Numeric(Numeric::Binary(ValType::I32, BinaryOp::ShrU))),
    Some(Op::Numeric(Numeric::Binary(ValType::I32, BinaryOp::Rotl))),
    Some(Op::Numeric(Numeric::Binary(ValType::I32, BinaryOp::Rotr))),
    Some(Op::Numeric(Numeric::Unary(ValType::I64, UnaryOp::Clz))),
    Some(Op::Numeric(Numeric::Unary(ValType::I64, UnaryOp::Ctz))),
    Some(Op::Numeric(Numeric::Unary(ValType::I64, UnaryOp::Popcnt))),
    Some(Op::Numeric(Numeric::Binary(ValType::I64, BinaryOp::Add))),
    Some(Op::Numeric(Numeric::Binary(ValType::I64, BinaryOp::Sub))),
    Some(Op::Numeric(Numeric::Binary(ValType::I64, BinaryOp::Mul))),
    Some(Op::Numeric(Numeric::Binary(ValType::I64, BinaryOp::DivS))),
    // 80
    Some(Op::Numeric(Numeric::Binary(ValType::I64, BinaryOp::DivU))),
    Some(Op::Numeric(Numeric::Binary(ValType::I64, BinaryOp::RemS))),
    Some(Op::Numeric(Numeric::Binary(ValType::I64, BinaryOp::RemU))),
    Some(Op::Numeric(Numeric::Binary(ValType::I64, BinaryOp::And))),
    Some(Op::Numeric(Numeric::Binary(ValType::I64, BinaryOp::Or))),
    Some(Op::Numeric(Numeric::Binary(ValType::I64, BinaryOp::Xor))),
    Some(Op::Numeric(Numeric::Binary(ValType::I64, BinaryOp::Shl))),
    Some(Op::Numeric(Numeric::Binary(ValType::I64, BinaryOp::ShrS))),
    Some(Op::Numeric(Numeric::Binary(ValType::I64, BinaryOp::ShrU))),
    Some(Op::Numeric(Numeric::Binary(ValType::I64, BinaryOp::Rotl))),
    Some(Op::Numeric(Numeric::Binary(ValType::I64, BinaryOp::Rotr))),
    None,
    None,
    None,
    None,
    None,
    // 90
    None,
    None,
    None,
    None,
    None,
    None,
    None,
    None,
    None,
    None,
    None,
    None,
    None,
    None,
    None,
    None,
    // a0
    None,
    None,
    None,
    None,
    None,
    None,
    None,
    Some(Op::Numeric(Numeric::I32WrapI64)),
    None,
    None,
    None,
    None,
    Some(Op::Numeric(Numeric::I64ExtendI32S)),
    Some(Op::Numeric(Numeric::I64ExtendI32U)),
    None,
    None,
    // b0
    None,
    None,
    None,
    None,
    None,
    None,
    None,
    None,
    None,
    None,
    None,
    None,
    None,
    None,
    None,
    None,
    // c0
    Some(Op::Numeric(Numeric::Extend(ExtendOp::I32Extend8S))),
    Some(Op::Numeric(Numeric::Extend(ExtendOp::I32Extend16S))),
    Some(Op::Numeric(Numeric::Extend(ExtendOp::I64Extend8S))),
    Some(Op::Numeric(Numeric::Extend(ExtendOp::I64Extend16S))),
    Some(Op::Numeric(Numeric::Extend(ExtendOp::I64Extend32S))),
    None,
    None,
    None,
    None,
    None,
    None,
    None,
    None,
    None,
    None,
    None,
    // d0
    None,
    None,
    None,
    None,
    None,
    None,
    None,
    None,
    None,
    None,
    None,
    None,
    None,
    None,
    None,
    None,
    // e0
    None,
    None,
    None,
    None,
    None,
    None,
    None,
    None,
    None,
    None,
    None,
    None,
    None,
    None,
    None,
    None,
    // f0
    None,
    None,
    None,
    None,
    None,
    None,
    None,
    None,
    None,
    None,
    None,
    None,
    None,
    None,
    None,
    None,
];
