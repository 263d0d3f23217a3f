// Instructions by their parts: an operator with its immediates. What operators do to numbers, and to the bytes of a memory (WebAssembly
// Core 1.0, 2.4; Core 2.0, 2.4.1 for the extension of low bits).
ghost use Rattle.std.specs.Prelude.{◌≡◌};
ghost use Rattle.wasm_tree.specs.Accesses.{load_access, store_access, extend_type};
ghost use Rattle.wasm_tree.specs.Parts.{access_tree, index_tree, numeric_tree, parts_of, simple_tree};
ghost use Rattle.wasm_tree.specs.Views.{kind_tree};

use crate::code::{Code, ElsePart, Indexes, MemArg};
use w2c_base::ValType;

/// What an instruction is, with its immediates.
#[cycle(code)]
#[derive(Drop)]
pub enum Kind {
    Unreachable,
    Nop,
    Br(u32),
    BrIf(u32),
    BrTable(Indexes, u32),
    Return,
    Call(u32),
    CallIndirect(u32),
    Drop,
    Select,
    LocalGet(u32),
    LocalSet(u32),
    LocalTee(u32),
    GlobalGet(u32),
    GlobalSet(u32),
    I32Load(MemArg),
    I64Load(MemArg),
    I32Load8S(MemArg),
    I32Load8U(MemArg),
    I32Load16S(MemArg),
    I32Load16U(MemArg),
    I64Load8S(MemArg),
    I64Load8U(MemArg),
    I64Load16S(MemArg),
    I64Load16U(MemArg),
    I64Load32S(MemArg),
    I64Load32U(MemArg),
    I32Store(MemArg),
    I64Store(MemArg),
    I32Store8(MemArg),
    I32Store16(MemArg),
    I64Store8(MemArg),
    I64Store16(MemArg),
    I64Store32(MemArg),
    MemorySize,
    MemoryGrow,
    MemoryCopy,
    MemoryFill,
    I32Const(i32),
    I64Const(i64),
    I32Eqz,
    I32Eq,
    I32Ne,
    I32LtS,
    I32LtU,
    I32GtS,
    I32GtU,
    I32LeS,
    I32LeU,
    I32GeS,
    I32GeU,
    I64Eqz,
    I64Eq,
    I64Ne,
    I64LtS,
    I64LtU,
    I64GtS,
    I64GtU,
    I64LeS,
    I64LeU,
    I64GeS,
    I64GeU,
    I32Clz,
    I32Ctz,
    I32Popcnt,
    I32Add,
    I32Sub,
    I32Mul,
    I32DivS,
    I32DivU,
    I32RemS,
    I32RemU,
    I32And,
    I32Or,
    I32Xor,
    I32Shl,
    I32ShrS,
    I32ShrU,
    I32Rotl,
    I32Rotr,
    I64Clz,
    I64Ctz,
    I64Popcnt,
    I64Add,
    I64Sub,
    I64Mul,
    I64DivS,
    I64DivU,
    I64RemS,
    I64RemU,
    I64And,
    I64Or,
    I64Xor,
    I64Shl,
    I64ShrS,
    I64ShrU,
    I64Rotl,
    I64Rotr,
    I32WrapI64,
    I64ExtendI32S,
    I64ExtendI32U,
    I32Extend8S,
    I32Extend16S,
    I64Extend8S,
    I64Extend16S,
    I64Extend32S,
    Block {
        result: Option<ValType>,
        code: Code,
        end_place: u32,
    },
    Loop {
        result: Option<ValType>,
        code: Code,
        end_place: u32,
    },
    If {
        result: Option<ValType>,
        code: Code,
        otherwise: Option<ElsePart>,
        end_place: u32,
    },
}

/// One operand, a number of the same type.
#[derive(Clone, Copy, Debug, PartialEq, Eq)]
pub enum UnaryOp {
    Clz,
    Ctz,
    Popcnt,
}

/// Two operands, a number of the same type.
#[derive(Clone, Copy, Debug, PartialEq, Eq)]
pub enum BinaryOp {
    Add,
    Sub,
    Mul,
    DivS,
    DivU,
    RemS,
    RemU,
    And,
    Or,
    Xor,
    Shl,
    ShrS,
    ShrU,
    Rotl,
    Rotr,
}

/// Two operands, a truth value.
#[derive(Clone, Copy, Debug, PartialEq, Eq)]
pub enum CompareOp {
    Eq,
    Ne,
    LtS,
    LtU,
    GtS,
    GtU,
    LeS,
    LeU,
    GeS,
    GeU,
}

/// The low bits of a number, extended by their sign.
#[derive(Clone, Copy, Debug, PartialEq, Eq)]
pub enum ExtendOp {
    I32Extend8S,
    I32Extend16S,
    I64Extend8S,
    I64Extend16S,
    I64Extend32S,
}

/// A load.
#[derive(Clone, Copy, Debug, PartialEq, Eq)]
pub enum LoadOp {
    I32Load,
    I64Load,
    I32Load8S,
    I32Load8U,
    I32Load16S,
    I32Load16U,
    I64Load8S,
    I64Load8U,
    I64Load16S,
    I64Load16U,
    I64Load32S,
    I64Load32U,
}

/// A store.
#[derive(Clone, Copy, Debug, PartialEq, Eq)]
pub enum StoreOp {
    I32Store,
    I64Store,
    I32Store8,
    I32Store16,
    I64Store8,
    I64Store16,
    I64Store32,
}

/// An access to a memory: the type of its value, how many bytes it has there, and whether what is loaded is extended by its sign.
#[derive(Clone, Copy, Debug, PartialEq, Eq)]
pub struct Access {
    pub ty: ValType,
    pub width: u32,
    pub is_signed: bool,
}

/// An instruction without immediates that is no numeric one.
#[derive(Clone, Copy, Debug, PartialEq, Eq)]
pub enum Simple {
    Unreachable,
    Nop,
    Return,
    Drop,
    Select,
}

/// An instruction whose one immediate is an index.
#[derive(Clone, Copy, Debug, PartialEq, Eq)]
pub enum IndexOp {
    Br,
    BrIf,
    Call,
    LocalGet,
    LocalSet,
    LocalTee,
    GlobalGet,
    GlobalSet,
}

/// A load or a store.
#[derive(Clone, Copy, Debug, PartialEq, Eq)]
pub enum AccessOp {
    Load(LoadOp),
    Store(StoreOp),
}

/// A numeric instruction but for constants: its operator, and the type of its operands where it has one of its own for each.
#[derive(Clone, Copy, Debug, PartialEq, Eq)]
pub enum Numeric {
    Eqz(ValType),
    Compare(ValType, CompareOp),
    Unary(ValType, UnaryOp),
    Binary(ValType, BinaryOp),
    I32WrapI64,
    I64ExtendI32S,
    I64ExtendI32U,
    Extend(ExtendOp),
}

/// An instruction by its parts. `Other` is one with immediates of its own, which its variant says.
#[derive(Clone, Copy, Debug, PartialEq, Eq)]
pub enum Parts {
    Simple(Simple),
    Index(IndexOp, u32),
    Access(AccessOp, MemArg),
    Numeric(Numeric),
    Other,
}

fn accessing(ty: ValType, width: u32, is_signed: bool) -> Access
    ensures { result ≡ record { ty = ty; width = width; is_signed = is_signed } }
{
    Access {
        ty,
        width,
        is_signed,
    }
}

impl LoadOp {
    /// The access of a load. What has the whole width of its type is not extended.
    pub fn access(self) -> Access
        ensures { result ≡ load_access self }
    {
        match self {
            LoadOp::I32Load => accessing(ValType::I32, 4, false),
            LoadOp::I64Load => accessing(ValType::I64, 8, false),
            LoadOp::I32Load8S => accessing(ValType::I32, 1, true),
            LoadOp::I32Load8U => accessing(ValType::I32, 1, false),
            LoadOp::I32Load16S => accessing(ValType::I32, 2, true),
            LoadOp::I32Load16U => accessing(ValType::I32, 2, false),
            LoadOp::I64Load8S => accessing(ValType::I64, 1, true),
            LoadOp::I64Load8U => accessing(ValType::I64, 1, false),
            LoadOp::I64Load16S => accessing(ValType::I64, 2, true),
            LoadOp::I64Load16U => accessing(ValType::I64, 2, false),
            LoadOp::I64Load32S => accessing(ValType::I64, 4, true),
            LoadOp::I64Load32U => accessing(ValType::I64, 4, false),
        }
    }
}

impl StoreOp {
    /// The access of a store.
    pub fn access(self) -> Access
        ensures { result ≡ store_access self }
    {
        match self {
            StoreOp::I32Store => accessing(ValType::I32, 4, false),
            StoreOp::I64Store => accessing(ValType::I64, 8, false),
            StoreOp::I32Store8 => accessing(ValType::I32, 1, false),
            StoreOp::I32Store16 => accessing(ValType::I32, 2, false),
            StoreOp::I64Store8 => accessing(ValType::I64, 1, false),
            StoreOp::I64Store16 => accessing(ValType::I64, 2, false),
            StoreOp::I64Store32 => accessing(ValType::I64, 4, false),
        }
    }
}

impl ExtendOp {
    /// The type of its operand and of its value.
    pub fn ty(self) -> ValType
        ensures { result ≡ extend_type self }
    {
        match self {
            ExtendOp::I32Extend8S => ValType::I32,
            ExtendOp::I32Extend16S => ValType::I32,
            ExtendOp::I64Extend8S => ValType::I64,
            ExtendOp::I64Extend16S => ValType::I64,
            ExtendOp::I64Extend32S => ValType::I64,
        }
    }
}

impl Kind {
    /// The instruction by its parts.
    pub fn parts(&self) -> Parts
        ensures { result ≡ parts_of (kind_tree self.now) }
    {
        match self {
            Kind::Unreachable => Parts::Simple(Simple::Unreachable),
            Kind::Nop => Parts::Simple(Simple::Nop),
            Kind::Return => Parts::Simple(Simple::Return),
            Kind::Drop => Parts::Simple(Simple::Drop),
            Kind::Select => Parts::Simple(Simple::Select),
            Kind::Br(index) => Parts::Index(IndexOp::Br, *index),
            Kind::BrIf(index) => Parts::Index(IndexOp::BrIf, *index),
            Kind::Call(index) => Parts::Index(IndexOp::Call, *index),
            Kind::LocalGet(index) => Parts::Index(IndexOp::LocalGet, *index),
            Kind::LocalSet(index) => Parts::Index(IndexOp::LocalSet, *index),
            Kind::LocalTee(index) => Parts::Index(IndexOp::LocalTee, *index),
            Kind::GlobalGet(index) => Parts::Index(IndexOp::GlobalGet, *index),
            Kind::GlobalSet(index) => Parts::Index(IndexOp::GlobalSet, *index),
            Kind::I32Load(arg) => Parts::Access(AccessOp::Load(LoadOp::I32Load), *arg),
            Kind::I64Load(arg) => Parts::Access(AccessOp::Load(LoadOp::I64Load), *arg),
            Kind::I32Load8S(arg) => Parts::Access(AccessOp::Load(LoadOp::I32Load8S), *arg),
            Kind::I32Load8U(arg) => Parts::Access(AccessOp::Load(LoadOp::I32Load8U), *arg),
            Kind::I32Load16S(arg) => Parts::Access(AccessOp::Load(LoadOp::I32Load16S), *arg),
            Kind::I32Load16U(arg) => Parts::Access(AccessOp::Load(LoadOp::I32Load16U), *arg),
            Kind::I64Load8S(arg) => Parts::Access(AccessOp::Load(LoadOp::I64Load8S), *arg),
            Kind::I64Load8U(arg) => Parts::Access(AccessOp::Load(LoadOp::I64Load8U), *arg),
            Kind::I64Load16S(arg) => Parts::Access(AccessOp::Load(LoadOp::I64Load16S), *arg),
            Kind::I64Load16U(arg) => Parts::Access(AccessOp::Load(LoadOp::I64Load16U), *arg),
            Kind::I64Load32S(arg) => Parts::Access(AccessOp::Load(LoadOp::I64Load32S), *arg),
            Kind::I64Load32U(arg) => Parts::Access(AccessOp::Load(LoadOp::I64Load32U), *arg),
            Kind::I32Store(arg) => Parts::Access(AccessOp::Store(StoreOp::I32Store), *arg),
            Kind::I64Store(arg) => Parts::Access(AccessOp::Store(StoreOp::I64Store), *arg),
            Kind::I32Store8(arg) => Parts::Access(AccessOp::Store(StoreOp::I32Store8), *arg),
            Kind::I32Store16(arg) => Parts::Access(AccessOp::Store(StoreOp::I32Store16), *arg),
            Kind::I64Store8(arg) => Parts::Access(AccessOp::Store(StoreOp::I64Store8), *arg),
            Kind::I64Store16(arg) => Parts::Access(AccessOp::Store(StoreOp::I64Store16), *arg),
            Kind::I64Store32(arg) => Parts::Access(AccessOp::Store(StoreOp::I64Store32), *arg),
            Kind::I32Eqz => Parts::Numeric(Numeric::Eqz(ValType::I32)),
            Kind::I32Eq => Parts::Numeric(Numeric::Compare(ValType::I32, CompareOp::Eq)),
            Kind::I32Ne => Parts::Numeric(Numeric::Compare(ValType::I32, CompareOp::Ne)),
            Kind::I32LtS => Parts::Numeric(Numeric::Compare(ValType::I32, CompareOp::LtS)),
            Kind::I32LtU => Parts::Numeric(Numeric::Compare(ValType::I32, CompareOp::LtU)),
            Kind::I32GtS => Parts::Numeric(Numeric::Compare(ValType::I32, CompareOp::GtS)),
            Kind::I32GtU => Parts::Numeric(Numeric::Compare(ValType::I32, CompareOp::GtU)),
            Kind::I32LeS => Parts::Numeric(Numeric::Compare(ValType::I32, CompareOp::LeS)),
            Kind::I32LeU => Parts::Numeric(Numeric::Compare(ValType::I32, CompareOp::LeU)),
            Kind::I32GeS => Parts::Numeric(Numeric::Compare(ValType::I32, CompareOp::GeS)),
            Kind::I32GeU => Parts::Numeric(Numeric::Compare(ValType::I32, CompareOp::GeU)),
            Kind::I64Eqz => Parts::Numeric(Numeric::Eqz(ValType::I64)),
            Kind::I64Eq => Parts::Numeric(Numeric::Compare(ValType::I64, CompareOp::Eq)),
            Kind::I64Ne => Parts::Numeric(Numeric::Compare(ValType::I64, CompareOp::Ne)),
            Kind::I64LtS => Parts::Numeric(Numeric::Compare(ValType::I64, CompareOp::LtS)),
            Kind::I64LtU => Parts::Numeric(Numeric::Compare(ValType::I64, CompareOp::LtU)),
            Kind::I64GtS => Parts::Numeric(Numeric::Compare(ValType::I64, CompareOp::GtS)),
            Kind::I64GtU => Parts::Numeric(Numeric::Compare(ValType::I64, CompareOp::GtU)),
            Kind::I64LeS => Parts::Numeric(Numeric::Compare(ValType::I64, CompareOp::LeS)),
            Kind::I64LeU => Parts::Numeric(Numeric::Compare(ValType::I64, CompareOp::LeU)),
            Kind::I64GeS => Parts::Numeric(Numeric::Compare(ValType::I64, CompareOp::GeS)),
            Kind::I64GeU => Parts::Numeric(Numeric::Compare(ValType::I64, CompareOp::GeU)),
            Kind::I32Clz => Parts::Numeric(Numeric::Unary(ValType::I32, UnaryOp::Clz)),
            Kind::I32Ctz => Parts::Numeric(Numeric::Unary(ValType::I32, UnaryOp::Ctz)),
            Kind::I32Popcnt => Parts::Numeric(Numeric::Unary(ValType::I32, UnaryOp::Popcnt)),
            Kind::I32Add => Parts::Numeric(Numeric::Binary(ValType::I32, BinaryOp::Add)),
            Kind::I32Sub => Parts::Numeric(Numeric::Binary(ValType::I32, BinaryOp::Sub)),
            Kind::I32Mul => Parts::Numeric(Numeric::Binary(ValType::I32, BinaryOp::Mul)),
            Kind::I32DivS => Parts::Numeric(Numeric::Binary(ValType::I32, BinaryOp::DivS)),
            Kind::I32DivU => Parts::Numeric(Numeric::Binary(ValType::I32, BinaryOp::DivU)),
            Kind::I32RemS => Parts::Numeric(Numeric::Binary(ValType::I32, BinaryOp::RemS)),
            Kind::I32RemU => Parts::Numeric(Numeric::Binary(ValType::I32, BinaryOp::RemU)),
            Kind::I32And => Parts::Numeric(Numeric::Binary(ValType::I32, BinaryOp::And)),
            Kind::I32Or => Parts::Numeric(Numeric::Binary(ValType::I32, BinaryOp::Or)),
            Kind::I32Xor => Parts::Numeric(Numeric::Binary(ValType::I32, BinaryOp::Xor)),
            Kind::I32Shl => Parts::Numeric(Numeric::Binary(ValType::I32, BinaryOp::Shl)),
            Kind::I32ShrS => Parts::Numeric(Numeric::Binary(ValType::I32, BinaryOp::ShrS)),
            Kind::I32ShrU => Parts::Numeric(Numeric::Binary(ValType::I32, BinaryOp::ShrU)),
            Kind::I32Rotl => Parts::Numeric(Numeric::Binary(ValType::I32, BinaryOp::Rotl)),
            Kind::I32Rotr => Parts::Numeric(Numeric::Binary(ValType::I32, BinaryOp::Rotr)),
            Kind::I64Clz => Parts::Numeric(Numeric::Unary(ValType::I64, UnaryOp::Clz)),
            Kind::I64Ctz => Parts::Numeric(Numeric::Unary(ValType::I64, UnaryOp::Ctz)),
            Kind::I64Popcnt => Parts::Numeric(Numeric::Unary(ValType::I64, UnaryOp::Popcnt)),
            Kind::I64Add => Parts::Numeric(Numeric::Binary(ValType::I64, BinaryOp::Add)),
            Kind::I64Sub => Parts::Numeric(Numeric::Binary(ValType::I64, BinaryOp::Sub)),
            Kind::I64Mul => Parts::Numeric(Numeric::Binary(ValType::I64, BinaryOp::Mul)),
            Kind::I64DivS => Parts::Numeric(Numeric::Binary(ValType::I64, BinaryOp::DivS)),
            Kind::I64DivU => Parts::Numeric(Numeric::Binary(ValType::I64, BinaryOp::DivU)),
            Kind::I64RemS => Parts::Numeric(Numeric::Binary(ValType::I64, BinaryOp::RemS)),
            Kind::I64RemU => Parts::Numeric(Numeric::Binary(ValType::I64, BinaryOp::RemU)),
            Kind::I64And => Parts::Numeric(Numeric::Binary(ValType::I64, BinaryOp::And)),
            Kind::I64Or => Parts::Numeric(Numeric::Binary(ValType::I64, BinaryOp::Or)),
            Kind::I64Xor => Parts::Numeric(Numeric::Binary(ValType::I64, BinaryOp::Xor)),
            Kind::I64Shl => Parts::Numeric(Numeric::Binary(ValType::I64, BinaryOp::Shl)),
            Kind::I64ShrS => Parts::Numeric(Numeric::Binary(ValType::I64, BinaryOp::ShrS)),
            Kind::I64ShrU => Parts::Numeric(Numeric::Binary(ValType::I64, BinaryOp::ShrU)),
            Kind::I64Rotl => Parts::Numeric(Numeric::Binary(ValType::I64, BinaryOp::Rotl)),
            Kind::I64Rotr => Parts::Numeric(Numeric::Binary(ValType::I64, BinaryOp::Rotr)),
            Kind::I32WrapI64 => Parts::Numeric(Numeric::I32WrapI64),
            Kind::I64ExtendI32S => Parts::Numeric(Numeric::I64ExtendI32S),
            Kind::I64ExtendI32U => Parts::Numeric(Numeric::I64ExtendI32U),
            Kind::I32Extend8S => Parts::Numeric(Numeric::Extend(ExtendOp::I32Extend8S)),
            Kind::I32Extend16S => Parts::Numeric(Numeric::Extend(ExtendOp::I32Extend16S)),
            Kind::I64Extend8S => Parts::Numeric(Numeric::Extend(ExtendOp::I64Extend8S)),
            Kind::I64Extend16S => Parts::Numeric(Numeric::Extend(ExtendOp::I64Extend16S)),
            Kind::I64Extend32S => Parts::Numeric(Numeric::Extend(ExtendOp::I64Extend32S)),
            Kind::BrTable(_, _)
            | Kind::CallIndirect(_)
            | Kind::MemorySize
            | Kind::MemoryGrow
            | Kind::MemoryCopy
            | Kind::MemoryFill
            | Kind::I32Const(_)
            | Kind::I64Const(_)
            | Kind::Block { .. }
            | Kind::Loop { .. }
            | Kind::If { .. } => Parts::Other,
        }
    }
}

impl Simple {
    /// The instruction of these parts.
    pub fn kind(self) -> Kind
        ensures { kind_tree result ≡ simple_tree self }
    {
        match self {
            Simple::Unreachable => Kind::Unreachable,
            Simple::Nop => Kind::Nop,
            Simple::Return => Kind::Return,
            Simple::Drop => Kind::Drop,
            Simple::Select => Kind::Select,
        }
    }
}

impl IndexOp {
    /// The instruction of these parts.
    pub fn kind(self, index: u32) -> Kind
        ensures { kind_tree result ≡ index_tree self index }
    {
        match self {
            IndexOp::Br => Kind::Br(index),
            IndexOp::BrIf => Kind::BrIf(index),
            IndexOp::Call => Kind::Call(index),
            IndexOp::LocalGet => Kind::LocalGet(index),
            IndexOp::LocalSet => Kind::LocalSet(index),
            IndexOp::LocalTee => Kind::LocalTee(index),
            IndexOp::GlobalGet => Kind::GlobalGet(index),
            IndexOp::GlobalSet => Kind::GlobalSet(index),
        }
    }
}

impl AccessOp {
    /// The instruction of these parts.
    pub fn kind(self, arg: MemArg) -> Kind
        ensures { kind_tree result ≡ access_tree self arg }
    {
        match self {
            AccessOp::Load(LoadOp::I32Load) => Kind::I32Load(arg),
            AccessOp::Load(LoadOp::I64Load) => Kind::I64Load(arg),
            AccessOp::Load(LoadOp::I32Load8S) => Kind::I32Load8S(arg),
            AccessOp::Load(LoadOp::I32Load8U) => Kind::I32Load8U(arg),
            AccessOp::Load(LoadOp::I32Load16S) => Kind::I32Load16S(arg),
            AccessOp::Load(LoadOp::I32Load16U) => Kind::I32Load16U(arg),
            AccessOp::Load(LoadOp::I64Load8S) => Kind::I64Load8S(arg),
            AccessOp::Load(LoadOp::I64Load8U) => Kind::I64Load8U(arg),
            AccessOp::Load(LoadOp::I64Load16S) => Kind::I64Load16S(arg),
            AccessOp::Load(LoadOp::I64Load16U) => Kind::I64Load16U(arg),
            AccessOp::Load(LoadOp::I64Load32S) => Kind::I64Load32S(arg),
            AccessOp::Load(LoadOp::I64Load32U) => Kind::I64Load32U(arg),
            AccessOp::Store(StoreOp::I32Store) => Kind::I32Store(arg),
            AccessOp::Store(StoreOp::I64Store) => Kind::I64Store(arg),
            AccessOp::Store(StoreOp::I32Store8) => Kind::I32Store8(arg),
            AccessOp::Store(StoreOp::I32Store16) => Kind::I32Store16(arg),
            AccessOp::Store(StoreOp::I64Store8) => Kind::I64Store8(arg),
            AccessOp::Store(StoreOp::I64Store16) => Kind::I64Store16(arg),
            AccessOp::Store(StoreOp::I64Store32) => Kind::I64Store32(arg),
        }
    }
}

impl Numeric {
    /// The instruction of these parts.
    pub fn kind(self) -> Kind
        ensures { kind_tree result ≡ numeric_tree self }
    {
        match self {
            Numeric::Eqz(ValType::I32) => Kind::I32Eqz,
            Numeric::Compare(ValType::I32, CompareOp::Eq) => Kind::I32Eq,
            Numeric::Compare(ValType::I32, CompareOp::Ne) => Kind::I32Ne,
            Numeric::Compare(ValType::I32, CompareOp::LtS) => Kind::I32LtS,
            Numeric::Compare(ValType::I32, CompareOp::LtU) => Kind::I32LtU,
            Numeric::Compare(ValType::I32, CompareOp::GtS) => Kind::I32GtS,
            Numeric::Compare(ValType::I32, CompareOp::GtU) => Kind::I32GtU,
            Numeric::Compare(ValType::I32, CompareOp::LeS) => Kind::I32LeS,
            Numeric::Compare(ValType::I32, CompareOp::LeU) => Kind::I32LeU,
            Numeric::Compare(ValType::I32, CompareOp::GeS) => Kind::I32GeS,
            Numeric::Compare(ValType::I32, CompareOp::GeU) => Kind::I32GeU,
            Numeric::Eqz(ValType::I64) => Kind::I64Eqz,
            Numeric::Compare(ValType::I64, CompareOp::Eq) => Kind::I64Eq,
            Numeric::Compare(ValType::I64, CompareOp::Ne) => Kind::I64Ne,
            Numeric::Compare(ValType::I64, CompareOp::LtS) => Kind::I64LtS,
            Numeric::Compare(ValType::I64, CompareOp::LtU) => Kind::I64LtU,
            Numeric::Compare(ValType::I64, CompareOp::GtS) => Kind::I64GtS,
            Numeric::Compare(ValType::I64, CompareOp::GtU) => Kind::I64GtU,
            Numeric::Compare(ValType::I64, CompareOp::LeS) => Kind::I64LeS,
            Numeric::Compare(ValType::I64, CompareOp::LeU) => Kind::I64LeU,
            Numeric::Compare(ValType::I64, CompareOp::GeS) => Kind::I64GeS,
            Numeric::Compare(ValType::I64, CompareOp::GeU) => Kind::I64GeU,
            Numeric::Unary(ValType::I32, UnaryOp::Clz) => Kind::I32Clz,
            Numeric::Unary(ValType::I32, UnaryOp::Ctz) => Kind::I32Ctz,
            Numeric::Unary(ValType::I32, UnaryOp::Popcnt) => Kind::I32Popcnt,
            Numeric::Binary(ValType::I32, BinaryOp::Add) => Kind::I32Add,
            Numeric::Binary(ValType::I32, BinaryOp::Sub) => Kind::I32Sub,
            Numeric::Binary(ValType::I32, BinaryOp::Mul) => Kind::I32Mul,
            Numeric::Binary(ValType::I32, BinaryOp::DivS) => Kind::I32DivS,
            Numeric::Binary(ValType::I32, BinaryOp::DivU) => Kind::I32DivU,
            Numeric::Binary(ValType::I32, BinaryOp::RemS) => Kind::I32RemS,
            Numeric::Binary(ValType::I32, BinaryOp::RemU) => Kind::I32RemU,
            Numeric::Binary(ValType::I32, BinaryOp::And) => Kind::I32And,
            Numeric::Binary(ValType::I32, BinaryOp::Or) => Kind::I32Or,
            Numeric::Binary(ValType::I32, BinaryOp::Xor) => Kind::I32Xor,
            Numeric::Binary(ValType::I32, BinaryOp::Shl) => Kind::I32Shl,
            Numeric::Binary(ValType::I32, BinaryOp::ShrS) => Kind::I32ShrS,
            Numeric::Binary(ValType::I32, BinaryOp::ShrU) => Kind::I32ShrU,
            Numeric::Binary(ValType::I32, BinaryOp::Rotl) => Kind::I32Rotl,
            Numeric::Binary(ValType::I32, BinaryOp::Rotr) => Kind::I32Rotr,
            Numeric::Unary(ValType::I64, UnaryOp::Clz) => Kind::I64Clz,
            Numeric::Unary(ValType::I64, UnaryOp::Ctz) => Kind::I64Ctz,
            Numeric::Unary(ValType::I64, UnaryOp::Popcnt) => Kind::I64Popcnt,
            Numeric::Binary(ValType::I64, BinaryOp::Add) => Kind::I64Add,
            Numeric::Binary(ValType::I64, BinaryOp::Sub) => Kind::I64Sub,
            Numeric::Binary(ValType::I64, BinaryOp::Mul) => Kind::I64Mul,
            Numeric::Binary(ValType::I64, BinaryOp::DivS) => Kind::I64DivS,
            Numeric::Binary(ValType::I64, BinaryOp::DivU) => Kind::I64DivU,
            Numeric::Binary(ValType::I64, BinaryOp::RemS) => Kind::I64RemS,
            Numeric::Binary(ValType::I64, BinaryOp::RemU) => Kind::I64RemU,
            Numeric::Binary(ValType::I64, BinaryOp::And) => Kind::I64And,
            Numeric::Binary(ValType::I64, BinaryOp::Or) => Kind::I64Or,
            Numeric::Binary(ValType::I64, BinaryOp::Xor) => Kind::I64Xor,
            Numeric::Binary(ValType::I64, BinaryOp::Shl) => Kind::I64Shl,
            Numeric::Binary(ValType::I64, BinaryOp::ShrS) => Kind::I64ShrS,
            Numeric::Binary(ValType::I64, BinaryOp::ShrU) => Kind::I64ShrU,
            Numeric::Binary(ValType::I64, BinaryOp::Rotl) => Kind::I64Rotl,
            Numeric::Binary(ValType::I64, BinaryOp::Rotr) => Kind::I64Rotr,
            Numeric::I32WrapI64 => Kind::I32WrapI64,
            Numeric::I64ExtendI32S => Kind::I64ExtendI32S,
            Numeric::I64ExtendI32U => Kind::I64ExtendI32U,
            Numeric::Extend(ExtendOp::I32Extend8S) => Kind::I32Extend8S,
            Numeric::Extend(ExtendOp::I32Extend16S) => Kind::I32Extend16S,
            Numeric::Extend(ExtendOp::I64Extend8S) => Kind::I64Extend8S,
            Numeric::Extend(ExtendOp::I64Extend16S) => Kind::I64Extend16S,
            Numeric::Extend(ExtendOp::I64Extend32S) => Kind::I64Extend32S,
        }
    }
}
