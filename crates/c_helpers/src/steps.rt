// The instructions that take operands and give a value by one statement (WebAssembly Core 1.0, 2.4.1
// and 2.4.4).
ghost use Rattle.std.specs.Prelude.{◌≡◌};
ghost use Rattle.w2c_base.specs.Values.{pattern_of};
ghost use Rattle.wasm_tree.specs.Views.{kind_tree};
ghost use Rattle.c_helpers.specs.Ways as ways;
ghost use Rattle.c_helpers.specs.Steps as steps;

use crate::operation::NumOp;
use c_tree::COp;
use w2c_base::ValType;
use wasm_tree::{
    AccessOp, BinaryOp, CompareOp, ExtendOp, Kind, LoadOp, Numeric, Parts, StoreOp, UnaryOp,
};

/// How two operands give a value: by an operator of C, by one that shifts, or by a helper.
#[derive(Clone, Copy)]
pub enum Way {
    ByOperator(COp),
    ByShift(COp),
    ByHelper(NumOp),
}

/// What such an instruction does. An access has the type of its value and its offset.
#[derive(Clone, Copy)]
pub enum Step {
    Const32(u32),
    Const64(u64),
    Eqz(ValType),
    Compare(ValType, Way),
    Unary(ValType, NumOp),
    Binary(ValType, Way),
    Wrap,
    ExtendS,
    ExtendU,
    Load(LoadOp, ValType, u32),
    Store(StoreOp, ValType, u32),
    Size,
    Grow,
    Copy,
    Fill,
}

// ---- how an operator is done

// One of two helpers, by the type.
fn by_type(ty: ValType, narrow: NumOp, wide: NumOp) -> Way
    ensures { result ≡ ways.by_type ty narrow wide }
{
    match ty {
        ValType::I32 => Way::ByHelper(narrow),
        ValType::I64 => Way::ByHelper(wide),
    }
}

fn compare_way(ty: ValType, op: CompareOp) -> Way
    ensures { result ≡ ways.compare_way ty op }
{
    match op {
        CompareOp::Eq => Way::ByOperator(COp::Eq),
        CompareOp::Ne => Way::ByOperator(COp::Ne),
        CompareOp::LtS => by_type(ty, NumOp::I32LtS, NumOp::I64LtS),
        CompareOp::LtU => Way::ByOperator(COp::Lt),
        CompareOp::GtS => by_type(ty, NumOp::I32GtS, NumOp::I64GtS),
        CompareOp::GtU => Way::ByOperator(COp::Gt),
        CompareOp::LeS => by_type(ty, NumOp::I32LeS, NumOp::I64LeS),
        CompareOp::LeU => Way::ByOperator(COp::Le),
        CompareOp::GeS => by_type(ty, NumOp::I32GeS, NumOp::I64GeS),
        CompareOp::GeU => Way::ByOperator(COp::Ge),
    }
}

fn binary_way(ty: ValType, op: BinaryOp) -> Way
    ensures { result ≡ ways.binary_way ty op }
{
    match op {
        BinaryOp::Add => Way::ByOperator(COp::Add),
        BinaryOp::Sub => Way::ByOperator(COp::Sub),
        BinaryOp::Mul => Way::ByOperator(COp::Mul),
        BinaryOp::DivS => by_type(ty, NumOp::I32DivS, NumOp::I64DivS),
        BinaryOp::DivU => by_type(ty, NumOp::I32DivU, NumOp::I64DivU),
        BinaryOp::RemS => by_type(ty, NumOp::I32RemS, NumOp::I64RemS),
        BinaryOp::RemU => by_type(ty, NumOp::I32RemU, NumOp::I64RemU),
        BinaryOp::And => Way::ByOperator(COp::And),
        BinaryOp::Or => Way::ByOperator(COp::Or),
        BinaryOp::Xor => Way::ByOperator(COp::Xor),
        BinaryOp::Shl => Way::ByShift(COp::Shl),
        BinaryOp::ShrS => by_type(ty, NumOp::I32ShrS, NumOp::I64ShrS),
        BinaryOp::ShrU => Way::ByShift(COp::Shr),
        BinaryOp::Rotl => by_type(ty, NumOp::I32Rotl, NumOp::I64Rotl),
        BinaryOp::Rotr => by_type(ty, NumOp::I32Rotr, NumOp::I64Rotr),
    }
}

fn unary_helper(ty: ValType, op: UnaryOp) -> NumOp
    ensures { result ≡ ways.unary_helper ty op }
{
    match (ty, op) {
        (ValType::I32, UnaryOp::Clz) => NumOp::I32Clz,
        (ValType::I32, UnaryOp::Ctz) => NumOp::I32Ctz,
        (ValType::I32, UnaryOp::Popcnt) => NumOp::I32Popcnt,
        (ValType::I64, UnaryOp::Clz) => NumOp::I64Clz,
        (ValType::I64, UnaryOp::Ctz) => NumOp::I64Ctz,
        (ValType::I64, UnaryOp::Popcnt) => NumOp::I64Popcnt,
    }
}

fn extend_helper(op: ExtendOp) -> NumOp
    ensures { result ≡ ways.extend_helper op }
{
    match op {
        ExtendOp::I32Extend8S => NumOp::I32Extend8S,
        ExtendOp::I32Extend16S => NumOp::I32Extend16S,
        ExtendOp::I64Extend8S => NumOp::I64Extend8S,
        ExtendOp::I64Extend16S => NumOp::I64Extend16S,
        ExtendOp::I64Extend32S => NumOp::I64Extend32S,
    }
}

/// The bits of a number.
#[tactic(auto, using(crate::proofs::Patterns::pattern_32))]
pub fn pattern_32(number: i32) -> u32
    ensures { result ≡ pattern_of 32 number }
{
    number.cast_unsigned()
}

/// The bits of a number.
#[tactic(auto, using(crate::proofs::Patterns::pattern_64))]
pub fn pattern_64(number: i64) -> u64
    ensures { result ≡ pattern_of 64 number }
{
    number.cast_unsigned()
}

// ---- steps

fn numeric_step(op: Numeric) -> Step
    ensures { result ≡ steps.numeric_step op }
{
    match op {
        Numeric::Eqz(ty) => Step::Eqz(ty),
        Numeric::Compare(ty, op) => Step::Compare(ty, compare_way(ty, op)),
        Numeric::Unary(ty, op) => Step::Unary(ty, unary_helper(ty, op)),
        Numeric::Binary(ty, op) => Step::Binary(ty, binary_way(ty, op)),
        Numeric::I32WrapI64 => Step::Wrap,
        Numeric::I64ExtendI32S => Step::ExtendS,
        Numeric::I64ExtendI32U => Step::ExtendU,
        Numeric::Extend(op) => Step::Unary(op.ty(), extend_helper(op)),
    }
}

fn access_step(op: AccessOp, offset: u32) -> Step
    ensures { result ≡ steps.access_step op offset }
{
    match op {
        AccessOp::Load(op) => Step::Load(op, op.access().ty, offset),
        AccessOp::Store(op) => Step::Store(op, op.access().ty, offset),
    }
}

// The step of an instruction with an operator, None where it is not of this kind.
fn operator_step(parts: Parts) -> Option<Step>
    ensures { result ≡ steps.operator_step parts }
{
    match parts {
        Parts::Access(op, arg) => Some(access_step(op, arg.offset)),
        Parts::Numeric(op) => Some(numeric_step(op)),
        Parts::Simple(_) | Parts::Index(_, _) | Parts::Other => None,
    }
}

/// The step of an instruction, None where the instruction is not of this kind.
pub fn step_of(kind: &Kind) -> Option<Step>
    ensures { result ≡ steps.step_of (kind_tree kind.now) }
{
    match kind {
        Kind::I32Const(number) => Some(Step::Const32(pattern_32(*number))),
        Kind::I64Const(number) => Some(Step::Const64(pattern_64(*number))),
        Kind::MemorySize => Some(Step::Size),
        Kind::MemoryGrow => Some(Step::Grow),
        Kind::MemoryCopy => Some(Step::Copy),
        Kind::MemoryFill => Some(Step::Fill),
        _ => operator_step(kind.parts()),
    }
}

impl Step {
    /// How many operands it takes.
    pub fn taken(self) -> usize
        ensures { result ≡ steps.taken self }
    {
        match self {
            Step::Const32(_) | Step::Const64(_) | Step::Size => 0,
            Step::Compare(_, _) | Step::Binary(_, _) | Step::Store(_, _, _) => 2,
            Step::Eqz(_)
            | Step::Unary(_, _)
            | Step::Wrap
            | Step::ExtendS
            | Step::ExtendU
            | Step::Load(_, _, _)
            | Step::Grow => 1,
            Step::Copy | Step::Fill => 3,
        }
    }

    /// The type of its value.
    pub fn given(self) -> Option<ValType>
        ensures { result ≡ steps.given self }
    {
        match self {
            Step::Const32(_)
            | Step::Eqz(_)
            | Step::Compare(_, _)
            | Step::Wrap
            | Step::Size
            | Step::Grow => Some(ValType::I32),
            Step::Const64(_) | Step::ExtendS | Step::ExtendU => Some(ValType::I64),
            Step::Unary(ty, _) | Step::Binary(ty, _) | Step::Load(_, ty, _) => Some(ty),
            Step::Store(_, _, _) | Step::Copy | Step::Fill => None,
        }
    }
}
