// The types of instructions that have the same type everywhere (WebAssembly Core 1.0, 3.3.1 and 3.3.4).
ghost use Rattle.std.specs.Prelude.{◌≡◌, ◌^◌, [], ◌∷◌, Some, nat_le};
ghost use Rattle.w2c_base.specs.declared.value.ValType.TheVariants as type;
ghost use Rattle.wasm_tree.specs.declared.operators.Parts.TheVariants.{Other};
ghost use Rattle.wasm_tree.specs.InstructionTable.{of_types};
ghost use Rattle.wasm_tree.specs.Parts.{access_tree, numeric_tree, parts_of, simple_tree};
ghost use Rattle.wasm_tree.specs.Views.{kind_tree};
ghost use Rattle.wasm_typing.specs.Typing.{table_type, values};
ghost use Rattle.body_check.specs.Needs.{needs_of, typing_seen, needs_seen};

use w2c_base::ValType;
use wasm_tree::{AccessOp, Kind, MemArg, Numeric, Parts, Simple};

/// What an instruction needs besides its operands: a memory, and for an access an alignment, the exponent of a power of
/// two, that is not larger than its width in bytes.
#[derive(Clone, Copy)]
pub(crate) enum Needs {
    Nothing,
    Memory,
    Access(u32, u32),
}

/// Operands, the last one on top, a result, and what else is needed.
#[derive(Clone, Copy)]
pub(crate) struct InstrType {
    pub(crate) operands: &'static [ValType],
    pub(crate) result: Option<ValType>,
    pub(crate) needs: Needs,
}

const NONE: &[ValType] = &[];

const ONE_I32: &[ValType] = &[ValType::I32];

const ONE_I64: &[ValType] = &[ValType::I64];

const TWO_I32: &[ValType] = &[ValType::I32, ValType::I32];

const TWO_I64: &[ValType] = &[ValType::I64, ValType::I64];

const THREE_I32: &[ValType] = &[ValType::I32, ValType::I32, ValType::I32];

const I32_AND_I64: &[ValType] = &[ValType::I32, ValType::I64];

fn one(ty: ValType) -> &'static [ValType]
    ensures { result.now ≡ ty ∷ [] }
{
    match ty {
        ValType::I32 => ONE_I32,
        ValType::I64 => ONE_I64,
    }
}

fn two(ty: ValType) -> &'static [ValType]
    ensures { result.now ≡ ty ∷ ty ∷ [] }
{
    match ty {
        ValType::I32 => TWO_I32,
        ValType::I64 => TWO_I64,
    }
}

// An address, and a value above it.
fn address_and(ty: ValType) -> &'static [ValType]
    ensures { result.now ≡ type.I32 ∷ ty ∷ [] }
{
    match ty {
        ValType::I32 => TWO_I32,
        ValType::I64 => I32_AND_I64,
    }
}

fn of(operands: &'static [ValType], outcome: Option<ValType>, needs: Needs) -> Option<InstrType>
    ensures typing { typing_seen result ≡ of_types operands.now (values outcome) }
    ensures needed { needs_seen result ≡ needs }
{
    Some(InstrType {
        operands,
        result: outcome,
        needs,
    })
}

/// Whether a power of two, by its exponent, is not larger than a width.
#[tactic(auto, using(crate::proofs::Needs::too_large))]
pub(crate) fn is_aligned(exponent: u32, width: u32) -> bool
    ensures { result ≡ nat_le (2 ^ exponent) width }
{
    exponent < 32 && 1u32 << exponent <= width
}

fn simple_type(op: Simple) -> Option<InstrType>
    ensures typing { typing_seen result ≡ table_type (simple_tree op) }
    ensures needed { needs_seen result ≡ needs_of (simple_tree op) }
{
    match op {
        Simple::Nop => of(NONE, None, Needs::Nothing),
        Simple::Unreachable | Simple::Return | Simple::Drop | Simple::Select => None,
    }
}

fn access_type(op: AccessOp, arg: MemArg) -> Option<InstrType>
    ensures typing { typing_seen result ≡ table_type (access_tree op arg) }
    ensures needed { needs_seen result ≡ needs_of (access_tree op arg) }
{
    match op {
        AccessOp::Load(op) => {
            let access = op.access();
            of(
                ONE_I32,
                Some(access.ty),
                Needs::Access(arg.align, access.width),
            )
        }
        AccessOp::Store(op) => {
            let access = op.access();
            of(
                address_and(access.ty),
                None,
                Needs::Access(arg.align, access.width),
            )
        }
    }
}

// The operands and the result of an operator on numbers.
fn numeric_type(op: Numeric) -> (&'static [ValType], ValType)
    ensures { of_types result.0.now (result.1 ∷ []) ≡ table_type (numeric_tree op) }
{
    match op {
        Numeric::Eqz(ty) => (one(ty), ValType::I32),
        Numeric::Compare(ty, _) => (two(ty), ValType::I32),
        Numeric::Unary(ty, _) => (one(ty), ty),
        Numeric::Binary(ty, _) => (two(ty), ty),
        Numeric::I32WrapI64 => (ONE_I64, ValType::I32),
        Numeric::I64ExtendI32S | Numeric::I64ExtendI32U => (ONE_I32, ValType::I64),
        Numeric::Extend(op) => (one(op.ty()), op.ty()),
    }
}

// An instruction with immediates of its own.
fn other_type(kind: &Kind) -> Option<InstrType>
    requires { parts_of (kind_tree kind.now) ≡ Other }
    ensures typing { typing_seen result ≡ table_type (kind_tree kind.now) }
    ensures needed { needs_seen result ≡ needs_of (kind_tree kind.now) }
{
    match kind {
        Kind::I32Const(_) => of(NONE, Some(ValType::I32), Needs::Nothing),
        Kind::I64Const(_) => of(NONE, Some(ValType::I64), Needs::Nothing),
        Kind::MemorySize => of(NONE, Some(ValType::I32), Needs::Memory),
        Kind::MemoryGrow => of(ONE_I32, Some(ValType::I32), Needs::Memory),
        Kind::MemoryCopy | Kind::MemoryFill => of(THREE_I32, None, Needs::Memory),
        _ => None,
    }
}

/// The type of an instruction, None where the place of the instruction says more.
pub(crate) fn fixed_type(kind: &Kind) -> Option<InstrType>
    ensures typing { typing_seen result ≡ table_type (kind_tree kind.now) }
    ensures needs { needs_seen result ≡ needs_of (kind_tree kind.now) }
{
    match kind.parts() {
        Parts::Simple(op) => simple_type(op),
        Parts::Index(_, _) => None,
        Parts::Access(op, arg) => access_type(op, arg),
        Parts::Numeric(op) => {
            let (operands, ty) = numeric_type(op);
            of(operands, Some(ty), Needs::Nothing)
        }
        Parts::Other => other_type(kind),
    }
}
