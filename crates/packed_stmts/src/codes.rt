// What a byte stands for: kinds of expressions, types and operators.
ghost use Rattle.std.specs.Prelude.{◌≡◌};
ghost use Rattle.packed_stmts.specs.Packed.{type_code, op_code};
ghost use Rattle.packed_stmts.specs.Unpacked.{expr_kind, type_of, op_of};

use crate::kinds::ExprKind;
use c_tree::{COp, CType};

#[tactic(auto, unfolding(crate::specs::Unpacked::expr_kind))]
pub(crate) fn expr_kind(byte: u8) -> ExprKind
    ensures { result ≡ expr_kind byte }
{
    match byte {
        0 => ExprKind::Name,
        1 => ExprKind::At,
        2 => ExprKind::Number,
        3 => ExprKind::To32,
        4 => ExprKind::To64,
        5 => ExprKind::Star,
        _ => ExprKind::Op,
    }
}

pub(crate) fn type_code(ty: CType) -> u8
    ensures { result ≡ type_code ty }
{
    match ty {
        CType::Void => 0,
        CType::U32 => 1,
        CType::U64 => 2,
        CType::PtrU32 => 3,
        CType::PtrU64 => 4,
        CType::Mem => 5,
        CType::PtrMem => 6,
        CType::Tab => 7,
        CType::PtrTab => 8,
        CType::FnPtr => 9,
    }
}

#[tactic(auto, unfolding(crate::specs::Unpacked::type_of))]
pub(crate) fn type_of(byte: u8) -> CType
    ensures { result ≡ type_of byte }
{
    match byte {
        0 => CType::Void,
        1 => CType::U32,
        2 => CType::U64,
        3 => CType::PtrU32,
        4 => CType::PtrU64,
        5 => CType::Mem,
        6 => CType::PtrMem,
        7 => CType::Tab,
        8 => CType::PtrTab,
        _ => CType::FnPtr,
    }
}

pub(crate) fn op_code(op: COp) -> u8
    ensures { result ≡ op_code op }
{
    match op {
        COp::Add => 0,
        COp::Sub => 1,
        COp::Mul => 2,
        COp::Div => 3,
        COp::Rem => 4,
        COp::And => 5,
        COp::Or => 6,
        COp::Xor => 7,
        COp::Shl => 8,
        COp::Shr => 9,
        COp::Eq => 10,
        COp::Ne => 11,
        COp::Lt => 12,
        COp::Le => 13,
        COp::Gt => 14,
        COp::Ge => 15,
    }
}

#[tactic(auto, unfolding(crate::specs::Unpacked::op_of))]
pub(crate) fn op_of(byte: u8) -> COp
    ensures { result ≡ op_of byte }
{
    match byte {
        0 => COp::Add,
        1 => COp::Sub,
        2 => COp::Mul,
        3 => COp::Div,
        4 => COp::Rem,
        5 => COp::And,
        6 => COp::Or,
        7 => COp::Xor,
        8 => COp::Shl,
        9 => COp::Shr,
        10 => COp::Eq,
        11 => COp::Ne,
        12 => COp::Lt,
        13 => COp::Le,
        14 => COp::Gt,
        _ => COp::Ge,
    }
}
