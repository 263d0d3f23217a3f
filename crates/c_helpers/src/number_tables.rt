// The bodies of the helpers of numbers as tables of pieces, each with the C text that it makes at 32 bits, and which forms have
// which. A `return` that no run reaches stands behind a last trap, so that C sees each path end.
ghost use Rattle.std.specs.Prelude.{◌≡◌};
ghost use Rattle.c_helpers.specs.Helpers as of;

use crate::operation::Form;
use crate::piece::{Cast, Number, Piece};
use c_tree::COp;
use w2c_base::TrapKind;

// return (u32)((x + 2147483648u) < (y + 2147483648u));
pub const LT_S: [Piece; 9] = [
    Piece::Name(b'x'),
    Piece::Number(Number::Half), // half a turn on, numbers are in signed order
    Piece::Op(COp::Add),
    Piece::Name(b'y'),
    Piece::Number(Number::Half), // and so is the other
    Piece::Op(COp::Add),
    Piece::Op(COp::Lt),
    Piece::Cast(Cast::To32),
    Piece::Return,
];

// return (u32)((x + 2147483648u) > (y + 2147483648u));
pub const GT_S: [Piece; 9] = [
    Piece::Name(b'x'),
    Piece::Number(Number::Half),
    Piece::Op(COp::Add),
    Piece::Name(b'y'),
    Piece::Number(Number::Half),
    Piece::Op(COp::Add),
    Piece::Op(COp::Gt),
    Piece::Cast(Cast::To32),
    Piece::Return,
];

// return (u32)((x + 2147483648u) <= (y + 2147483648u));
pub const LE_S: [Piece; 9] = [
    Piece::Name(b'x'),
    Piece::Number(Number::Half),
    Piece::Op(COp::Add),
    Piece::Name(b'y'),
    Piece::Number(Number::Half),
    Piece::Op(COp::Add),
    Piece::Op(COp::Le),
    Piece::Cast(Cast::To32),
    Piece::Return,
];

// return (u32)((x + 2147483648u) >= (y + 2147483648u));
pub const GE_S: [Piece; 9] = [
    Piece::Name(b'x'),
    Piece::Number(Number::Half),
    Piece::Op(COp::Add),
    Piece::Name(b'y'),
    Piece::Number(Number::Half),
    Piece::Op(COp::Add),
    Piece::Op(COp::Ge),
    Piece::Cast(Cast::To32),
    Piece::Return,
];

// if (y == 0u) goto T; return (x / y); T: w2c_trap(3u); return 0u;
pub const DIV_U: [Piece; 11] = [
    Piece::Name(b'y'),
    Piece::Number(Number::Zero),
    Piece::If(COp::Eq, b'T'),
    Piece::Name(b'x'),
    Piece::Name(b'y'),
    Piece::Op(COp::Div),
    Piece::Return,
    Piece::Label(b'T'),
    Piece::Trap(TrapKind::DivByZero),
    Piece::Number(Number::Zero),
    Piece::Return,
];

// if (y == 0u) goto T; return (x % y); T: w2c_trap(3u); return 0u;
pub const REM_U: [Piece; 11] = [
    Piece::Name(b'y'),
    Piece::Number(Number::Zero),
    Piece::If(COp::Eq, b'T'),
    Piece::Name(b'x'),
    Piece::Name(b'y'),
    Piece::Op(COp::Rem),
    Piece::Return,
    Piece::Label(b'T'),
    Piece::Trap(TrapKind::DivByZero),
    Piece::Number(Number::Zero),
    Piece::Return,
];

// if (y == 0u) goto T; if (x >= 2147483648u) goto N; if (y >= 2147483648u) goto P; return (x / y);
// P: return (0u - (x / (0u - y)));
// N: if (y >= 2147483648u) goto M; return (0u - ((0u - x) / y));
// M: if (y != 4294967295u) goto D; if (x == 2147483648u) goto U;
// D: return ((0u - x) / (0u - y));
// T: w2c_trap(3u); U: w2c_trap(4u); return 0u;
pub const DIV_S: [Piece; 56] = [
    Piece::Name(b'y'),
    Piece::Number(Number::Zero),
    Piece::If(COp::Eq, b'T'),
    Piece::Name(b'x'),
    Piece::Number(Number::Half),
    Piece::If(COp::Ge, b'N'),
    Piece::Name(b'y'),
    Piece::Number(Number::Half),
    Piece::If(COp::Ge, b'P'),
    Piece::Name(b'x'),
    Piece::Name(b'y'),
    Piece::Op(COp::Div),
    Piece::Return,
    Piece::Label(b'P'),
    Piece::Number(Number::Zero),
    Piece::Name(b'x'),
    Piece::Number(Number::Zero),
    Piece::Name(b'y'),
    Piece::Op(COp::Sub),
    Piece::Op(COp::Div),
    Piece::Op(COp::Sub),
    Piece::Return,
    Piece::Label(b'N'),
    Piece::Name(b'y'),
    Piece::Number(Number::Half),
    Piece::If(COp::Ge, b'M'),
    Piece::Number(Number::Zero),
    Piece::Number(Number::Zero),
    Piece::Name(b'x'),
    Piece::Op(COp::Sub),
    Piece::Name(b'y'),
    Piece::Op(COp::Div),
    Piece::Op(COp::Sub),
    Piece::Return,
    Piece::Label(b'M'),
    Piece::Name(b'y'),
    Piece::Number(Number::Greatest),
    Piece::If(COp::Ne, b'D'),
    Piece::Name(b'x'),
    Piece::Number(Number::Half),
    Piece::If(COp::Eq, b'U'),
    Piece::Label(b'D'),
    Piece::Number(Number::Zero),
    Piece::Name(b'x'),
    Piece::Op(COp::Sub),
    Piece::Number(Number::Zero),
    Piece::Name(b'y'),
    Piece::Op(COp::Sub),
    Piece::Op(COp::Div),
    Piece::Return,
    Piece::Label(b'T'),
    Piece::Trap(TrapKind::DivByZero),
    Piece::Label(b'U'),
    Piece::Trap(TrapKind::IntOverflow),
    Piece::Number(Number::Zero),
    Piece::Return,
];

// if (y == 0u) goto T; if (y < 2147483648u) goto P; y = (0u - y);
// P: if (x >= 2147483648u) goto N; return (x % y);
// N: return (0u - ((0u - x) % y)); T: w2c_trap(3u); return 0u;
pub const REM_S: [Piece; 31] = [
    Piece::Name(b'y'),
    Piece::Number(Number::Zero),
    Piece::If(COp::Eq, b'T'),
    Piece::Name(b'y'),
    Piece::Number(Number::Half),
    Piece::If(COp::Lt, b'P'),
    Piece::Number(Number::Zero),
    Piece::Name(b'y'),
    Piece::Op(COp::Sub),
    Piece::Set(b'y'),
    Piece::Label(b'P'),
    Piece::Name(b'x'),
    Piece::Number(Number::Half),
    Piece::If(COp::Ge, b'N'),
    Piece::Name(b'x'),
    Piece::Name(b'y'),
    Piece::Op(COp::Rem),
    Piece::Return,
    Piece::Label(b'N'),
    Piece::Number(Number::Zero),
    Piece::Number(Number::Zero),
    Piece::Name(b'x'),
    Piece::Op(COp::Sub),
    Piece::Name(b'y'),
    Piece::Op(COp::Rem),
    Piece::Op(COp::Sub),
    Piece::Return,
    Piece::Label(b'T'),
    Piece::Trap(TrapKind::DivByZero),
    Piece::Number(Number::Zero),
    Piece::Return,
];

// y = (y % 32u); return (((x + 2147483648u) >> y) - (2147483648u >> y));
pub const SHR_S: [Piece; 14] = [
    Piece::Name(b'y'),
    Piece::Number(Number::Bits), // a shift's count is taken modulo the width
    Piece::Op(COp::Rem),
    Piece::Set(b'y'),
    Piece::Name(b'x'),
    Piece::Number(Number::Half), // half a turn on, and back by what the shift leaves of it
    Piece::Op(COp::Add),
    Piece::Name(b'y'),
    Piece::Op(COp::Shr),
    Piece::Number(Number::Half),
    Piece::Name(b'y'),
    Piece::Op(COp::Shr),
    Piece::Op(COp::Sub),
    Piece::Return,
];

// y = (y % 32u); return ((x << y) | (x >> ((32u - y) % 32u)));
pub const ROTL: [Piece; 16] = [
    Piece::Name(b'y'),
    Piece::Number(Number::Bits),
    Piece::Op(COp::Rem),
    Piece::Set(b'y'),
    Piece::Name(b'x'),
    Piece::Name(b'y'),
    Piece::Op(COp::Shl),
    Piece::Name(b'x'),
    Piece::Number(Number::Bits),
    Piece::Name(b'y'),
    Piece::Op(COp::Sub),
    Piece::Number(Number::Bits),
    Piece::Op(COp::Rem),
    Piece::Op(COp::Shr),
    Piece::Op(COp::Or),
    Piece::Return,
];

// y = (y % 32u); return ((x << ((32u - y) % 32u)) | (x >> y));
pub const ROTR: [Piece; 16] = [
    Piece::Name(b'y'),
    Piece::Number(Number::Bits),
    Piece::Op(COp::Rem),
    Piece::Set(b'y'),
    Piece::Name(b'x'),
    Piece::Number(Number::Bits),
    Piece::Name(b'y'),
    Piece::Op(COp::Sub),
    Piece::Number(Number::Bits),
    Piece::Op(COp::Rem),
    Piece::Op(COp::Shl),
    Piece::Name(b'x'),
    Piece::Name(b'y'),
    Piece::Op(COp::Shr),
    Piece::Op(COp::Or),
    Piece::Return,
];

// for 16, 8, 4, 2 and 1 bits: t = ((u32)(x < 65536u) * 16u); n = (n + t); x = (x << t);
pub const CLZ_STAGE: [Piece; 15] = [
    Piece::Name(b'x'),
    Piece::Number(Number::High),
    Piece::Op(COp::Lt),
    Piece::Cast(Cast::Flag),
    Piece::Number(Number::Size),
    Piece::Op(COp::Mul),
    Piece::Set(b't'),
    Piece::Name(b'n'),
    Piece::Name(b't'),
    Piece::Op(COp::Add),
    Piece::Set(b'n'),
    Piece::Name(b'x'),
    Piece::Name(b't'),
    Piece::Op(COp::Shl),
    Piece::Set(b'x'),
];

// for 16, 8, 4, 2 and 1 bits: n = (n + ((u32)(((x & (0u - x)) & 65535u) == 0u) * 16u));
pub const CTZ_STAGE: [Piece; 15] = [
    Piece::Name(b'n'),
    Piece::Name(b'x'),
    Piece::Number(Number::Zero),
    Piece::Name(b'x'),
    Piece::Op(COp::Sub),
    Piece::Op(COp::And), // the lowest bit that is set
    Piece::Number(Number::Mask),
    Piece::Op(COp::And),
    Piece::Number(Number::Zero),
    Piece::Op(COp::Eq),
    Piece::Cast(Cast::Flag),
    Piece::Number(Number::Size),
    Piece::Op(COp::Mul),
    Piece::Op(COp::Add),
    Piece::Set(b'n'),
];

// return (n + (u32)(x == 0u));
pub const COUNT_END: [Piece; 7] = [
    Piece::Name(b'n'),
    Piece::Name(b'x'),
    Piece::Number(Number::Zero),
    Piece::Op(COp::Eq),
    Piece::Cast(Cast::Flag),
    Piece::Op(COp::Add), // one more where no bit is set
    Piece::Return,
];

// for 1, 2 and 4 bits: x = ((x & 1431655765u) + ((x >> 1u) & 1431655765u));
pub const POPCNT_STAGE: [Piece; 10] = [
    Piece::Name(b'x'),
    Piece::Number(Number::Mask),
    Piece::Op(COp::And),
    Piece::Name(b'x'),
    Piece::Number(Number::Size),
    Piece::Op(COp::Shr),
    Piece::Number(Number::Mask),
    Piece::Op(COp::And),
    Piece::Op(COp::Add),
    Piece::Set(b'x'),
];

// return ((x * 16843009u) / 16777216u);
pub const POPCNT_END: [Piece; 6] = [
    Piece::Name(b'x'),
    Piece::Number(Number::EachByte), // the highest byte of the product is the sum of all
    Piece::Op(COp::Mul),
    Piece::Number(Number::High),
    Piece::Op(COp::Div),
    Piece::Return,
];

// return ((((u64)x % 4294967296ull) ^ 2147483648ull) - 2147483648ull);
pub const EXTEND_S: [Piece; 9] = [
    Piece::Name(b'x'),
    Piece::Cast(Cast::To64),
    Piece::Number(Number::Block),
    Piece::Op(COp::Rem),
    Piece::Number(Number::Sign),
    Piece::Op(COp::Xor),
    Piece::Number(Number::Sign),
    Piece::Op(COp::Sub),
    Piece::Return,
];

// return (((x % 256u) ^ 128u) - 128u);
pub const EXTEND_LOW_S: [Piece; 8] = [
    Piece::Name(b'x'),
    Piece::Number(Number::Block),
    Piece::Op(COp::Rem), // the bits that are extended
    Piece::Number(Number::Sign),
    Piece::Op(COp::Xor),
    Piece::Number(Number::Sign),
    Piece::Op(COp::Sub),
    Piece::Return,
];

/// The pieces of each stage.
pub fn stage(form: Form) -> &'static [Piece]
    ensures { result.now ≡ of.stage_of form }
{
    match form {
        Form::Clz => &CLZ_STAGE,
        Form::Ctz => &CTZ_STAGE,
        Form::Popcnt => &POPCNT_STAGE,
        _ => &[],
    }
}

/// The pieces behind the stages.
pub fn end(form: Form) -> &'static [Piece]
    ensures { result.now ≡ of.end_of form }
{
    match form {
        Form::DivS => &DIV_S,
        Form::DivU => &DIV_U,
        Form::RemS => &REM_S,
        Form::RemU => &REM_U,
        Form::ShrS => &SHR_S,
        Form::Rotl => &ROTL,
        Form::Rotr => &ROTR,
        Form::Clz | Form::Ctz => &COUNT_END,
        Form::Popcnt => &POPCNT_END,
        Form::LtS => &LT_S,
        Form::GtS => &GT_S,
        Form::LeS => &LE_S,
        Form::GeS => &GE_S,
        Form::ExtendS => &EXTEND_S,
        Form::Extend8S | Form::Extend16S | Form::Extend32S => &EXTEND_LOW_S,
    }
}
