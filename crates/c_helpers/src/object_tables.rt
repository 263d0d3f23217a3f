// The bodies of the helpers of memories and tables as tables of pieces, each with the C text that it makes. A
// `return` that no run reaches stands behind a last trap, so that C sees each path end.
use crate::piece::{Cast, Number, Piece};
use c_tree::{COp, Primitive};
use w2c_base::TrapKind;

// a = ((u64)b + (u64)o); n = w2c_mem_len(m); if ((a + 4ull) > n) goto T;
pub const ACCESS: [Piece; 14] = [
    Piece::Name(b'b'),
    Piece::Cast(Cast::To64), // the base
    Piece::Name(b'o'), // the offset
    Piece::Cast(Cast::To64), // in 64 bits, so that no sum wraps
    Piece::Op(COp::Add),
    Piece::Set(b'a'),
    Piece::Name(b'm'),
    Piece::Arg,
    Piece::Get(b'n', Primitive::MemLen),
    Piece::Name(b'a'),
    Piece::Long(Number::Bytes),
    Piece::Op(COp::Add),
    Piece::Name(b'n'),
    Piece::If(COp::Gt, b'T'), // the access passes the end
];

// v = w2c_get4(m, a); return v; T: w2c_trap(2u); return 0u;
pub const LOAD: [Piece; 12] = [
    Piece::Name(b'm'),
    Piece::Arg,
    Piece::Name(b'a'),
    Piece::Arg,
    Piece::Read(b'v'),
    Piece::Name(b'v'),
    Piece::Cast(Cast::Widen),
    Piece::Return,
    Piece::Label(b'T'),
    Piece::Trap(TrapKind::MemoryOut),
    Piece::Number(Number::Zero),
    Piece::Return,
];

// v = w2c_get1(m, a); return (((v % 256u) ^ 128u) - 128u); T: w2c_trap(2u); return 0u;
pub const LOAD_S: [Piece; 18] = [
    Piece::Name(b'm'),
    Piece::Arg,
    Piece::Name(b'a'),
    Piece::Arg,
    Piece::Read(b'v'),
    Piece::Name(b'v'),
    Piece::Cast(Cast::Widen),
    Piece::Number(Number::Block),
    Piece::Op(COp::Rem),
    Piece::Number(Number::Sign), // the sign is turned
    Piece::Op(COp::Xor),
    Piece::Number(Number::Sign), // and its weight taken off
    Piece::Op(COp::Sub),
    Piece::Return,
    Piece::Label(b'T'),
    Piece::Trap(TrapKind::MemoryOut),
    Piece::Number(Number::Zero),
    Piece::Return,
];

// w2c_put4(m, a, v); return; T: w2c_trap(2u);
pub const STORE: [Piece; 11] = [
    Piece::Name(b'm'),
    Piece::Arg,
    Piece::Name(b'a'),
    Piece::Arg,
    Piece::Name(b'v'),
    Piece::Cast(Cast::Narrow),
    Piece::Arg,
    Piece::Write,
    Piece::ReturnNone,
    Piece::Label(b'T'),
    Piece::Trap(TrapKind::MemoryOut),
];

// n = w2c_mem_len(m); return (u32)(n / 65536ull);
pub const SIZE: [Piece; 8] = [
    Piece::Name(b'm'),
    Piece::Arg,
    Piece::Get(b'n', Primitive::MemLen),
    Piece::Name(b'n'),
    Piece::Long(Number::Page),
    Piece::Op(COp::Div),
    Piece::Cast(Cast::To32),
    Piece::Return,
];

// k = (u64)i; n = w2c_tab_len(t); if (k >= n) goto A;
// g = w2c_tab_sig(t, k); if (g == 0ull) goto B; if (g != s) goto C; f = w2c_tab_fn(t, k); return f;
// A: w2c_trap(5u); B: w2c_trap(6u); C: w2c_trap(7u); return f;
pub const ELEMENT: [Piece; 35] = [
    Piece::Name(b'i'),
    Piece::Cast(Cast::To64),
    Piece::Set(b'k'),
    Piece::Name(b't'),
    Piece::Arg,
    Piece::Get(b'n', Primitive::TabLen),
    Piece::Name(b'k'),
    Piece::Name(b'n'),
    Piece::If(COp::Ge, b'A'),
    Piece::Name(b't'),
    Piece::Arg,
    Piece::Name(b'k'),
    Piece::Arg,
    Piece::Get(b'g', Primitive::TabSig),
    Piece::Name(b'g'),
    Piece::Long(Number::Zero),
    Piece::If(COp::Eq, b'B'),
    Piece::Name(b'g'),
    Piece::Name(b's'), // the signature number that is wanted
    Piece::If(COp::Ne, b'C'),
    Piece::Name(b't'),
    Piece::Arg,
    Piece::Name(b'k'),
    Piece::Arg,
    Piece::Get(b'f', Primitive::TabFn),
    Piece::Name(b'f'),
    Piece::Return,
    Piece::Label(b'A'),
    Piece::Trap(TrapKind::TableOut),
    Piece::Label(b'B'),
    Piece::Trap(TrapKind::Empty),
    Piece::Label(b'C'),
    Piece::Trap(TrapKind::Signature),
    Piece::Name(b'f'),
    Piece::Return,
];

// a = (u64)d; b = (u64)s; k = (u64)n; l = w2c_mem_len(m);
// if ((a + k) > l) goto T; if ((b + k) > l) goto T; if (k == 0ull) goto E; if (a <= b) goto U;
// D: k = (k - 1ull); v = w2c_get1(m, (b + k)); w2c_put1(m, (a + k), v); if (k != 0ull) goto D; return;
// U: v = w2c_get1(m, b); w2c_put1(m, a, v); a = (a + 1ull); b = (b + 1ull); k = (k - 1ull); if (k != 0ull) goto U;
// E: return; T: w2c_trap(2u);
pub const COPY: [Piece; 85] = [
    Piece::Name(b'd'),
    Piece::Cast(Cast::To64),
    Piece::Set(b'a'),
    Piece::Name(b's'),
    Piece::Cast(Cast::To64),
    Piece::Set(b'b'),
    Piece::Name(b'n'),
    Piece::Cast(Cast::To64),
    Piece::Set(b'k'),
    Piece::Name(b'm'),
    Piece::Arg,
    Piece::Get(b'l', Primitive::MemLen),
    Piece::Name(b'a'),
    Piece::Name(b'k'),
    Piece::Op(COp::Add),
    Piece::Name(b'l'),
    Piece::If(COp::Gt, b'T'), // the bytes that are written pass the end
    Piece::Name(b'b'),
    Piece::Name(b'k'),
    Piece::Op(COp::Add),
    Piece::Name(b'l'),
    Piece::If(COp::Gt, b'T'), // the bytes that are read pass the end
    Piece::Name(b'k'),
    Piece::Long(Number::Zero),
    Piece::If(COp::Eq, b'E'),
    Piece::Name(b'a'),
    Piece::Name(b'b'), // upwards where no byte to come is overwritten
    Piece::If(COp::Le, b'U'),
    Piece::Label(b'D'),
    Piece::Name(b'k'),
    Piece::Long(Number::One),
    Piece::Op(COp::Sub),
    Piece::Set(b'k'),
    Piece::Name(b'm'),
    Piece::Arg,
    Piece::Name(b'b'),
    Piece::Name(b'k'),
    Piece::Op(COp::Add),
    Piece::Arg,
    Piece::Read(b'v'),
    Piece::Name(b'm'),
    Piece::Arg,
    Piece::Name(b'a'),
    Piece::Name(b'k'),
    Piece::Op(COp::Add),
    Piece::Arg,
    Piece::Name(b'v'),
    Piece::Arg,
    Piece::Write,
    Piece::Name(b'k'),
    Piece::Long(Number::Zero),
    Piece::If(COp::Ne, b'D'),
    Piece::ReturnNone,
    Piece::Label(b'U'),
    Piece::Name(b'm'),
    Piece::Arg,
    Piece::Name(b'b'),
    Piece::Arg,
    Piece::Read(b'v'),
    Piece::Name(b'm'),
    Piece::Arg,
    Piece::Name(b'a'),
    Piece::Arg,
    Piece::Name(b'v'),
    Piece::Arg,
    Piece::Write,
    Piece::Name(b'a'),
    Piece::Long(Number::One),
    Piece::Op(COp::Add),
    Piece::Set(b'a'),
    Piece::Name(b'b'),
    Piece::Long(Number::One),
    Piece::Op(COp::Add),
    Piece::Set(b'b'),
    Piece::Name(b'k'),
    Piece::Long(Number::One),
    Piece::Op(COp::Sub),
    Piece::Set(b'k'),
    Piece::Name(b'k'),
    Piece::Long(Number::Zero),
    Piece::If(COp::Ne, b'U'),
    Piece::Label(b'E'),
    Piece::ReturnNone,
    Piece::Label(b'T'),
    Piece::Trap(TrapKind::MemoryOut),
];

// a = (u64)d; k = (u64)n; l = w2c_mem_len(m); if ((a + k) > l) goto T; if (k == 0ull) goto E;
// U: w2c_put1(m, a, v); a = (a + 1ull); k = (k - 1ull); if (k != 0ull) goto U;
// E: return; T: w2c_trap(2u);
pub const FILL: [Piece; 40] = [
    Piece::Name(b'd'),
    Piece::Cast(Cast::To64),
    Piece::Set(b'a'),
    Piece::Name(b'n'),
    Piece::Cast(Cast::To64),
    Piece::Set(b'k'),
    Piece::Name(b'm'),
    Piece::Arg,
    Piece::Get(b'l', Primitive::MemLen),
    Piece::Name(b'a'),
    Piece::Name(b'k'),
    Piece::Op(COp::Add),
    Piece::Name(b'l'),
    Piece::If(COp::Gt, b'T'), // the bytes that are filled pass the end
    Piece::Name(b'k'),
    Piece::Long(Number::Zero),
    Piece::If(COp::Eq, b'E'),
    Piece::Label(b'U'),
    Piece::Name(b'm'),
    Piece::Arg,
    Piece::Name(b'a'),
    Piece::Arg,
    Piece::Name(b'v'),
    Piece::Arg,
    Piece::Write,
    Piece::Name(b'a'),
    Piece::Long(Number::One),
    Piece::Op(COp::Add),
    Piece::Set(b'a'),
    Piece::Name(b'k'),
    Piece::Long(Number::One),
    Piece::Op(COp::Sub),
    Piece::Set(b'k'),
    Piece::Name(b'k'),
    Piece::Long(Number::Zero),
    Piece::If(COp::Ne, b'U'),
    Piece::Label(b'E'),
    Piece::ReturnNone,
    Piece::Label(b'T'),
    Piece::Trap(TrapKind::MemoryOut),
];
