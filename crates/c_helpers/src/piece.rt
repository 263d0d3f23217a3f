// The pieces of a body, in the order in which a stack of expressions takes them.
use c_tree::{COp, Primitive};
use w2c_base::{TrapKind, ValType};

/// Where pieces are placed: the type of the helper's numbers, and how many bits a stage or an
/// access is about.
#[derive(Clone, Copy)]
pub struct Setting {
    pub ty: ValType,
    pub size: u32,
}

/// A number, which may hang on the setting.
#[derive(Clone, Copy)]
pub enum Number {
    Zero,
    One,
    /// The width in bits.
    Bits,
    /// The highest bit alone.
    Half,
    /// All bits.
    Greatest,
    /// The setting's size.
    Size,
    /// 2 to the power of the size.
    Block,
    /// The highest of the lowest bits, as many as the size says.
    Sign,
    /// The lowest of the highest bits, as many as the size says.
    High,
    /// The lower half of each block of twice the size.
    Mask,
    /// The lowest bit of each byte.
    EachByte,
    /// The size in bytes.
    Bytes,
    /// A page of a memory in bytes.
    Page,
}

/// How an expression is turned into another type.
#[derive(Clone, Copy)]
pub enum Cast {
    To32,
    To64,
    /// A comparison becomes a number of the helper's type.
    Flag,
    /// What `Read` gives becomes a number of the helper's type.
    Widen,
    /// A number of the helper's type becomes what `Write` takes.
    Narrow,
}

/// A piece of a body. Names are single letters.
#[derive(Clone, Copy)]
pub enum Piece {
    /// A variable.
    Name(u8),
    /// A number of the helper's type.
    Number(Number),
    /// A number as a `u64`.
    Long(Number),
    /// An operator on the two uppermost expressions.
    Op(COp),
    Cast(Cast),
    /// The uppermost expression becomes the next argument.
    Arg,
    /// A call of the runtime whose value is assigned.
    Get(u8, Primitive),
    /// The same, which reads as many bits as the setting's size.
    Read(u8),
    /// A call of the runtime that writes as many.
    Write,
    Set(u8),
    If(COp, u8),
    Label(u8),
    Return,
    ReturnNone,
    Trap(TrapKind),
}
