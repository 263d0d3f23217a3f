// Tokens and parts of the grammar, as the definitions and the faults of a text name them.
ghost use Rattle.std.specs.Prelude.{◌≡◌};

use std::alloc::{AllocError, AllocFailed};
use w2c_base::Memory;

/// A token, without what a name or a number says. `Include` is the include line, `End` the end of
/// the text, `Name` any name and `Plain` a number without a suffix.
#[derive(Clone, Copy, Debug, PartialEq, Eq)]
pub enum Tok {
    Include,
    End,
    Name,
    Plain,
    WordStatic,
    WordConst,
    WordVoid,
    WordU8,
    WordU32,
    WordU64,
    WordW2cMem,
    WordW2cTab,
    WordW2cFn,
    WordGoto,
    WordIf,
    WordSwitch,
    WordCase,
    WordDefault,
    WordReturn,
    LeftParen,
    RightParen,
    LeftBrace,
    RightBrace,
    LeftBracket,
    RightBracket,
    Semicolon,
    Comma,
    Colon,
    Assign,
    Star,
    Amp,
    Plus,
    Minus,
    Slash,
    Percent,
    Bar,
    Caret,
    ShiftLeft,
    ShiftRight,
    Equal,
    NotEqual,
    Less,
    LessEqual,
    Greater,
    GreaterEqual,
}

impl Tok {
    ghost use Rattle.c_tree.specs.Tokens.{fixed_text};

    /// The text of a key word, of a sign and of the include line; the other tokens have none of
    /// their own.
    pub fn text(self) -> &'static [u8]
        ensures { result.now ≡ fixed_text self }
    {
        match self {
            Tok::Include => b"#include \"w2c_rt.h\"\n",
            Tok::End | Tok::Name | Tok::Plain => b"",
            Tok::WordStatic => b"static",
            Tok::WordConst => b"const",
            Tok::WordVoid => b"void",
            Tok::WordU8 => b"u8",
            Tok::WordU32 => b"u32",
            Tok::WordU64 => b"u64",
            Tok::WordW2cMem => b"w2c_mem",
            Tok::WordW2cTab => b"w2c_tab",
            Tok::WordW2cFn => b"w2c_fn",
            Tok::WordGoto => b"goto",
            Tok::WordIf => b"if",
            Tok::WordSwitch => b"switch",
            Tok::WordCase => b"case",
            Tok::WordDefault => b"default",
            Tok::WordReturn => b"return",
            Tok::LeftParen => b"(",
            Tok::RightParen => b")",
            Tok::LeftBrace => b"{",
            Tok::RightBrace => b"}",
            Tok::LeftBracket => b"[",
            Tok::RightBracket => b"]",
            Tok::Semicolon => b";",
            Tok::Comma => b",",
            Tok::Colon => b":",
            Tok::Assign => b"=",
            Tok::Star => b"*",
            Tok::Amp => b"&",
            Tok::Plus => b"+",
            Tok::Minus => b"-",
            Tok::Slash => b"/",
            Tok::Percent => b"%",
            Tok::Bar => b"|",
            Tok::Caret => b"^",
            Tok::ShiftLeft => b"<<",
            Tok::ShiftRight => b">>",
            Tok::Equal => b"==",
            Tok::NotEqual => b"!=",
            Tok::Less => b"<",
            Tok::LessEqual => b"<=",
            Tok::Greater => b">",
            Tok::GreaterEqual => b">=",
        }
    }
}

/// A part of the grammar.
#[derive(Clone, Copy, Debug, PartialEq, Eq)]
pub enum Part {
    InUnit,
    InItems,
    InItem,
    InInner,
    InMore,
    InRest,
    InType,
    InStar,
    InFunction,
    InParameters,
    InPname,
    InPtail,
    InClose,
    InBody,
    InDeclaration,
    InStatements,
    InStatement,
    InAfter,
    InRight,
    InRname,
    InRgroup,
    InRstar,
    InThrough,
    InTypes,
    InTtail,
    InArguments,
    InArgument,
    InAtail,
    InAgroup,
    InResult,
    InCases,
    InExpr,
    InIndex,
    InGroup,
    InOperator,
    InNumber,
}

/// What was wanted at a faulty token.
#[derive(Clone, Copy, Debug, PartialEq, Eq)]
pub enum Wanted {
    Token(Tok),
    Part(Part),
}

/// How a number ends: in nothing, in `u` or in `ull`.
#[derive(Clone, Copy, Debug, PartialEq, Eq)]
pub enum Suffix {
    OfPlain,
    Of32,
    Of64,
}

/// What the grammar looks at in a token. `Wrong` is a token that fits nowhere.
#[derive(Clone, Copy, Debug, PartialEq, Eq)]
pub enum Kind {
    Fixed(Tok),
    Name,
    Number(Suffix),
    Wrong,
}

/// Why a text could not be read: its first faulty token by its place in bytes from 0, a text that is
/// too long, or want of memory.
#[derive(Clone, Copy, Debug, PartialEq, Eq)]
pub enum CReadFault {
    Unexpected(u64, Wanted),
    NumberTooLarge(u64),
    TooDeep(u64),
    UnitTooLong,
    Memory,
}

impl From<Memory> for CReadFault {
    ghost use Rattle.c_tree.specs.declared.token.CReadFault.{CReadFault};

    ghost from_gives = { λ _ fault. fault ≡ CReadFault.Memory };

    fn from(_: Memory) -> Self {
        CReadFault::Memory
    }
}

impl From<AllocError> for CReadFault {
    ghost use Rattle.c_tree.specs.declared.token.CReadFault.{CReadFault};

    ghost from_gives = { λ _ fault. fault ≡ CReadFault.Memory };

    fn from(_: AllocError) -> Self {
        CReadFault::Memory
    }
}

impl<T: Drop> From<AllocFailed<T>> for CReadFault {
    ghost use Rattle.c_tree.specs.declared.token.CReadFault.{CReadFault};

    ghost from_gives = { λ _ fault. fault ≡ CReadFault.Memory };

    fn from(_: AllocFailed<T>) -> Self {
        CReadFault::Memory
    }
}
