// Why a module is not valid.
ghost use Rattle.std.specs.Prelude.{◌≡◌};
ghost use Rattle.wasm_typing.specs.CauseTexts.{cause_text};
ghost use Rattle.wasm_typing.specs.declared.fault.ValidRefusal.TheVariants.{Memory as memory_wanted};

use std::alloc::{AllocError, AllocFailed};
use w2c_base::Memory;

/// What is wrong at a place of a module.
#[derive(Clone, Copy, Debug, PartialEq, Eq)]
pub enum ValidCause {
    UnknownType,
    TooManyTables,
    TooManyMemories,
    MinAboveMax,
    TooManyPages,
    ConstantExpected,
    UnknownGlobal,
    TypeMismatch,
    UnknownFunction,
    UnknownTable,
    UnknownMemory,
    DuplicateExport,
    StartType,
    UnknownLocal,
    UnknownLabel,
    Alignment,
    ImmutableGlobal,
}

impl ValidCause {
    /// Its text, as the line of a refused file has it.
    pub fn text(&self) -> &'static str
        ensures { result.now ≡ cause_text self.now }
    {
        match self {
            ValidCause::UnknownType => "unknown type",
            ValidCause::TooManyTables => "too many tables",
            ValidCause::TooManyMemories => "too many memories",
            ValidCause::MinAboveMax => "min above max",
            ValidCause::TooManyPages => "too many pages",
            ValidCause::ConstantExpected => "constant expected",
            ValidCause::UnknownGlobal => "unknown global",
            ValidCause::TypeMismatch => "type mismatch",
            ValidCause::UnknownFunction => "unknown function",
            ValidCause::UnknownTable => "unknown table",
            ValidCause::UnknownMemory => "unknown memory",
            ValidCause::DuplicateExport => "duplicate export",
            ValidCause::StartType => "start type",
            ValidCause::UnknownLocal => "unknown local",
            ValidCause::UnknownLabel => "unknown label",
            ValidCause::Alignment => "alignment",
            ValidCause::ImmutableGlobal => "immutable global",
        }
    }
}

/// A fault with its place, a byte offset in the file.
#[derive(Clone, Copy, Debug, PartialEq, Eq)]
pub struct Fault {
    pub place: u32,
    pub cause: ValidCause,
}

/// Why a module is refused: its first fault, by place and cause, or memory was wanting.
#[derive(Clone, Copy, Debug, PartialEq, Eq)]
pub enum ValidRefusal {
    Invalid(u32, ValidCause),
    Memory,
}

impl From<Memory> for ValidRefusal {
    ghost from_gives = { λ _ refusal. refusal ≡ memory_wanted };

    fn from(_: Memory) -> ValidRefusal {
        ValidRefusal::Memory
    }
}

impl From<AllocError> for ValidRefusal {
    ghost from_gives = { λ _ refusal. refusal ≡ memory_wanted };

    fn from(_: AllocError) -> ValidRefusal {
        ValidRefusal::Memory
    }
}

impl<T: Drop> From<AllocFailed<T>> for ValidRefusal {
    ghost from_gives = { λ _ refusal. refusal ≡ memory_wanted };

    fn from(_: AllocFailed<T>) -> ValidRefusal {
        ValidRefusal::Memory
    }
}
