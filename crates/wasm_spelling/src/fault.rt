// Why a module could not be read.
ghost use Rattle.std.specs.Prelude.{◌≡◌};
ghost use Rattle.wasm_spelling.specs.FaultTexts.{cause_text, which_text};
ghost use Rattle.wasm_spelling.specs.declared.fault.ReadFault.TheVariants.{Memory as memory_wanted};

use std::alloc::{AllocError, AllocFailed};
use w2c_base::Memory;

/// What is wrong with a field.
#[derive(Clone, Copy, Debug, PartialEq, Eq)]
pub enum Cause {
    UnexpectedEnd,
    IntegerTooLong,
    UnusedBits,
    BadMagic,
    BadVersion,
    BadSectionId,
    SectionOrder,
    CountDiffers,
    SizePastEnd,
    SectionNotUsedUp,
    BodyNotUsedUp,
    BadUTF8,
    BadForm,
    BadTypeCode,
    BadKind,
    BadElementType,
    BadLimitsFlag,
    BadMutability,
    BadOpcode,
    ZeroByteExpected,
}

impl Cause {
    /// Its text, as the line of a refused file has it.
    pub fn text(&self) -> &'static str
        ensures { result.now ≡ cause_text self.now }
    {
        match self {
            Cause::UnexpectedEnd => "unexpected end",
            Cause::IntegerTooLong => "integer too long",
            Cause::UnusedBits => "unused bits",
            Cause::BadMagic => "bad magic",
            Cause::BadVersion => "bad version",
            Cause::BadSectionId => "bad section id",
            Cause::SectionOrder => "section order",
            Cause::CountDiffers => "count differs",
            Cause::SizePastEnd => "size past end",
            Cause::SectionNotUsedUp => "section not used up",
            Cause::BodyNotUsedUp => "body not used up",
            Cause::BadUTF8 => "bad UTF-8",
            Cause::BadForm => "bad form",
            Cause::BadTypeCode => "bad type code",
            Cause::BadKind => "bad kind",
            Cause::BadElementType => "bad element type",
            Cause::BadLimitsFlag => "bad limits flag",
            Cause::BadMutability => "bad mutability",
            Cause::BadOpcode => "bad opcode",
            Cause::ZeroByteExpected => "zero byte expected",
        }
    }
}

/// A limit that is passed.
#[derive(Clone, Copy, Debug, PartialEq, Eq)]
pub enum Which {
    ModuleBytes,
    SetBytes,
    Parameters,
    Results,
    NameLength,
    Functions,
    Locals,
    AllLocals,
    BlockDepth,
    MemoryPages,
    TableLength,
}

impl Which {
    /// Its text, as the line of a refused file has it.
    pub fn text(&self) -> &'static str
        ensures { result.now ≡ which_text self.now }
    {
        match self {
            Which::ModuleBytes => "module bytes",
            Which::SetBytes => "set bytes",
            Which::Parameters => "parameters",
            Which::Results => "results",
            Which::NameLength => "name length",
            Which::Functions => "functions",
            Which::Locals => "locals",
            Which::AllLocals => "all locals",
            Which::BlockDepth => "block depth",
            Which::MemoryPages => "memory pages",
            Which::TableLength => "table length",
        }
    }
}

/// The first fault of a module's bytes, with its place: the first byte of the field that is not spelled
/// as expected. Or memory was wanting.
#[derive(Clone, Copy, Debug, PartialEq, Eq)]
pub enum ReadFault {
    Malformed(u32, Cause),
    Float(u32),
    Limit(u32, Which),
    Memory,
}

impl From<Memory> for ReadFault {
    ghost from_gives = { λ _ fault. fault ≡ memory_wanted };

    fn from(_: Memory) -> ReadFault {
        ReadFault::Memory
    }
}

impl From<AllocError> for ReadFault {
    ghost from_gives = { λ _ fault. fault ≡ memory_wanted };

    fn from(_: AllocError) -> ReadFault {
        ReadFault::Memory
    }
}

impl<T: Drop> From<AllocFailed<T>> for ReadFault {
    ghost from_gives = { λ _ fault. fault ≡ memory_wanted };

    fn from(_: AllocFailed<T>) -> ReadFault {
        ReadFault::Memory
    }
}
