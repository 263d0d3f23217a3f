// Why a token is refused, before its place is known.
ghost use Rattle.std.specs.Prelude.{◌≡◌};
ghost use Rattle.body_check.specs.RanTo.{placed};
ghost use Rattle.body_check.specs.declared.stop.Stop.TheVariants.{Memory as memory_wanted};

use std::alloc::{AllocError, AllocFailed};
use wasm_typing::{ValidCause, ValidRefusal};

/// A cause, or want of memory.
#[derive(Clone, Copy)]
pub(crate) enum Stop {
    Cause(ValidCause),
    Memory,
}

impl Stop {
    /// Operands that are missing or of another type.
    pub(crate) const MISMATCH: Stop = Stop::Cause(ValidCause::TypeMismatch);

    /// The refusal at a place.
    pub(crate) fn at(self, place: u32) -> ValidRefusal
        ensures { result ≡ placed self place }
    {
        match self {
            Stop::Cause(cause) => ValidRefusal::Invalid(place, cause),
            Stop::Memory => ValidRefusal::Memory,
        }
    }
}

impl From<AllocError> for Stop {
    ghost from_gives = { λ _ stop. stop ≡ memory_wanted };

    fn from(_: AllocError) -> Stop {
        Stop::Memory
    }
}

impl<T: Drop> From<AllocFailed<T>> for Stop {
    ghost from_gives = { λ _ stop. stop ≡ memory_wanted };

    fn from(_: AllocFailed<T>) -> Stop {
        Stop::Memory
    }
}
