// Why a file is not translated.
ghost use Rattle.std.specs.Prelude.{◌≡◌};
ghost use Rattle.w2c_sim.specs.declared.refusal.Refusal.TheVariants.{Memory as memory_wanted};
ghost use Rattle.w2c_sim.specs.Refusals as refusals;

use w2c_base::Memory;
use wasm_spelling::{Cause, ReadFault, Which};
use wasm_typing::{ValidCause, ValidRefusal};

/// Why a file is not translated: its first fault, with the place, or memory was wanting.
#[derive(Clone, Copy, Debug, PartialEq, Eq)]
pub enum Refusal {
    /// What is wrong with the field at this place.
    Malformed(u32, Cause),
    /// A floating-point type or instruction stands at this place.
    Float(u32),
    /// The limit that is passed at this place.
    Limit(u32, Which),
    /// It spells a module that is not valid: the first fault of the typing rules, at this place.
    Invalid(u32, ValidCause),
    Memory,
}

impl From<ReadFault> for Refusal {
    ghost from_gives = { λ fault refusal. refusal ≡ refusals.refusal_of fault };

    fn from(fault: ReadFault) -> Self {
        match fault {
            ReadFault::Malformed(place, cause) => Refusal::Malformed(place, cause),
            ReadFault::Float(place) => Refusal::Float(place),
            ReadFault::Limit(place, which) => Refusal::Limit(place, which),
            ReadFault::Memory => Refusal::Memory,
        }
    }
}

impl From<ValidRefusal> for Refusal {
    ghost from_gives = { λ broken refusal. refusal ≡ refusals.invalid_of broken };

    fn from(broken: ValidRefusal) -> Self {
        match broken {
            ValidRefusal::Invalid(place, cause) => Refusal::Invalid(place, cause),
            ValidRefusal::Memory => Refusal::Memory,
        }
    }
}

impl From<Memory> for Refusal {
    ghost from_gives = { λ _ refusal. refusal ≡ memory_wanted };

    fn from(_: Memory) -> Self {
        Refusal::Memory
    }
}
