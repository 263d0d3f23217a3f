// Why the work stopped.
ghost use Rattle.std.specs.Prelude.{◌≡◌};
ghost use Rattle.wasm2c_cli.specs.declared.stop.Stop.TheVariants.{Memory as WantOfMemory};
ghost use Rattle.wasm2c_cli.specs.Reasons.{reason_of};

use w2c_base::Memory;
use w2c_sim::Refusal;
use wasm_spelling::{Cause, Which};
use wasm_typing::ValidCause;

/// Why a file is refused.
#[derive(Clone, Copy)]
pub enum Reason {
    /// What is wrong with the field at this place.
    Malformed(u32, Cause),
    /// A floating-point type or instruction stands at this place.
    Float(u32),
    /// The limit that is passed at this place.
    Limit(u32, Which),
    /// It spells a module that is not valid: the first fault of the typing rules, at this place.
    Invalid(u32, ValidCause),
}

impl Reason {
    /// The reason of a refusal, None where memory was wanting.
    pub fn of(refusal: Refusal) -> Option<Reason>
        ensures { result ≡ reason_of refusal }
    {
        match refusal {
            Refusal::Malformed(place, cause) => Some(Reason::Malformed(place, cause)),
            Refusal::Float(place) => Some(Reason::Float(place)),
            Refusal::Limit(place, which) => Some(Reason::Limit(place, which)),
            Refusal::Invalid(place, cause) => Some(Reason::Invalid(place, cause)),
            Refusal::Memory => None,
        }
    }
}

/// Why the work stopped, with the file's name where there is one.
#[derive(Drop)]
pub enum Stop {
    Usage,
    Refused(String, Reason),
    Unread(String),
    Unwritten(String),
    Memory,
}

/// Want of memory, as whatever it comes.
impl<E: Into<Memory> + Drop> From<E> for Stop {
    ghost from_gives = { λ _ e. e ≡ WantOfMemory };

    fn from(_: E) -> Self {
        Stop::Memory
    }
}
